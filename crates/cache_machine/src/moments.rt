//! What holds at every moment: after any moves of any workers from the start.

ghost use Rattle.cache_machine.specs.Laws.{ClaimsHaveWorkers, EndsAreAnswers, LookedAllIsKnown, NeededIsToCome, NumbersOnce, OverHasEnds, OversDrewPast, PathsDiffer, WorkersFit};

/// No two rows have the same path.
pub fn row_paths_differ()
    ensures { PathsDiffer }
{}

/// The looks that a worker had answered are the first of its job and have rows that are done; what it reads or holds it
/// has claimed.
pub fn answered_looks_are_done()
    ensures { WorkersFit }
{}

/// A path that is claimed has one worker, which is to read it or holds what was read.
pub fn a_claimed_path_has_its_worker()
    ensures { ClaimsHaveWorkers }
{}

/// The number of each job that was drawn is at one worker or ended, once.
pub fn each_drawn_job_is_at_one_worker_or_ended()
    ensures { NumbersOnce }
{}

/// A worker is over only when all jobs are drawn.
pub fn over_workers_drew_past_the_last()
    ensures { OversDrewPast }
{}

/// Each recorded end is want of memory, or the job's answer over the map of the rows.
pub fn recorded_ends_are_answers()
    ensures { EndsAreAnswers }
{}

/// A path that a job's answer needs is one that its worker is to look at.
pub fn a_needed_path_is_to_come()
    ensures { NeededIsToCome }
{}

/// A job that has looked at all its paths has its answer.
pub fn a_job_that_looked_at_all_has_its_answer()
    ensures { LookedAllIsKnown }
{}

/// When all workers are over, each job has its end.
pub fn when_all_are_over_each_job_has_its_end()
    ensures { OverHasEnds }
{}
