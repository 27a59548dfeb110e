//! Kept lines give what whole files give.

ghost use Rattle.scan_model.specs.WholeFile.{View};
ghost use Rattle.unit_laws.specs.Reduction.{FileAlike, KeptAnswers, LinesAlike, ReducedAnswers, RunKeepsCore, TextKeepsCore};

/// A line that is no directive changes the pending run alone.
pub fn text_changes_the_run_alone<T>()
    ensures { TextKeepsCore T }
{}

/// The end of a run leaves what directives read and change, and the module and import lines.
pub fn an_ended_run_keeps_the_core()
    ensures { RunKeepsCore }
{}

/// Lists of lines with the same directives are gone through alike, whatever text stands between these.
pub fn lines_with_the_same_directives_act_alike<T, U>()
    ensures { (view : View T) (other : View U) → LinesAlike T U view other }
{}

/// So are files with the same directives, with all that is entered from them.
pub fn files_with_the_same_directives_act_alike<T, U>()
    ensures { (view : View T) (other : View U) → FileAlike T U view other }
{}

/// The kept lines of whole files give the answer of these files, and look at the same paths.
pub fn kept_lines_give_the_answer()
    ensures { KeptAnswers }
{}

/// So does a map that has the kept lines alone.
pub fn reduced_files_give_the_answer()
    ensures { ReducedAnswers }
{}
