ghost use Rattle.std.specs.Prelude.{◌≡◌, ◌<◌, [], ◌∷◌, ◌++◌, vec_len, vec_capacity};
ghost use Rattle.reducer.specs.Answers.{content_of};
ghost use Rattle.unit_scan.specs.Told.{stage_after};
ghost use Rattle.unit_scan.specs.Parts.{answers_of};
ghost use Rattle.unit_scan.specs.Standing.{turn_at};

use crate::parts::{Answered, Run, Scan};
use crate::running::run_on;
use crate::stage::{Lookup, Stage};
use crate::starting::first_run;
use crate::turn::Turn;
use reducer::Answer;
use scan_model::{Command, NoMemory, PathText, Settings, UnitEnd};
use std::alloc::Global;
use std::marker::Model;
use std::mem;

/// The scan of one command, which is given one answer at a time.
#[derive(Drop)]
pub struct Unit<'a> {
    command: &'a Command,
    settings: &'a Settings,
    run: Run,
    stage: Stage,
}

impl<'a> Model for Unit<'a> {
    ghost use Rattle.unit_steps.specs.UnitView.{UnitView};

    ghost Value = { UnitView };

    ghost use Rattle.unit_scan.specs.UnitInside.{view_of, IsStanding};

    ghost view = { view_of };

    ghost invariant = { IsStanding };
}

impl<'a> Unit<'a> {
    ghost use Rattle.std.specs.Prelude.{◌≡◌, ◌<◌, ◌∷◌, [], IfOk};
    ghost use Rattle.reducer.specs.Answers.{content_of};
    ghost use Rattle.scan_model.specs.Fits.{CommandFits, SettingsFit};
    ghost use Rattle.unit_steps.specs.UnitView.{Fits, IsAsking, IsReady, IsOver, is_over, IsSameScan, Runs, Spent, end_of_phase, given, asked_by};
    ghost use Rattle.unit_steps.specs.Work.{rank};
    ghost use Rattle.unit_scan.specs.Told.{rank_limit};
    ghost use Rattle.unit_scan.specs.Turns.{Turns};

    /// A unit that has asked nothing yet. `Err` is want of memory.
    pub fn start(
        alloc: Global,
        command: &'a Command,
        settings: &'a Settings,
    ) -> Result<Unit<'a>, NoMemory>
        requires command { CommandFits command.now }
        requires settings { SettingsFit settings.now }
        ensures command { IfOk result (λ unit. unit.command ≡ command.now) }
        ensures settings { IfOk result (λ unit. unit.settings ≡ settings.now) }
        ensures answers { IfOk result (λ unit. unit.answers ≡ []) }
        ensures phase { IfOk result (λ unit. unit.phase ≡ Runs) }
        ensures work { IfOk result (λ unit. rank unit.work < rank_limit) }
    {
        let scan = Scan {
            alloc,
            command,
            settings,
        };
        let (run, stage) = first_run(&scan)?;
        Ok(Unit {
            command,
            settings,
            run,
            stage,
        })
    }

    /// Runs until the answer for a path is needed, or the unit has its end. `Err` is want of memory: the unit's end is
    /// NoMemory then, and every later turn is `Done`.
    pub fn next(&mut self, alloc: Global) -> Result<Turn, NoMemory>
        requires { IsReady self.old.phase }
        ensures same { IsSameScan self.old self.new }
        ensures turn { Turns self.old self.new result }
        ensures over { IsOver self.old.phase → (result ≡ Ok Turn.Done) × (self.new ≡ self.old) }
        ensures fits { Fits self.new }
    {
        if self.is_over() {
            self.look_back();
            return Ok(Turn::Done);
        }
        let scan = Scan {
            alloc,
            command: self.command,
            settings: self.settings,
        };
        let stage = mem::replace(&mut self.stage, Stage::Spent);
        match run_on(&scan, &mut self.run, stage) {
            Ok(stage) => {
                let turn = turn_at(&stage);
                self.stage = stage;
                Ok(turn)
            }
            Err(NoMemory) => Err(NoMemory),
        }
    }

    /// The path that is waiting for its answer. It takes no memory.
    pub fn asked(&self) -> &PathText
        requires { IsAsking self.now.phase }
        ensures { asked_by self.now.phase ≡ result.now ∷ [] }
    {
        match &self.stage {
            Stage::Asks(_, path) => path,
            _ => unreachable!(),
        }
    }

    fn is_over(&self) -> bool
        ensures { result ≡ is_over self.now.phase }
    {
        matches!(self.stage, Stage::Recorded | Stage::Over(_) | Stage::Spent)
    }

    // What was said stands.
    fn look_back(&self)
        ensures { Fits self.now }
    {
        let _ = &self.stage;
    }

    /// Gives the answer for the path that is waiting. After the answer NoMemory the unit is over, with the end NoMemory. It
    /// takes no memory.
    pub fn give(&mut self, answer: Answer)
        requires { IsAsking self.old.phase }
        ensures value { self.new ≡ given self.old (content_of answer) }
        ensures fits { Fits self.new }
    {
        let stage = mem::replace(&mut self.stage, Stage::Spent);
        let Stage::Asks(lookup, path) = stage else {
            unreachable!()
        };
        self.stage = take_answer(&mut self.run, lookup, path, answer);
    }

    /// The end of a unit that is over: NoMemory, or the end that every file map has which agrees with the answers. It takes
    /// no memory.
    pub fn finish(self) -> UnitEnd
        requires { IsOver self.phase }
        ensures { result ≡ end_of_phase self.entry.phase }
    {
        let Unit { run, stage, .. } = self;
        match stage {
            Stage::Recorded => {
                let Run { state, .. } = run;
                UnitEnd::Record(state.builder.end())
            }
            Stage::Over(end) => end,
            _ => UnitEnd::NoMemory,
        }
    }
}

fn turn_at(stage: &Stage) -> Turn
    ensures { result ≡ turn_at stage.now }
{
    match stage {
        Stage::Asks(_, _) => Turn::Ask,
        _ => Turn::Done,
    }
}

// The path has this answer, for which there is room.
fn take_answer(run: &mut Run, lookup: Lookup, path: PathText, answer: Answer) -> Stage
    requires { vec_len run.old.log < vec_capacity run.old.log }
    ensures stage { result ≡ stage_after lookup (content_of answer) }
    ensures run { run.new ≡ record run.old { log = run.new.log } }
    ensures log { answers_of run.new.log.items ≡ answers_of run.old.log.items ++ (path, content_of answer) ∷ [] }
{
    let stage = stage_after(lookup, &answer);
    run.log.push_reserved(Answered { path, answer });
    stage
}

// What comes after this answer.
fn stage_after(lookup: Lookup, answer: &Answer) -> Stage
    ensures { result ≡ stage_after lookup (content_of answer.now) }
{
    match answer {
        Answer::NoMemory => Stage::Over(UnitEnd::NoMemory),
        _ => Stage::Answered(lookup),
    }
}
