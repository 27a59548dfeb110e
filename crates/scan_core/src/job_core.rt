ghost use Rattle.std.specs.Prelude.{◌≡◌, ◌<◌, ◌≤◌, Some, None, IfOk, OnOk, OnErr, length, replicate};
ghost use Rattle.std.specs.List.{All};
ghost use Rattle.scan_model.specs.Fits.{JobFits, SettingsFit};
ghost use Rattle.cache_machine.specs.Runs.{start};
ghost use Rattle.cache_machine.specs.Steps.{act, Draw, Look, Read, Publish, End};
ghost use Rattle.cache_machine.specs.Spending.{spend};
ghost use Rattle.cache_machine.specs.Wants.{Draw_wanted, Look_wanted, Read_wanted, Publish_wanted, End_wanted};
ghost use Rattle.scan_core.specs.Events.{event_of, want_of, IsReachedCore, IsSameScan, core_wants, core_wanted, HasPath, IsWanted, RunsUnit, worker_in, IsSpent};
ghost use Rattle.scan_core.specs.CoreSteps.{Steps, after_step};

use crate::event::{Event, Want};
use crate::reading::Reading;
use crate::rows::{claimed, set_done};
use crate::running::{first_seat, go_on};
use crate::seat::{Kept, Seat, end_of, idle_seats, take_seat};
use indexmap::IndexMap;
use scan_model::{Items, Job, NoMemory, PathText, Settings, UnitEnd};
use std::alloc::Global;
use std::marker::Model;
use std::mem;

/// Workers that scan jobs over one list of rows, one event after another.
#[derive(Drop)]
pub struct Core<'a, R: Reading> {
    jobs: &'a Items<Job>,
    settings: &'a Settings,
    /// In order of claiming, and looked up by path.
    rows: IndexMap<Vec<u8>, Kept<R>>,
    next: u32,
    seats: Vec<Seat<'a, R>>,
    ends: Vec<Option<UnitEnd>>,
}

impl<'a, R: Reading> Model for Core<'a, R> {
    ghost use Rattle.scan_core.specs.CoreView.{CoreView};

    ghost Value = { CoreView };

    ghost use Rattle.scan_core.specs.Inside.{view_of, Holds};

    ghost view = { view_of R.content };

    ghost invariant = { Holds R.content };
}

impl<'a, R: Reading> Core<'a, R> {
    /// Workers that have done nothing. `Err` is want of memory.
    pub fn new(
        alloc: Global,
        jobs: &'a Items<Job>,
        settings: &'a Settings,
        workers: u32,
    ) -> Result<Core<'a, R>, NoMemory>
        requires low { 1 ≤ workers }
        requires high { workers ≤ 64 }
        requires few { length jobs.now ≤ 131072 }
        requires jobs { All (λ job. JobFits job) jobs.now }
        requires settings { SettingsFit settings.now }
        ensures jobs { IfOk result (λ core. core.jobs ≡ jobs.now) }
        ensures settings { IfOk result (λ core. core.settings ≡ settings.now) }
        ensures start { IfOk result (λ core. core.machine ≡ start jobs.now workers) }
    {
        let seats = idle_seats(alloc, workers)?;
        let ends = no_ends(alloc, jobs.as_slice().len())?;
        Ok(Core {
            jobs,
            settings,
            rows: IndexMap::new(alloc),
            next: 0,
            seats,
            ends,
        })
    }

    /// What the worker does next.
    pub fn wants(&self, worker: u32) -> Want
        requires { worker < length self.now.machine.workers }
        ensures wants { want_of result ≡ core_wants self.now worker }
        ensures reached { IsReachedCore self.now }
    {
        match &self.seats[worker as usize] {
            Seat::Idle => Want::Draw,
            Seat::Refused(_, _) => Want::End,
            Seat::Looks(_, unit) => match self.rows.get(unit.asked().as_slice()) {
                Some(Kept::Claimed(_)) => Want::Wait,
                Some(Kept::Done(_)) => Want::Look,
                None => Want::Look,
            },
            Seat::Ends(_, _) => Want::End,
            Seat::Reads(_, _, _) => Want::Read,
            Seat::Holds(_, _, _, _) => Want::Publish,
            Seat::Spent(_) => Want::End,
            Seat::Over => Want::Over,
        }
    }

    /// The path that the worker looks at, reads, publishes or waits for.
    pub fn wanted(&self, worker: u32) -> &PathText
        requires worker { worker < length self.now.machine.workers }
        requires path { HasPath (core_wants self.now worker) }
        ensures { core_wanted self.now worker ≡ Some result.now }
    {
        match &self.seats[worker as usize] {
            Seat::Looks(_, unit) => unit.asked(),
            Seat::Reads(_, unit, _) => unit.asked(),
            Seat::Holds(_, unit, _, _) => unit.asked(),
            _ => unreachable!(),
        }
    }

    /// The worker does what it wants. `Err` is want of memory, which is then its job's end.
    pub fn step(&mut self, alloc: Global, event: Event<R>) -> Result<(), NoMemory>
        requires { IsWanted self.old (event_of R.content event) }

        // The machine makes this step, or this step without memory.
        ensures ok { OnOk result (self.new.machine ≡ act self.old.jobs self.old.settings self.old.machine (event_of R.content event)) }
        ensures err { OnErr result (self.new.machine ≡ spend self.old.jobs self.old.machine (event_of R.content event)) }

        // A Read or an End takes no memory.
        ensures runs { OnErr result (RunsUnit (event_of R.content event)) }

        // Without memory its worker is out of memory in its job.
        ensures spent { OnErr result (IsSpent self.new.machine (worker_in (event_of R.content event))) }

        // There are not many steps.
        ensures left { self.new.left < self.old.left }
        ensures scan { IsSameScan self.old self.new }
        ensures reached { IsReachedCore self.new }
    {
        match event {
            Event::Draw(worker) => self.draw(alloc, worker),
            Event::Look(worker) => self.look(alloc, worker),
            Event::Read(worker, reading) => {
                self.read(worker, reading);
                Ok(())
            }
            Event::Publish(worker) => self.publish(alloc, worker),
            Event::End(worker) => {
                self.end(worker);
                Ok(())
            }
        }
    }

    /// Each job's end, where it is recorded. It takes no memory.
    pub fn finish(self) -> Vec<Option<UnitEnd>>
        ensures ends { result.items ≡ self.entry.machine.ends }
        ensures reached { IsReachedCore self.entry }
    {
        let Core { ends, .. } = self;
        ends
    }

    // Takes the next number, of a job or past the last.
    fn draw(&mut self, alloc: Global, worker: u32) -> Result<(), NoMemory>
        requires { core_wants self.old worker ≡ Draw_wanted }
        ensures steps { Steps self.old self.new (after_step result self.old.jobs self.old.settings self.old.machine (Draw worker)) }
        ensures spent { OnErr result (IsSpent self.new.machine worker) }
    {
        let number = self.next;
        self.next = number + 1;
        let next = first_seat(alloc, self.jobs, self.settings, number);
        take_seat(&mut self.seats, worker, number, next)
    }

    // The path has no row, and is claimed; or its row answers.
    fn look(&mut self, alloc: Global, worker: u32) -> Result<(), NoMemory>
        requires { core_wants self.old worker ≡ Look_wanted }
        ensures steps { Steps self.old self.new (after_step result self.old.jobs self.old.settings self.old.machine (Look worker)) }
        ensures spent { OnErr result (IsSpent self.new.machine worker) }
    {
        let seat = mem::replace(&mut self.seats[worker as usize], Seat::Idle);
        let Seat::Looks(number, unit) = seat else {
            unreachable!()
        };
        match self.rows.get(unit.asked().as_slice()) {
            Some(Kept::Done(reading)) => {
                let answer = reading.answer();
                let next = go_on(alloc, number, unit, answer);
                take_seat(&mut self.seats, worker, number, next)
            }
            Some(Kept::Claimed(_)) => unreachable!(),
            None => {
                let next = claimed(alloc, &mut self.rows, worker, number, unit);
                take_seat(&mut self.seats, worker, number, next)
            }
        }
    }

    // Keeps what was read for the path that the worker claimed. It takes no memory.
    fn read(&mut self, worker: u32, reading: R)
        requires { core_wants self.old worker ≡ Read_wanted }
        ensures { Steps self.old self.new (act self.old.jobs self.old.settings self.old.machine (Read worker (R.content reading))) }
    {
        let seat = mem::replace(&mut self.seats[worker as usize], Seat::Idle);
        let Seat::Reads(number, unit, row) = seat else {
            unreachable!()
        };
        let holds = Seat::Holds(number, unit, row, reading);
        mem::forget(mem::replace(&mut self.seats[worker as usize], holds));
    }

    // The row that the worker claimed is done, and answers.
    fn publish(&mut self, alloc: Global, worker: u32) -> Result<(), NoMemory>
        requires { core_wants self.old worker ≡ Publish_wanted }
        ensures steps { Steps self.old self.new (after_step result self.old.jobs self.old.settings self.old.machine (Publish worker)) }
        ensures spent { OnErr result (IsSpent self.new.machine worker) }
    {
        let seat = mem::replace(&mut self.seats[worker as usize], Seat::Idle);
        let Seat::Holds(number, unit, row, reading) = seat else {
            unreachable!()
        };
        let next = go_on(alloc, number, unit, reading.answer());
        set_done(&mut self.rows, row, reading);
        take_seat(&mut self.seats, worker, number, next)
    }

    // Records the end of the worker's job. It takes no memory.
    fn end(&mut self, worker: u32)
        requires { core_wants self.old worker ≡ End_wanted }
        ensures { Steps self.old self.new (act self.old.jobs self.old.settings self.old.machine (End worker)) }
    {
        let seat = mem::replace(&mut self.seats[worker as usize], Seat::Idle);
        let (number, end) = end_of(seat);
        mem::forget(mem::replace(&mut self.ends[number as usize], Some(end)));
    }
}

// So many places for ends.
fn no_ends(alloc: Global, jobs: usize) -> Result<Vec<Option<UnitEnd>>, NoMemory>
    ensures { IfOk result (λ ends. ends.items ≡ replicate jobs None) }
{
    let mut ends = Vec::with_capacity(alloc, jobs)?;
    let mut number = 0;
    'ends: while number < jobs {
        ends.push_reserved(None);
        number += 1;
    }
    Ok(ends)
}
