//! A search goes on to its next candidate.
ghost use Rattle.std.specs.Prelude.{◌≡◌, ◌-◌, ◌<◌, ◌^◌, ℕ, List, length, IfOk, OnOk, None, slice_get, vec_len, vec_capacity};
ghost use Rattle.scan_model.specs.Paths.{is_absolute};
ghost use Rattle.scan_model.specs.Candidates.{candidates};
ghost use Rattle.scan_model.specs.Fits.{CommandFits, SettingsFit};
ghost use Rattle.unit_scan.specs.declared.stage.Testing.{Testing};
ghost use Rattle.unit_scan.specs.Parts.{setup_of};
ghost use Rattle.scan_model.specs.Search.{searched};
ghost use Rattle.unit_scan.specs.Lookups.{IsFirst, first_path, named};
ghost use Rattle.unit_scan.specs.Standing.{Seeking, Follows, IsAnswered};

use crate::faults::fault;
use crate::parts::{Run, Scan};
use crate::stage::{Blame, FirstFile, Lookup, Name, Purpose, Stage, Testing};
use path_search::candidate;
use scan_model::{FaultKind, Form, NoMemory, PathText};

fn is_absolute(name: &[u8]) -> bool
    ensures { result ≡ is_absolute name.now }
{
    match name {
        [] => false,
        [first, ..] => *first == b'/',
    }
}

/// How many candidates a name has, whatever folder it is looked for from.
pub(crate) fn candidate_count(scan: &Scan<'_>, form: Form, name: &[u8]) -> usize
    requires command { CommandFits scan.now.command.now }
    requires settings { SettingsFit scan.now.settings.now }
    ensures count { (from : List ℕ) → result ≡ length (candidates scan.now.command.now.search scan.now.settings.now.program form from name.now) }
    ensures small { result < 2 ^ 64 }
{
    if is_absolute(name) {
        return 1;
    }
    let list = &scan.command.search;
    let quote = list.quote.as_slice().len();
    let program = scan.settings.program.as_slice().len();
    let before = list.angled.as_slice().len() + list.system.as_slice().len();
    let angled = before + program + list.after.as_slice().len();
    match form {
        Form::Quoted => quote + angled + 1,
        Form::Angled => angled,
        Form::Next(n) => (quote + angled).saturating_sub(n as usize),
    }
}

// The path of a first file. `Err` is want of memory.
fn first_path(scan: &Scan<'_>, first: FirstFile) -> Result<PathText, NoMemory>
    requires { IsFirst (setup_of scan.now) first }
    ensures { IfOk result (λ path. path ≡ first_path (setup_of scan.now) first) }
{
    match first {
        FirstFile::Predefines => match &scan.settings.predefines {
            Some(path) => path.copy(scan.alloc),
            None => unreachable!(),
        },
        FirstFile::Main => scan.command.main.copy(scan.alloc),
    }
}

// The path waits, with room for its answer. `Err` is want of memory.
fn ask(run: &mut Run, lookup: Lookup, path: PathText) -> Result<Stage, NoMemory>
    requires { 0 < run.old.candidates }
    ensures same { run.new.log.items ≡ run.old.log.items }
    ensures asks { IfOk result (λ stage. stage ≡ Stage.Asks lookup path) }
    ensures after { OnOk result (run.new ≡ record run.old { log = run.new.log; candidates = run.old.candidates - 1 }) }
    ensures room { OnOk result (vec_len run.new.log < vec_capacity run.new.log) }
{
    run.log.reserve(1)?;
    run.candidates -= 1;
    Ok(Stage::Asks(lookup, path))
}

/// A test of a condition has its answer.
pub(crate) fn with_answer(mut testing: Testing, there: bool) -> Result<Stage, NoMemory>
    ensures { IfOk result (λ stage. (t : Testing) × ((stage ≡ Stage.Tests t) × IsAnswered testing there t)) }
{
    testing.so_far.push(there)?;
    Ok(Stage::Tests(testing))
}

// All candidates are absent. `Err` is want of memory.
fn none_left(
    scan: &Scan<'_>,
    run: &mut Run,
    name: Name,
    purpose: Purpose,
) -> Result<Stage, NoMemory>
    requires seeking { Seeking (setup_of scan.now) run.old (Lookup.Named name purpose) }
    requires none { slice_get (searched (setup_of scan.now) (named name) name.from) name.next ≡ None }
    ensures same { run.new.log.items ≡ run.old.log.items }
    ensures next { IfOk result (λ stage. Follows (setup_of scan.now) run.old 4 run.new stage) }
{
    match purpose {
        Purpose::Included => {
            let end = fault(
                scan,
                run,
                FaultKind::IncludeNotFound,
                Blame::Here(name.line),
            )?;
            Ok(Stage::Over(end))
        }
        Purpose::Tested(testing) => with_answer(testing, false),
    }
}

/// The next candidate is asked, or all are absent. `Err` is want of memory.
pub(crate) fn seek(scan: &Scan<'_>, run: &mut Run, lookup: Lookup) -> Result<Stage, NoMemory>
    requires { Seeking (setup_of scan.now) run.old lookup }
    ensures same { run.new.log.items ≡ run.old.log.items }
    ensures next { IfOk result (λ stage. Follows (setup_of scan.now) run.old 4 run.new stage) }
{
    match lookup {
        Lookup::First(first) => {
            let path = first_path(scan, first)?;
            ask(run, Lookup::First(first), path)
        }
        Lookup::Named(name, purpose) => seek_named(scan, run, name, purpose),
    }
}

fn seek_named(
    scan: &Scan<'_>,
    run: &mut Run,
    name: Name,
    purpose: Purpose,
) -> Result<Stage, NoMemory>
    requires { Seeking (setup_of scan.now) run.old (Lookup.Named name purpose) }
    ensures same { run.new.log.items ≡ run.old.log.items }
    ensures next { IfOk result (λ stage. Follows (setup_of scan.now) run.old 4 run.new stage) }
{
    let list = &scan.command.search;
    let program = &scan.settings.program;
    let text = name.text.as_slice();
    let found = candidate(
        scan.alloc, list, program, name.form, &name.from, text, name.next,
    )?;
    match found {
        Some(path) => ask(run, Lookup::Named(name, purpose), path),
        None => none_left(scan, run, name, purpose),
    }
}
