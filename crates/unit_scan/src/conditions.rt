//! The tests of a condition, one after another, and its value.
ghost use Rattle.std.specs.Prelude.{◌≡◌, None, Some, IfOk};
ghost use Rattle.line_actions.specs.Tests.{Finds};
ghost use Rattle.unit_scan.specs.Parts.{setup_of};
ghost use Rattle.unit_scan.specs.Standing.{Conditional, Follows};

use crate::faults::{fault, top};
use crate::jumping::jump;
use crate::obeying::{current_folder, taken_line};
use crate::parts::{Run, Scan};
use crate::searches::candidate_count;
use crate::stage::{Blame, Lookup, Name, Purpose, Stage, Testing};
use if_values::value;
use line_actions::{Test, fault_of, is_nonzero, next_test, search_form};
use plain_lines::choose;
use scan_model::NoMemory;

/// The next test of the condition is looked for, or the condition has its value. `Err` is want of memory.
pub(crate) fn go_on_testing(
    scan: &Scan<'_>,
    run: &mut Run,
    testing: Testing,
) -> Result<Stage, NoMemory>
    requires { Conditional (setup_of scan.now) run.old testing }
    ensures same { run.new.log.items ≡ run.old.log.items }
    ensures next { IfOk result (λ stage. Follows (setup_of scan.now) run.old 3 run.new stage) }
{
    match next_test(scan.alloc, testing.toks.as_slice(), testing.next)? {
        Some(test) => look_up(scan, run, testing, test),
        None => conclude(scan, run, &testing),
    }
}

// The file of a test is looked for.
fn look_up(
    scan: &Scan<'_>,
    run: &mut Run,
    mut testing: Testing,
    test: Test,
) -> Result<Stage, NoMemory>
    requires condition { Conditional (setup_of scan.now) run.old testing }
    requires finds { Finds testing.toks testing.next (Some test) }
    ensures same { run.new.log.items ≡ run.old.log.items }
    ensures next { IfOk result (λ stage. Follows (setup_of scan.now) run.old 3 run.new stage) }
{
    let from = current_folder(scan, run)?;
    let line = taken_line(run);
    let chain_place = top(&run.stack).state.chain_place;
    let form = search_form(test.next, chain_place, test.form);
    run.candidates = candidate_count(scan, form, test.name.as_slice());
    run.tests -= 1;
    testing.next = test.past;
    let name = Name {
        form,
        from,
        text: test.name,
        next: 0,
        line,
    };
    Ok(Stage::Seeks(Lookup::Named(name, Purpose::Tested(testing))))
}

// All tests have their answers. The lines of a group that isn't taken are passed over.
fn conclude(scan: &Scan<'_>, run: &mut Run, testing: &Testing) -> Result<Stage, NoMemory>
    requires condition { Conditional (setup_of scan.now) run.old testing.now }
    requires over { Finds testing.now.toks testing.now.next None }
    ensures same { run.new.log.items ≡ run.old.log.items }
    ensures next { IfOk result (λ stage. Follows (setup_of scan.now) run.old 3 run.new stage) }
{
    let line = taken_line(run);
    match value(testing.toks.as_slice(), &testing.so_far) {
        Ok(value) => {
            let live = is_nonzero(value);
            let Some(mut file) = run.stack.pop() else {
                unreachable!()
            };
            choose(&mut file.state.groups, line, testing.is_elif, live)?;
            run.stack.push(file)?;
            if live {
                Ok(Stage::Runs)
            } else {
                jump(scan, run)
            }
        }
        Err(cause) => {
            let end = fault(scan, run, fault_of(cause), Blame::Here(line))?;
            Ok(Stage::Over(end))
        }
    }
}
