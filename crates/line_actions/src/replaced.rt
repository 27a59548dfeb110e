ghost use Rattle.std.specs.Prelude.{◌≡◌, ◌<◌, ◌^◌, IfOk};
ghost use Rattle.macro_table.specs.Table.{macros_of};
ghost use Rattle.scan_model.specs.Expansion as definition;
ghost use Rattle.plain_lines.specs.States.{site_of};
ghost use Rattle.line_actions.specs.Replaced.{outcome};

use crate::sites::own_site;
use expansion::expand;
use macro_table::Macros;
use scan_model::{Expanded, FaultKind, Items, Mode, NoMemory, Site, Tok};
use std::alloc::Global;

/// The tokens with every macro replaced ([cpp.replace]), at the site of the file of this path, or the fault of that. `Err` is
/// want of memory; the site is the same then too.
pub(crate) fn replaced(
    alloc: Global,
    path: &[u8],
    site: &mut Option<Site>,
    macros: &Macros,
    mode: Mode,
    toks: &[Tok],
) -> Result<Result<Items<Tok>, FaultKind>, NoMemory>
    requires { definition.first_counter mode < 2 ^ 63 }
    ensures value { IfOk result (λ given. given ≡ outcome (definition.expand (macros_of macros.now).defs (site_of path.now site.old) mode toks.now)) }
    ensures site { site_of path.now site.new ≡ site_of path.now site.old }
{
    own_site(alloc, path, site)?;
    match site {
        Some(site) => Ok(outcome(expand(alloc, macros, site, mode, toks)?)),
        None => unreachable!(),
    }
}

fn outcome(expanded: Expanded) -> Result<Items<Tok>, FaultKind>
    ensures { result ≡ outcome expanded }
{
    match expanded {
        Expanded::Done(toks, _) => Ok(toks),
        Expanded::Bad => Err(FaultKind::ExpansionFault),
        Expanded::TooLong => Err(FaultKind::ExpansionTooLong),
        Expanded::Counter => Err(FaultKind::CounterUsed),
    }
}
