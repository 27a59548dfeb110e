ghost use Rattle.std.specs.Prelude.{◌≡◌, IfOk, false};
ghost use Rattle.clap.specs.Words.{app_of, rule_of};
ghost use Rattle.program_words.specs.Options.{IsRule, app, database_rule, format_rule, workers_rule, predefines_rule, folders_rule, schedule_rule, made_rule};

use clap::{Arg, Command};
use std::alloc::{AllocError, Global};

fn database_option<'a>(alloc: Global) -> Arg<'a>
    ensures { IsRule database_rule result }
{
    Arg::new(alloc, "compilation-database").long("compilation-database")
}

fn format_option<'a>(alloc: Global) -> Arg<'a>
    ensures { IsRule format_rule result }
{
    Arg::new(alloc, "format")
        .long("format")
        .default_value("p1689")
}

fn workers_option<'a>(alloc: Global) -> Arg<'a>
    ensures { IsRule workers_rule result }
{
    Arg::new(alloc, "j")
        .short('j')
        .default_value("4")
        .value_parser(clap::value_parser!(u32).range(1..=64))
}

fn predefines_option<'a>(alloc: Global) -> Arg<'a>
    ensures { IsRule predefines_rule result }
{
    Arg::new(alloc, "predefines").long("predefines")
}

fn folders_option<'a>(alloc: Global) -> Arg<'a>
    ensures { IsRule folders_rule result }
{
    Arg::new(alloc, "system-dirs").long("system-dirs")
}

fn schedule_option<'a>(alloc: Global) -> Arg<'a>
    ensures { IsRule schedule_rule result }
{
    Arg::new(alloc, "schedule")
        .long("schedule")
        .value_parser(clap::value_parser!(u32).range(0..=2147483647))
}

fn made_option<'a>(alloc: Global) -> Arg<'a>
    ensures { IsRule made_rule result }
{
    Arg::new(alloc, "made")
        .long("made")
        .value_parser(clap::value_parser!(u32).range(1..=4096))
}

/// The program's options, for `clap`. It has no help flag, no version flag and no positional.
pub(crate) fn command<'a>(alloc: Global) -> Result<Command<'a>, AllocError>
    ensures { IfOk result (λ command. app_of command ≡ app) }
{
    Command::new(alloc, "scan_deps")
        .disable_help_flag(true)
        .arg(database_option(alloc))?
        .arg(format_option(alloc))?
        .arg(workers_option(alloc))?
        .arg(predefines_option(alloc))?
        .arg(folders_option(alloc))?
        .arg(schedule_option(alloc))?
        .arg(made_option(alloc))
}
