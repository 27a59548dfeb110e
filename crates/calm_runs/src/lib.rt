//! Runs of bytes that hold whole tokens ([lex.pptoken]): they are passed at once.
#![tactic(auto)]

mod calm;
mod run;

pub use run::pass_run;
