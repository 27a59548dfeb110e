//! What a kept line of a file may do to a unit, the state that it reads and changes, and the directives whose tokens aren't
//! replaced ([cpp]).
#![tactic(auto)]

mod action;
mod conditionals;
mod definitions;
mod first_state;
mod groups;
mod kept_line;
mod pragmas;
mod state;
mod token_tests;

pub use action::{Action, Condition};
pub use conditionals::{
    NextGroup, elifdef_line, else_line, endif_line, ifdef_line, next_group, pass_group,
    skipped_if_line,
};
pub use definitions::{define_line, undef_line};
pub use groups::{choose, innermost, is_skipped};
pub use kept_line::KeptLine;
pub use pragmas::pragma_line;
pub use state::{FileState, OpenGroup, UnitState};
pub use token_tests::{is_hash, is_header, is_ident, unquoted};
