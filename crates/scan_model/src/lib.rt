//! The plain data of the scanner, and the definitions that every contract speaks of.
//!
//! The types here hold what the other crates hand to one another. `specs/` says what the language's phases 1 to 4
//! and its module lines mean, over plain lists and numbers; no code is a definition, and no definition is code.
#![tactic(auto)]

mod bytes;
mod command;
mod condition;
mod directive;
mod expansion;
mod items;
mod limits;
mod macros;
mod memory;
mod module_line;
mod outcome;
mod path_text;
mod skip;
mod text;
mod token;
mod token_tests;
mod unit_end;

pub use bytes::Bytes;
pub use command::{Command, CommandFault, Dialect, Form, Job, SearchList, Setting, Settings};
pub use condition::{CondFault, CondValue, HasAt, HasNext};
pub use directive::Directive;
pub use expansion::{Expanded, Mode, Site};
pub use items::Items;
pub use limits::FILE_LIMIT;
pub use macros::{BuiltIn, Def, FunctionDef};
pub use memory::NoMemory;
pub use module_line::{Keyword, ModuleFault};
pub use outcome::Outcome;
pub use path_text::PathText;
pub use skip::Skip;
pub use text::Text;
pub use token::{Kind, Line, Tok};
pub use token_tests::has_opt;
pub use unit_end::{Fault, FaultKind, Place, Provided, Record, UnitEnd};

#[cfg(test)]
mod tests;
