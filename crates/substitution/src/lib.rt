//! A macro's replacement list with its arguments put in ([cpp.subst], [cpp.stringize], [cpp.concat]).
#![tactic(auto)]

mod alone;
mod call;
mod copies;
mod fronts;
mod index;
mod indexed_def;
mod item;
mod joins;
mod lists;
mod marked;
mod names;
mod optional;
mod params;
mod parens;
mod parts;
mod strings;
mod substitute;
mod written;

pub use copies::copy_marked;
pub use indexed_def::IndexedDef;
pub use marked::{Arg, Marked};
pub use substitute::{substitute_function, substitute_object};

#[cfg(test)]
mod tests;
