//! The value of the condition of `#if` and `#elif`, over tokens that are already replaced ([cpp.cond]).
//!
//! `next_has` finds the names that `__has_include` and `__has_include_next` ask for; `value` climbs the precedences over
//! the tokens, with no tree and no memory of its own.
#![tactic(auto)]

mod arithmetic;
mod characters;
mod climb;
mod condition;
mod digits;
mod escapes;
mod faults;
mod header_name;
mod integer;
mod known_tokens;
mod leaves;
mod marks;
mod operand;
mod operators;
mod token_tests;

pub use condition::value;
pub use digits::number;
pub use header_name::next_has;
pub use scan_model::{CondFault, CondValue, HasAt, HasNext};

#[cfg(test)]
mod tests;
