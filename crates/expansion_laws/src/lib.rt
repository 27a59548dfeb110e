//! The laws of the definition of macro replacement ([cpp.rescan]): each function does nothing, and its contract is the law.
#![tactic(auto)]

mod turns;

pub use turns::{
    expansion_ends_with_nothing, expansion_is_that_of_the_list, expansion_takes_the_first,
    further_turns_change_nothing, no_expansion_lacks_turns,
};
