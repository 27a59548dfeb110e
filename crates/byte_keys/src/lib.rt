//! Laws over maps whose keys are bytes: what a put changes, and what a list of the entries tells. Each function does
//! nothing, and its contract is the law.
#![tactic(auto)]

mod maps;

pub use maps::{entries_find_alike, put_changes_one};
