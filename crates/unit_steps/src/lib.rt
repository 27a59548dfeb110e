//! What a unit that runs kept lines one answer at a time stands for, and the laws of its steps: each function does
//! nothing, and its contract is the law.
//!
//! A moment of such a unit is its stack, what isn't begun, what it looks for, and what directives see. It stands for the
//! rest of the whole unit, over every map of kept lines that agrees with the answers that the unit was given.
#![tactic(auto)]

mod standing;
mod whole_files;
mod work;

pub use standing::{
    a_file_ends, a_file_is_entered, a_found_file_has_the_place_of_its_candidate,
    a_jump_keeps_what_is_left, a_line_leaves_what_follows, a_setting_is_a_directive,
    a_stop_is_the_end, a_unit_begins_with_no_answer, an_answer_goes_on, the_record_is_the_end,
};
pub use whole_files::{
    a_sought_path_is_needed, an_end_is_that_of_whole_files, the_path_that_waits_is_looked_at_next,
};
pub use work::{a_jump_goes_forward, folders_have_numbers, less_is_left};
