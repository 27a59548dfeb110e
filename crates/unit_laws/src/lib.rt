//! The laws of the definitions of whole files and units: each function does nothing, and its contract is the law.
//!
//! A type parameter stands for the text of a file: its bytes, the lines that are kept of them, or any other. A view
//! says which lines that text has.
#![tactic(auto)]

mod chain;
mod growth;
mod known_answers;
mod reduction;
mod skipping;
mod splicing;
mod streams;

pub use chain::{
    a_found_file_has_its_candidates_place, a_next_search_goes_on_behind,
    placed_paths_are_the_candidates,
};
pub use growth::{a_needed_path_was_looked_at_last, an_end_stays, looked_paths_grow};
pub use known_answers::{
    a_known_end_is_the_answer, a_needed_path_comes_next, a_needed_path_leaves_one_to_ask,
    a_unit_ends_as_whole_files_do, asked_paths_are_looked_at,
    further_answers_keep_the_looked_paths,
};
pub use reduction::{
    an_ended_run_keeps_the_core, files_with_the_same_directives_act_alike,
    kept_lines_give_the_answer, lines_with_the_same_directives_act_alike,
    reduced_files_give_the_answer, text_changes_the_run_alone,
};
pub use skipping::skips_tell_what_lines_give;
pub use splicing::{
    a_text_shows_its_bytes_in_order, all_but_the_hidden_bytes_show, shown_bytes_stand_in_the_text,
};
pub use streams::{
    keywords_stand_in_module_lines_alone, tokens_give_what_module_lines_give,
    units_read_by_tokens_alike,
};
