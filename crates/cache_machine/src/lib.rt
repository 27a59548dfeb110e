//! The cache machine: workers that scan jobs over one list of rows, step by step, in any order; and the laws of its
//! runs. Each function does nothing, and its contract is the law.
#![tactic(auto)]

mod growth;
mod moments;

pub use growth::{known_answers_stay, looked_paths_stay, rows_only_grow};
pub use moments::{
    a_claimed_path_has_its_worker, a_job_that_looked_at_all_has_its_answer,
    a_needed_path_is_to_come, answered_looks_are_done, each_drawn_job_is_at_one_worker_or_ended,
    over_workers_drew_past_the_last, recorded_ends_are_answers, row_paths_differ,
    when_all_are_over_each_job_has_its_end,
};
