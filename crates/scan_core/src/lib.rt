//! A core of workers that scan jobs over one list of rows, one event after another, as its caller has it. At each moment
//! it is a state of the cache machine that some moves lead to.
#![tactic(auto)]

mod event;
mod job_core;
mod reading;
mod rows;
mod running;
mod seat;

pub use event::{Event, Want};
pub use job_core::Core;
pub use reading::Reading;
