//! What a unit is made of, beside what it does next.
use line_actions::{FileState, UnitState};
use reducer::Answer;
use scan_model::{Command, PathText, Settings};
use std::alloc::Global;

/// What a unit scans, and the memory that its work takes.
#[derive(Clone, Copy)]
pub(crate) struct Scan<'a> {
    pub alloc: Global,
    pub command: &'a Command,
    pub settings: &'a Settings,
}

/// A path that was looked at, and its answer.
#[derive(Drop)]
pub(crate) struct Answered {
    pub path: PathText,
    pub answer: Answer,
}

/// A file on the stack: the place of its answer in the log, the number of its next kept line, and what it has of its own.
#[derive(Drop)]
pub(crate) struct OpenFile {
    pub answer: usize,
    pub next: u32,
    pub state: FileState,
}

/// What isn't begun yet: the settings, or the forced files, from this number on, from 0.
#[derive(Clone, Copy)]
pub(crate) enum Left {
    Settings(usize),
    Forced(usize),
    Nothing,
}

#[derive(Drop)]
pub(crate) struct Run {
    /// Every answer so far, with its path. The files on the stack are named by their places in it.
    pub log: Vec<Answered>,
    /// The file that is gone through is last.
    pub stack: Vec<OpenFile>,
    pub left: Left,
    pub state: UnitState,
    /// How many files were entered.
    pub entered: u32,
    /// How many `__has_include`s and `__has_include_next`s are left on the present line.
    pub tests: usize,
    /// How many candidates are left in the present search.
    pub candidates: usize,
}
