use crate::reading::Reading;

/// One step of a worker, which is named by its number.
#[derive(Drop)]
pub enum Event<R: Reading> {
    /// An idle worker takes the next job.
    Draw(u32),
    /// Its unit looks at a path: it is claimed, or its row answers.
    Look(u32),
    /// The path that it claimed was read, with this.
    Read(u32, R),
    /// The row of that path is done, and answers.
    Publish(u32),
    /// The end of its job is recorded.
    End(u32),
}

/// What a worker does next.
#[derive(Clone, Copy)]
pub enum Want {
    Draw,
    Look,
    Read,
    Publish,
    End,
    /// Another worker claimed the path that it looks at.
    Wait,
    /// There is no further job.
    Over,
}
