use file_source::Source;
use reducer::Reduced;
use scan_model::PathText;
use std::alloc::Global;
use std::sync::Arc;

/// A path that was asked for, what its read gave, and the lines that are kept of it.
///
/// The row stands for its read's outcome and bytes, or for want of memory where the file was read and `reduced` is None.
pub struct KeptRow<S: Source> {
    pub path: PathText,
    pub given: S::Given,
    /// The lines that are kept of the bytes, where the file was read and memory was there for them.
    pub reduced: Option<Arc<Reduced, Global>>,
}

impl<S: Source> Drop for KeptRow<S> {
    fn drop(self) {
        let KeptRow {
            path: _,
            given: _,
            reduced: _,
        } = self;
    }
}
