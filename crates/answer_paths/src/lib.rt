//! Where a file map gives an end, it has each path that was looked at: each function does nothing, and its contract is
//! the law.
//!
//! A type parameter stands for the text of a file: its bytes, the lines that are kept of them, or any other. A view
//! says which lines that text has.
#![tactic(auto)]

ghost use Rattle.scan_model.specs.WholeFile.{View};
ghost use Rattle.answer_paths.specs.LookedPaths.{EndHasPaths, EndHasTexts, EndIsOfTexts};

/// Where a file map gives an end, it has each path that was looked at for it.
pub fn an_end_has_its_paths<T>()
    ensures { (view : View T) → EndHasPaths T view }
{}

/// Where that end isn't want of memory, memory was wanting for none of these paths.
pub fn an_end_with_memory_has_its_texts<T>()
    ensures { (view : View T) → EndHasTexts T view }
{}

/// Such an end, with its paths, is that of each map that has all that the first one has, but where memory was wanting for
/// that.
pub fn an_end_with_memory_is_that_of_the_texts<T>()
    ensures { (view : View T) → EndIsOfTexts T view }
{}
