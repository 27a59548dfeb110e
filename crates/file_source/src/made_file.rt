ghost use Rattle.std.specs.Prelude.{List, []};
ghost use Rattle.file_source.specs.declared.made_file.MadeFile.{MadeFile};

use scan_model::{Bytes, PathText};
use std::marker::Brand;

/// A file of a tree that a program makes up.
#[derive(Drop)]
pub struct MadeFile {
    pub path: PathText,
    pub text: Bytes,
}

/// A list of made files, which belongs to the type and not to a value of it.
pub trait Listed {
    ghost files: { List MadeFile };
}

/// The proof of each call at `Brand` picks the list.
impl Listed for Brand {
    ghost files = { [] };
}
