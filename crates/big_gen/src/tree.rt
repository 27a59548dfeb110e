ghost use Rattle.std.specs.Prelude.{◌≡◌, ◌≤◌, IfOk};
ghost use Rattle.big_gen.specs.MadeTexts.{made_files, made_database};

use crate::database::database;
use crate::files::made_files;
use file_source::MadeFile;
use scan_model::{Bytes, Items, NoMemory};
use std::alloc::Global;

/// The files of a made tree, and the text of its compilation database.
#[derive(Drop)]
pub struct MadeTree {
    /// 64 headers, and then the units, all in the folder `/m`.
    pub files: Items<MadeFile>,
    pub database: Bytes,
}

/// The tree of `n` units, 1 to 4,096. The header of the number J includes that of J / 2, rounded down, and the unit of
/// the number k is a module that includes a header and imports the module of k / 2.
pub fn make(alloc: Global, n: u32) -> Result<MadeTree, NoMemory>
    requires units { (1 ≤ n) × (n ≤ 4096) }
    ensures files { IfOk result (λ tree. tree.files ≡ made_files n) }
    ensures database { IfOk result (λ tree. tree.database ≡ made_database n) }
{
    Ok(MadeTree {
        files: made_files(alloc, n)?,
        database: database(alloc, n)?,
    })
}
