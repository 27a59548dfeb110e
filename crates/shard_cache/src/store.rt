ghost use Rattle.std.specs.Prelude.{◌≡◌, ◌<◌, [], Some, All, Contains, OnOk, OnErr, IfOk, IfErr, MatchOption, map, length, slice_get, vec_len};
ghost use Rattle.shard_cache.specs.Rows.{shard_number, change_at, asked_also, kept_also, rows_at, all_rows, all_asked, all_origins, LacksPath, HasOwnLines, IsRow, IsStore};

use crate::KeptRow;
use crate::shard::Shard;
use file_source::Source;
use scan_model::{NoMemory, PathText};
use std::alloc::Global;
use std::marker::Model;

/// The number of shards.
const SHARDS: usize = 16;

/// What was read, as the rows of 16 shards, each over a source of its own.
///
/// A path's rows stand in the shard whose number is the sum of its bytes modulo 16, and no two rows have the same path.
#[derive(Drop)]
pub struct Store<S: Source> {
    shards: Vec<Shard<S>>,
}

impl<S: Source> Model for Store<S> {
    ghost use Rattle.std.specs.Prelude.{List};
    ghost use Rattle.shard_cache.specs.Rows.{ShardView, IsRow, IsStore};

    ghost Value = { List (ShardView S S.Opener S.Given) };

    ghost view = { λ s. s.shards.items };

    ghost invariant = { λ s. IsStore (IsRow S.given_path S.given_outcome S.given_bytes) s.shards.items };
}

/// The number of the shard in which a path's row stands.
pub fn shard_of(path: &[u8]) -> usize
    ensures number { result ≡ shard_number path.now }
    ensures bound { result < 16 }
{
    let mut number = 0usize;
    for byte in path {
        number = (number + *byte as usize) % SHARDS;
    }
    number
}

impl<S: Source> Store<S> {
    /// A store over these sources, in order. `Err` is want of memory and hands them back.
    pub fn new(alloc: Global, sources: Vec<S>) -> Result<Store<S>, Vec<S>>
        requires sixteen { vec_len sources ≡ 16 }
        requires fresh { All (λ source. S.asked source ≡ []) sources.items }
        ensures no_row { IfOk result (λ store. all_rows store ≡ []) }
        ensures nothing_asked { IfOk result (λ store. all_asked store ≡ []) }
        ensures origins { IfOk result (λ store. all_origins store ≡ map S.origin sources.items) }
        ensures valid { IfOk result (λ store. IsStore (IsRow S.given_path S.given_outcome S.given_bytes) store) }
        ensures err { IfErr result (λ back. back.items ≡ sources.items) }
    {
        let Ok(mut shards) = Vec::with_capacity(alloc, SHARDS) else {
            return Err(sources);
        };
        let mut left = sources;
        left.reverse();
        while let Some(source) = left.pop() {
            shards.push(Shard::new(alloc, source)).unwrap();
        }
        left.destroy_empty();
        Ok(Store { shards })
    }

    /// The shards, in order.
    pub fn into_shards(self) -> Vec<Shard<S>>
        ensures shards { result.items ≡ self }
        ensures valid { IsStore (IsRow S.given_path S.given_outcome S.given_bytes) self }
    {
        self.shards
    }

    /// The store of these shards. It takes no memory.
    pub fn of_shards(shards: Vec<Shard<S>>) -> Store<S>
        requires { IsStore (IsRow S.given_path S.given_outcome S.given_bytes) shards.items }
        ensures { result ≡ shards.items }
    {
        Store { shards }
    }

    /// Asks the path of its shard's source. `Err` changes nothing.
    pub fn ask(&mut self, alloc: Global, path: &PathText) -> Result<S::Opener, NoMemory>
        requires { LacksPath self.old path.now }
        ensures ok { OnOk result (self.new ≡ change_at (asked_also path.now) (shard_number path.now) self.old) }
        ensures opener { IfOk result (λ opener. S.opener_path opener ≡ path.now) }
        ensures opened_here { IfOk result (λ opener. slice_get (all_origins self.old) (shard_number path.now) ≡ Some (S.opener_origin opener)) }
        ensures err { OnErr result (self.new ≡ self.old) }
        ensures valid { IsStore (IsRow S.given_path S.given_outcome S.given_bytes) self.new }
    {
        let number = shard_of(path.as_slice());
        let shard = &mut self.shards[number];
        shard.ask(alloc, path)
    }

    /// Adds the row at the end of its path's shard. `Err` is want of memory: it hands the row back and changes nothing.
    pub fn add(&mut self, row: KeptRow<S>) -> Result<(), KeptRow<S>>
        requires fresh { LacksPath self.old row.path }
        requires given { S.given_path row.given ≡ row.path }
        requires reduced { HasOwnLines S.given_outcome S.given_bytes row }
        ensures ok { OnOk result (self.new ≡ change_at (kept_also row) (shard_number row.path) self.old) }
        ensures err { IfErr result (λ back. (back ≡ row) × (self.new ≡ self.old)) }
        ensures valid { IsStore (IsRow S.given_path S.given_outcome S.given_bytes) self.new }
    {
        let number = shard_of(row.path.as_slice());
        let shard = &mut self.shards[number];
        shard.add(row)
    }

    /// The number of rows of a shard, from 0.
    pub fn len(&self, shard: u32) -> u64
        requires { shard < 16 }
        ensures rows { result ≡ length (rows_at self.now shard) }
        ensures valid { IsStore (IsRow S.given_path S.given_outcome S.given_bytes) self.now }
    {
        self.shards[shard as usize].len()
    }

    /// The row of this number, from 0, of a shard, from 0, in the order in which they were added.
    pub fn row(&self, shard: u32, k: u64) -> &KeptRow<S>
        requires shard { shard < 16 }
        requires row { k < length (rows_at self.now shard) }
        ensures row { slice_get (rows_at self.now shard) k ≡ Some result.now }
        ensures valid { IsStore (IsRow S.given_path S.given_outcome S.given_bytes) self.now }
    {
        self.shards[shard as usize].row(k)
    }

    /// The row of this path; None exactly where no row has it. It takes no memory.
    pub fn find(&self, path: &PathText) -> Option<&KeptRow<S>>
        ensures row { MatchOption result (LacksPath self.now path.now) (λ row. (row.now.path ≡ path.now) × Contains (all_rows self.now) row.now) }
        ensures valid { IsStore (IsRow S.given_path S.given_outcome S.given_bytes) self.now }
    {
        self.shards[shard_of(path.as_slice())].find(path)
    }

    /// The number of all rows.
    pub fn paths(&self) -> u64
        ensures rows { result ≡ length (all_rows self.now) }
        ensures valid { IsStore (IsRow S.given_path S.given_outcome S.given_bytes) self.now }
    {
        let mut total = 0u64;
        for shard in &self.shards {
            total += shard.len();
        }
        total
    }
}
