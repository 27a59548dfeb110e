//! The steps of workers on a cache: a look at a path, the publication of what its read gave, and a rest.
ghost use Rattle.std.specs.Prelude.{◌≡◌, ◌<◌, [], slice_index_or};
ghost use Rattle.shard_cache.specs.Rows.{shard_number};
ghost use Rattle.cache_desk.specs.Log.{standing, Claimed};
ghost use Rattle.cache_desk.specs.Desk.{fixed_of, row_published, AnswersRow};
ghost use Rattle.std.specs.declared.result.Result.{Result};
ghost use Rattle.scan_model.specs.declared.memory.NoMemory as want;
ghost use Rattle.cache_desk.specs.declared.desk.Found.{Found};
ghost use Rattle.shared_cache.specs.Cache.{SeesLook, SeesEntry};
ghost use Rattle.shared_cache.specs.Shown.{IsShown};
ghost use Rattle.shared_cache.specs.Shared.{second, ArePasses, locks_fixed, all_seen, seen_of, SameElsewhere};

use crate::looked::{Looked, Mark};
use crate::shard_lock::{look_in, publish_in};
use crate::{Cache, Claim, Passes, Ready};
use cache_desk::Found;
use file_source::Source;
use reducer::Answer;
use scan_model::{NoMemory, PathText};
use shard_cache::shard_of;
use std::alloc::Global;
use std::sync::Wait;

impl<S: Source> Cache<S> {
    // One hold of the path's shard.
    fn look_once<Q: Wait>(
        &self,
        rt: &Q,
        alloc: Global,
        passes: &mut Passes<S>,
        path: &PathText,
    ) -> Result<Found<S>, NoMemory>
        requires own { ArePasses self.now.locks.items passes.old.passes.items passes.old.number }
        ensures own { ArePasses self.now.locks.items passes.new.passes.items passes.old.number × (passes.new.number ≡ passes.old.number) }
        ensures elsewhere { SameElsewhere path.now (all_seen passes.old.passes.items) (all_seen passes.new.passes.items) }
        ensures looks { SeesLook S.opener_path S.opener_origin path.now passes.old.number (slice_index_or (locks_fixed fixed_of self.now.locks.items) (shard_number path.now) []) (seen_of (all_seen passes.old.passes.items) path.now) result (seen_of (all_seen passes.new.passes.items) path.now) }
    {
        let number = shard_of(path.as_slice());
        let lock = &self.locks[number];
        let pass = &mut passes.passes[number];
        look_in(lock, rt, alloc, pass, path)
    }

    /// Publishes what a claim's read gave: one hold of the path's shard. Those that rest on a path of the shard look again.
    /// What it gives is what a unit is told of the row. It takes no memory.
    pub fn publish<Q: Wait>(&self, rt: &Q, passes: &mut Passes<S>, ready: Ready<S>) -> Answer
        requires own { ArePasses self.now.locks.items passes.old.passes.items passes.old.number }
        requires claim { standing (seen_of (all_seen passes.old.passes.items) ready.row.path) ready.row.path ≡ Claimed passes.old.number }
        requires here { second (slice_index_or (locks_fixed fixed_of self.now.locks.items) (shard_number ready.row.path) []) ≡ S.given_origin ready.row.given }
        ensures own { ArePasses self.now.locks.items passes.new.passes.items passes.old.number × (passes.new.number ≡ passes.old.number) }
        ensures elsewhere { SameElsewhere ready.row.path (all_seen passes.old.passes.items) (all_seen passes.new.passes.items) }
        ensures publishes { SeesEntry passes.old.number (seen_of (all_seen passes.old.passes.items) ready.row.path) (row_published S.given_outcome S.given_bytes ready.row passes.old.number) (seen_of (all_seen passes.new.passes.items) ready.row.path) }
        ensures answer { AnswersRow S.given_outcome S.given_bytes result ready.row }
    {
        let Ready { row, answer } = ready;
        let shard = shard_of(row.path.as_slice());
        let lock = &self.locks[shard];
        let pass = &mut passes.passes[shard];
        publish_in(lock, rt, pass, row);
        self.ring(rt, shard);
        answer
    }

    /// Looks at a path. It holds the path's shard once, and once more where others have claimed the path.
    ///
    /// Done: the row is done, and this is what a unit is told of it. Mine: nobody had the path; it is claimed for these
    /// passes now. Busy: others have claimed it. `Err` is want of memory, which changes nothing but what these passes
    /// have seen.
    pub fn look<Q: Wait>(
        &self,
        rt: &Q,
        alloc: Global,
        passes: &mut Passes<S>,
        path: &PathText,
    ) -> Result<Looked<S>, NoMemory>
        requires own { ArePasses self.now.locks.items passes.old.passes.items passes.old.number }
        ensures own { ArePasses self.now.locks.items passes.new.passes.items passes.old.number × (passes.new.number ≡ passes.old.number) }
        ensures elsewhere { SameElsewhere path.now (all_seen passes.old.passes.items) (all_seen passes.new.passes.items) }
        ensures looks { (found : Result (Found S S.Opener S.Given) want.NoMemory) × IsShown found result × SeesLook S.opener_path S.opener_origin path.now passes.old.number (slice_index_or (locks_fixed fixed_of self.now.locks.items) (shard_number path.now) []) (seen_of (all_seen passes.old.passes.items) path.now) found (seen_of (all_seen passes.new.passes.items) path.now) }
    {
        match self.look_once(rt, alloc, passes, path)? {
            Found::Done(answer) => Ok(Looked::Done(answer)),
            Found::Mine(own, opener) => Ok(Looked::Mine(Claim::new(own, opener))),
            Found::Busy => self.look_again(rt, alloc, passes, path),
        }
    }

    // A look whose mark is from before its hold, so that a publication after the hold rings later than the mark.
    fn look_again<Q: Wait>(
        &self,
        rt: &Q,
        alloc: Global,
        passes: &mut Passes<S>,
        path: &PathText,
    ) -> Result<Looked<S>, NoMemory>
        requires own { ArePasses self.now.locks.items passes.old.passes.items passes.old.number }
        ensures own { ArePasses self.now.locks.items passes.new.passes.items passes.old.number × (passes.new.number ≡ passes.old.number) }
        ensures elsewhere { SameElsewhere path.now (all_seen passes.old.passes.items) (all_seen passes.new.passes.items) }
        ensures looks { (found : Result (Found S S.Opener S.Given) want.NoMemory) × IsShown found result × SeesLook S.opener_path S.opener_origin path.now passes.old.number (slice_index_or (locks_fixed fixed_of self.now.locks.items) (shard_number path.now) []) (seen_of (all_seen passes.old.passes.items) path.now) found (seen_of (all_seen passes.new.passes.items) path.now) }
    {
        let mark = self.mark(rt, path);
        match self.look_once(rt, alloc, passes, path)? {
            Found::Done(answer) => Ok(Looked::Done(answer)),
            Found::Mine(own, opener) => Ok(Looked::Mine(Claim::new(own, opener))),
            Found::Busy => Ok(Looked::Busy(mark)),
        }
    }

    // The count of the path's bell.
    fn mark<Q: Wait>(&self, rt: &Q, path: &PathText) -> Mark {
        let shard = shard_of(path.as_slice());
        let count = *self.bells[shard].count.lock(rt);
        Mark { shard, count }
    }

    // Rings a shard's bell, for those that rest on one of its paths.
    fn ring<Q: Wait>(&self, rt: &Q, shard: usize)
        requires { shard < 16 }
    {
        let bell = &self.bells[shard];
        let mut count = bell.count.lock(rt);
        *count = count.wrapping_add(1);
        drop(count);
        bell.rung.notify_all();
    }

    /// Rests until a row of the mark's shard was published after the look that gave the mark.
    pub fn rest<Q: Wait>(&self, rt: &Q, mark: Mark) {
        let Mark { shard, count } = mark;
        let Some(bell) = self.bells.get(shard) else {
            return;
        };
        let _now = bell
            .rung
            .wait_while(rt, bell.count.lock(rt), |now| *now == count);
    }
}
