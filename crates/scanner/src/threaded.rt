ghost use Rattle.std.specs.Prelude.{◌≡◌, ◌<◌, ◌≤◌, ◌-◌, ◌^◌, [], Some, All, IfSome, option_map, string_len};
ghost use Rattle.scan_model.specs.Limits.{file_limit};
ghost use Rattle.file_source.specs.Givens.{IsGiven};
ghost use Rattle.program_words.specs.Words.{texts_of, words_of};
ghost use Rattle.shard_cache.specs.Rows.{all_rows, all_asked, all_origins};
ghost use Rattle.shard_cache.specs.StoreMap.{file_map, IsOneMap, IsUntouched};
ghost use Rattle.shard_cache.specs.Ends.{IsLookedAt};
ghost use Rattle.scanner.specs.Verdict.{database_path, read_of, verdict, PlanFits, VerdictFits};
ghost use Rattle.scanner.specs.Asked.{AsksDatabase};
ghost use Rattle.scanner.specs.Statuses.{number};
ghost use Rattle.scanner.specs.Sinks.{put_to};
ghost use Rattle.scanner.specs.Run.{IsRun, IsSought};

use crate::made::make_on_threads;
use crate::printing::{print_document, tell_no_memory};
use crate::refusing::refuse;
use crate::status::Status;
use crate::verdict::{Plan, Verdict, read_verdict};
use crate::{Ended, Outside};
use file_source::{Sink, Source};
use scan_model::NoMemory;
use shard_cache::Store;
use std::alloc::Global;
use std::sync::Wait;
use std::thread::Threads;
use workers::{Scanned, scan_all};

/// Reads the words and the database, scans its commands by as many workers as the words ask for, each on a thread of its
/// own, and prints. It returns when all of them have.
///
/// What it prints, its status and what its clauses say are those of `scan_alone` on the same files; only the order of the
/// rows isn't told. The statuses are those of `scan_alone` too.
pub fn scan_deps<Q: Threads + Wait + Sync, S: Source, K: Sink, E: Sink>(
    rt: &Q,
    alloc: Global,
    words: &Vec<String>,
    outside: Outside<S>,
    out: &mut K,
    err: &mut E,
) -> Ended<S>
    requires fresh_db { S.asked outside.db ≡ [] }
    requires fresh_store { IsUntouched outside.store }
    requires out_count { K.faults out.old < 2 ^ 64 - 1 }
    requires err_count { E.faults err.old < 2 ^ 64 - 1 }
    requires short_words { All (λ word. string_len word ≤ file_limit) words.now.items }

    // The run does what its verdict says, or finds no memory.
    ensures run { IsRun S.given_outcome S.given_bytes
        (verdict (words_of (texts_of words.now.items)) (read_of S.given_outcome S.given_bytes result.db_given)) result.outside.store
        (put_to K.held K.faults K.puts out.old out.new) (put_to E.held E.faults E.puts err.old err.new) result.status }

    // What the database's read gave has its causes, and is of the database's own source.
    ensures given { IfSome result.db_given (λ g. IsGiven (S.given_outcome g) (S.given_bytes g) (S.given_faults g) (S.given_came g)) }
    ensures given_here { IfSome result.db_given (λ g. S.given_origin g ≡ S.origin outside.db) }

    // The database's source was asked for the database alone, at most once.
    ensures db_asked { AsksDatabase (database_path (words_of (texts_of words.now.items))) (S.asked result.outside.db)
        (option_map S.given_path result.db_given) }

    // No path was asked for twice, and the rows are one map of what the reads gave.
    ensures one_map { IsOneMap S.given_path S.given_origin result.outside.store }

    // Only what some command looks at was asked for.
    ensures looked { All (IsSought (file_map S.given_outcome S.given_bytes (all_rows result.outside.store))
        (verdict (words_of (texts_of words.now.items)) (read_of S.given_outcome S.given_bytes result.db_given))) (all_asked result.outside.store) }

    // The sources are those that were handed in.
    ensures db_origin { S.origin result.outside.db ≡ S.origin outside.db }
    ensures origins { all_origins result.outside.store ≡ all_origins outside.store }
{
    let Outside { mut db, store } = outside;
    let (verdict, db_given) = read_verdict(alloc, words, &mut db);
    let (status, store) = match verdict {
        Ok(verdict) => carry_out(rt, alloc, &verdict, store, out, err),
        Err(NoMemory) => (tell_no_memory(err), store),
    };
    Ended {
        status: status.number(),
        db_given,
        outside: Outside { db, store },
    }
}

fn carry_out<Q: Threads + Wait + Sync, S: Source, K: Sink, E: Sink>(
    rt: &Q,
    alloc: Global,
    verdict: &Verdict,
    store: Store<S>,
    out: &mut K,
    err: &mut E,
) -> (Status, Store<S>)
    requires fits { VerdictFits verdict.now }
    requires fresh_store { IsUntouched store }
    requires out_count { K.faults out.old < 2 ^ 64 - 1 }
    requires err_count { E.faults err.old < 2 ^ 64 - 1 }
    ensures run { IsRun S.given_outcome S.given_bytes (Some verdict.now) result.1
        (put_to K.held K.faults K.puts out.old out.new) (put_to E.held E.faults E.puts err.old err.new) (number result.0) }
    ensures one_map { IsOneMap S.given_path S.given_origin result.1 }
    ensures looked { All (IsSought (file_map S.given_outcome S.given_bytes (all_rows result.1)) (Some verdict.now)) (all_asked result.1) }
    ensures origins { all_origins result.1 ≡ all_origins store }
{
    match verdict {
        Verdict::Refuse(refusal) => (refuse(alloc, *refusal, err), store),
        Verdict::Scan(plan) => scan(rt, alloc, plan, store, out, err),
        Verdict::Make(plan) => (make_on_threads(rt, alloc, plan, out, err), store),
    }
}

fn scan<Q: Threads + Wait + Sync, S: Source, K: Sink, E: Sink>(
    rt: &Q,
    alloc: Global,
    plan: &Plan,
    store: Store<S>,
    out: &mut K,
    err: &mut E,
) -> (Status, Store<S>)
    requires fits { PlanFits plan.now }
    requires fresh_store { IsUntouched store }
    requires out_count { K.faults out.old < 2 ^ 64 - 1 }
    requires err_count { E.faults err.old < 2 ^ 64 - 1 }
    ensures run { IsRun S.given_outcome S.given_bytes (Some (Verdict.Scan plan.now)) result.1
        (put_to K.held K.faults K.puts out.old out.new) (put_to E.held E.faults E.puts err.old err.new) (number result.0) }
    ensures one_map { IsOneMap S.given_path S.given_origin result.1 }
    ensures looked { All (IsLookedAt (file_map S.given_outcome S.given_bytes (all_rows result.1)) plan.now.manner.settings plan.now.jobs)
        (all_asked result.1) }
    ensures origins { all_origins result.1 ≡ all_origins store }
{
    let Scanned { ends, store } = scan_all(
        rt,
        alloc,
        &plan.jobs,
        &plan.manner.settings,
        plan.manner.workers,
        store,
    );
    match ends {
        Ok(ends) => (print_document(alloc, &ends, out, err), store),
        Err(NoMemory) => (tell_no_memory(err), store),
    }
}
