//! Calls one after another.
ghost use Rattle.std.specs.Prelude.{◌≡◌, ℕ, not, take, IfOk, OnOk, OnErr};
ghost use Rattle.clv_base.specs.Needs.{found_at, is_there};
ghost use Rattle.callers.specs.StoreRuns.{hidden, purged, is_ghost_found, answer_of, records_by, answers_of, records_after};

use crate::store_answers::{FoundList, StoreAnswer};
use crate::store_calls::StoreCall;
use clv_base::modes::Found;
use ordered_store::Store;
use std::alloc::{AllocError, Global};

fn is_absent(found: &Found) -> bool
    ensures { result ≡ not (is_there found.now) }
{
    match found {
        Found::Absent => true,
        Found::Live(_) | Found::Ghost => false,
    }
}

fn is_ghost(found: &Found) -> bool
    ensures { result ≡ is_ghost_found found.now }
{
    match found {
        Found::Ghost => true,
        Found::Live(_) | Found::Absent => false,
    }
}

/// Makes the record at a key a ghost, where there is one, and tells what stood there.
fn hide<S: Store>(store: &mut S, key: u64) -> Found
    ensures answer { result ≡ found_at key (S.records store.old) }
    ensures records { S.records store.new ≡ hidden key (S.records store.old) }
{
    let found = store.get(key);
    if !is_absent(&found) {
        store.hide(key);
    }
    found
}

/// Takes the record at a key away, where it is a ghost, and tells what stood there.
fn purge<S: Store>(store: &mut S, key: u64) -> Found
    ensures answer { result ≡ found_at key (S.records store.old) }
    ensures records { S.records store.new ≡ purged key (S.records store.old) }
{
    let found = store.get(key);
    if is_ghost(&found) {
        store.purge(key);
    }
    found
}

/// Makes one call. The only error is want of memory, which leaves the records.
pub fn run_call<S: Store>(
    alloc: Global,
    store: &mut S,
    call: &StoreCall,
) -> Result<StoreAnswer, AllocError>
    ensures answer { IfOk result (λ answer. answer ≡ answer_of call.now (S.records store.old)) }
    ensures records { OnOk result (S.records store.new ≡ records_by call.now (S.records store.old)) }
    ensures memory { OnErr result (S.records store.new ≡ S.records store.old) }
{
    match call {
        StoreCall::Get(key) => Ok(StoreAnswer::There(store.get(*key))),
        StoreCall::Set { key, value } => {
            store.reserve(1)?;
            Ok(StoreAnswer::Before(store.set(*key, value.copy())))
        }
        StoreCall::Hide(key) => Ok(StoreAnswer::There(hide(store, *key))),
        StoreCall::Purge(key) => Ok(StoreAnswer::There(purge(store, *key))),
        StoreCall::AnchorOf(key) => Ok(StoreAnswer::Below(store.anchor_of(*key))),
        StoreCall::Range { low, high } => {
            let rows = store.range(alloc, *low, *high)?;
            Ok(StoreAnswer::Rows(FoundList::new(rows)))
        }
    }
}

/// Makes the calls one after another, and gives their answers in order. The only error is want of memory: a front of the calls was made, and the
/// others were not.
pub fn run_calls<S: Store>(
    alloc: Global,
    store: &mut S,
    calls: &[StoreCall],
) -> Result<Vec<StoreAnswer>, AllocError>
    ensures answers { IfOk result (λ answers. answers.items ≡ answers_of calls.now (S.records store.old)) }
    ensures records { OnOk result (S.records store.new ≡ records_after calls.now (S.records store.old)) }
    ensures memory { OnErr result ((n : ℕ) × (S.records store.new ≡ records_after (take n calls.now) (S.records store.old))) }
{
    let mut answers = Vec::with_capacity(alloc, calls.len())?;
    for call in calls {
        answers.push_reserved(run_call(alloc, store, call)?);
    }
    Ok(answers)
}
