//! The anchors of each transaction, as a thread from one to the next, so that none of the others is looked at.
ghost use Rattle.std.specs.Prelude.{◌≡◌, ◌≤◌, ◌<◌, ◌+◌, Some, None};
ghost use Rattle.indexmap.specs.IndexMap.{spare};
ghost use Rattle.lock_index.specs.Links.{number, mixed, link_of, next_of, nexts, first as first_in, Threaded, Changes, PutsIn, TakesOut};

use clv_base::modes::Anchor;
use clv_base::names::TxId;
use indexmap::IndexMap;
use std::hash::{Hash, Hasher};

/// A place in a thread: before its first anchor, or an anchor.
#[derive(Clone, Copy, PartialEq, Eq)]
pub(crate) enum Spot {
    First,
    Low,
    At(u64),
}

impl Spot {
    /// The spot as one number.
    fn number(self) -> u64
        ensures { result ≡ number self }
    {
        match self {
            Spot::First => 0,
            Spot::Low => 1,
            Spot::At(key) => key.wrapping_add(2),
        }
    }
}

/// A place in a transaction's thread. The map has the anchor that follows it.
#[derive(Clone, Copy, PartialEq, Eq)]
pub(crate) struct Link {
    run: u32,
    session: u32,
    serial: u64,
    spot: Spot,
}

// Numbers of runs and of spots are spread by these.
const RUNS: u64 = 0x9e37_79b9_7f4a_7c15;

const SPOTS: u64 = 0xc2b2_ae3d_27d4_eb4f;

impl Link {
    // The four numbers as one. Links with the same one are told apart by comparing them, so it need only be so in few cases.
    fn mixed(self) -> u64
        ensures { result ≡ mixed self }
    {
        let name = (self.serial.wrapping_mul(64))
            .wrapping_add(self.session as u64)
            .wrapping_add((self.run as u64).wrapping_mul(RUNS));
        name.wrapping_add(self.spot.number().wrapping_mul(SPOTS))
    }
}

// One write for all four.
impl Hash for Link {
    ghost use Rattle.std.specs.Hash as fed;
    ghost use Rattle.std.proofs.Common.{rules};
    ghost use Rattle.lock_index.specs.Links.{mixed};

    ghost hash_input = { λ l. fed.u64 (mixed l) };

    ghost respects_eq = { Prim.search rules };

    fn hash<H: Hasher>(&self, state: &mut H) {
        state.write_u64(self.mixed());
    }
}

/// A place in a transaction's thread.
fn make_link(tx: TxId, at: Option<Anchor>) -> Link
    ensures { result ≡ link_of tx at }
{
    let spot = match at {
        None => Spot::First,
        Some(Anchor::Low) => Spot::Low,
        Some(Anchor::At(key)) => Spot::At(key),
    };
    Link {
        run: tx.run,
        session: tx.session,
        serial: tx.serial,
        spot,
    }
}

/// What follows a place, where it is in the transaction's thread.
pub(crate) fn next(
    links: &IndexMap<Link, Option<Anchor>>,
    tx: TxId,
    at: Option<Anchor>,
) -> Option<Option<Anchor>>
    ensures { result ≡ next_of tx at links.now.entries }
{
    links.get(&make_link(tx, at)).copied()
}

/// The first anchor of the transaction's thread.
pub(crate) fn first(links: &IndexMap<Link, Option<Anchor>>, tx: TxId) -> Option<Anchor>
    ensures { result ≡ first_in (nexts links.now.entries) tx }
{
    next(links, tx, None).flatten()
}

/// Another anchor follows a place; gives what followed it before.
fn set(
    links: &mut IndexMap<Link, Option<Anchor>>,
    tx: TxId,
    at: Option<Anchor>,
    then: Option<Anchor>,
) -> Option<Option<Anchor>>
    requires { next_of tx at links.old.entries ≡ None → 0 < spare links.old }
    ensures was { result ≡ next_of tx at links.old.entries }
    ensures links { Changes tx at (Some then) links.old.entries links.new.entries }
    ensures room { spare links.old ≤ spare links.new + 1 }
{
    let Ok(was) = links.insert(make_link(tx, at), then) else {
        unreachable!()
    };
    was
}

/// A place leaves the thread; gives what followed it.
fn cut(
    links: &mut IndexMap<Link, Option<Anchor>>,
    tx: TxId,
    at: Option<Anchor>,
) -> Option<Option<Anchor>>
    ensures was { result ≡ next_of tx at links.old.entries }
    ensures links { Changes tx at None links.old.entries links.new.entries }
{
    links.swap_remove(&make_link(tx, at))
}

/// Puts an anchor first into the transaction's thread, unless it is in it.
pub(crate) fn note(links: &mut IndexMap<Link, Option<Anchor>>, tx: TxId, anchor: Anchor)
    requires threaded { Threaded links.old.entries }
    requires room { 2 ≤ spare links.old }
    ensures threaded { Threaded links.new.entries }
    ensures has { PutsIn tx anchor (nexts links.old.entries) (nexts links.new.entries) }
    ensures room { spare links.old ≤ spare links.new + 2 }
{
    if next(links, tx, Some(anchor)).is_some() {
        return;
    }
    let then = set(links, tx, None, Some(anchor)).flatten();
    set(links, tx, Some(anchor), then);
}

/// Takes the first anchor out of the transaction's thread. Takes no memory.
pub(crate) fn take_first(links: &mut IndexMap<Link, Option<Anchor>>, tx: TxId) -> Option<Anchor>
    requires { Threaded links.old.entries }
    ensures threaded { Threaded links.new.entries }
    ensures out { TakesOut tx result (nexts links.old.entries) (nexts links.new.entries) }
{
    let Some(anchor) = first(links, tx) else {
        return None;
    };
    let then = cut(links, tx, Some(anchor)).flatten();
    if then.is_some() {
        set(links, tx, None, then);
    } else {
        cut(links, tx, None);
    }
    Some(anchor)
}
