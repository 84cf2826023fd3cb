// Notes of the writes of a session's transaction.
ghost use Rattle.std.specs.Prelude.{◌≡◌, ◌≤◌, ◌∷◌, ℕ, [], length, reverse, take, drop, vec_len, OnOk, OnErr};
ghost use Rattle.cluster_turns.specs.Notes.{is_noted, is_above, is_left as left_by, notes_left, FallFrom, AreFalling};

use std::alloc::{AllocError, Global};
use std::marker::Model;

/// Shard and number of each operation whose write stands, in the order of their numbers. A clause sees the last one first.
#[derive(Drop)]
pub struct Notes {
    items: Vec<(u32, u64)>,
}

impl Model for Notes {
    ghost use Rattle.std.specs.Prelude.{ℕ, List, reverse};

    ghost Value = { List (ℕ × ℕ) };

    ghost use Rattle.cluster_turns.specs.Notes.{AreFalling};

    ghost view = { λ n. reverse n.items.items };

    ghost invariant = { λ n. AreFalling (reverse n.items.items) };
}

// So many notes from the first on are of numbers up to this one, so that a going back there leaves them on each shard.
fn count_up_to(items: &[(u32, u64)], upto: u64) -> usize
    requires { AreFalling (reverse items.now) }
    ensures bound { result ≤ length items.now }
    ensures left { (n : ℕ) → notes_left n upto (take result items.now) ≡ take result items.now }
{
    let count = items.len();
    for above in 0..count {
        if items[count - 1 - above].1 <= upto {
            return count - above;
        }
    }
    0
}

// Whether a going back leaves it.
fn is_left(note: (u32, u64), shard: u32, upto: u64) -> bool
    ensures { result ≡ left_by shard upto note }
{
    note.0 != shard || note.1 <= upto
}

// Those that a going back takes away go, of which none stands before this place; the others keep their order.
fn take_from(items: &mut Vec<(u32, u64)>, start: usize, shard: u32, upto: u64)
    requires within { start ≤ vec_len items.old }
    requires left { notes_left shard upto (take start items.old.items) ≡ take start items.old.items }
    ensures { items.new.items ≡ notes_left shard upto items.old.items }
{
    let mut end = start;
    for place in start..items.len() {
        let note = items[place];
        if is_left(note, shard, upto) {
            items[end] = note;
            end += 1;
        }
    }
    items.truncate(end);
}

impl Notes {
    pub(crate) fn new(alloc: Global) -> Notes
        ensures { result ≡ [] }
    {
        Notes {
            items: Vec::new(alloc),
        }
    }

    /// One more, of a number that is none of an earlier one's. For want of memory there is none.
    pub(crate) fn push(&mut self, shard: u32, number: u64) -> Result<(), AllocError>
        requires { FallFrom number self.old }
        ensures ok { OnOk result (self.new ≡ (shard, number) ∷ self.old) }
        ensures err { OnErr result (self.new ≡ self.old) }
    {
        self.items.push((shard, number))?;
        Ok(())
    }

    /// The last one goes.
    pub(crate) fn pop(&mut self)
        ensures { self.new ≡ drop 1 self.old }
    {
        let _last = self.items.pop();
    }

    /// Whether a number above this one is noted, the last notes aside.
    pub(crate) fn is_above(&self, aside: usize, upto: u64) -> bool
        ensures { result ≡ is_above upto (drop aside self.now) }
    {
        let count = self.items.len();
        aside < count && upto < self.items[count - 1 - aside].1
    }

    /// Whether one is noted on this shard.
    pub(crate) fn is_on(&self, shard: u32, upto: u64) -> bool
        ensures { result ≡ is_noted shard upto self.now }
    {
        let count = self.items.len();
        for behind in 0..count {
            let note = self.items[count - 1 - behind];
            if note.1 <= upto {
                return false;
            }
            if note.0 == shard {
                return true;
            }
        }
        false
    }

    /// A going back takes those above this number on this shard away.
    pub(crate) fn take_away(&mut self, shard: u32, upto: u64)
        ensures { self.new ≡ notes_left shard upto self.old }
    {
        let start = count_up_to(&self.items, upto);
        take_from(&mut self.items, start, shard, upto);
    }
}
