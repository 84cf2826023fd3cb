// The savepoints of a transaction.

ghost use Rattle.std.specs.Prelude.{◌≡◌, ◌≤◌, ℕ, length, OnOk, OnErr};
ghost use Rattle.script_lang.specs.Savepoints.{AreNumbered, count_up_to as count_by, no_savepoints, keep as keep_at, upto_of, back_to};

use crate::Memory;
use std::alloc::{AllocError, Global};
use std::marker::Model;

/// The savepoints of a transaction that stand, numbered from 1 in the order in which they were kept. Each tells where the transaction was: after
/// so many acts.
#[derive(Drop)]
pub struct Savepoints {
    kept: u64,
    standing: Vec<(u64, u64)>,
}

impl Model for Savepoints {
    ghost use Rattle.script_lang.specs.Savepoints.{Savepoints, AreNumbered};

    ghost Value = { Savepoints };

    ghost view = { λ s. record { kept = s.kept; standing = s.standing.items } };

    ghost invariant = { λ s. AreNumbered 0 s.standing.items s.kept };
}

// How many have numbers up to this one.
fn count_up_to(standing: &[(u64, u64)], number: u64) -> usize
    requires { (kept : ℕ) × AreNumbered 0 standing.now kept }
    ensures count { result ≡ count_by number standing.now }
    ensures within { result ≤ length standing.now }
{
    standing.partition_point(|one| one.0 <= number)
}

// Where the one of this number leads, if it stands.
fn found(standing: &[(u64, u64)], number: u64) -> Option<u64>
    requires { (kept : ℕ) × AreNumbered 0 standing.now kept }
    ensures { result ≡ upto_of number standing.now }
{
    let count = count_up_to(standing, number);
    if count == 0 {
        return None;
    }
    let (last, upto) = standing[count - 1];
    if last == number { Some(upto) } else { None }
}

impl Savepoints {
    /// None. Takes no memory.
    pub fn new(alloc: Global) -> Savepoints
        ensures { result ≡ no_savepoints }
    {
        Savepoints {
            kept: 0,
            standing: Vec::new(alloc),
        }
    }

    /// All are forgotten, and the next one is the first. Takes no memory.
    pub fn clear(&mut self)
        ensures { self.new ≡ no_savepoints }
    {
        self.standing.clear();
        self.kept = 0;
    }

    /// The number of the last one that was kept; 0 where there was none.
    pub fn last(&self) -> u64
        ensures { result ≡ self.now.kept }
    {
        self.kept
    }

    /// Keeps one more, after so many acts. Where there is no memory, and where no number of 64 bits is left, all stays.
    pub fn keep(&mut self, upto: u64) -> Result<(), Memory>
        ensures ok { OnOk result (self.new ≡ keep_at upto self.old) }
        ensures err { OnErr result (self.new ≡ self.old) }
    {
        let Some(number) = self.kept.checked_add(1) else {
            return Err(AllocError);
        };
        self.standing.push((number, upto))?;
        self.kept = number;
        Ok(())
    }

    /// Where the one of this number leads, if it stands.
    pub fn upto(&self, number: u64) -> Option<u64>
        ensures { result ≡ upto_of number self.now.standing }
    {
        found(&self.standing, number)
    }

    /// Those later than this one are forgotten. Takes no memory.
    pub fn go_back(&mut self, number: u64)
        ensures { self.new ≡ back_to number self.old }
    {
        let count = count_up_to(&self.standing, number);
        self.standing.truncate(count);
    }
}
