// What a transaction went back over.
ghost use Rattle.std.specs.Prelude.{◌≡◌, ◌&&◌, ◌||◌, not, nat_lt, nat_le, ◌==◌, true, None, Some, [], ◌∷◌, OnOk};
ghost use Rattle.std.specs.List.{filter, list_any, list_all};
ghost use Rattle.clv_base.specs.Backs.{stands_for_back};
ghost use Rattle.clv_base.specs.Sessions.{is_back_whole as back_whole, goes_on_back};
ghost use Rattle.interleaving_core.specs.GoneBack.{GoneBack, no_going_back, is_whole_now};

use std::alloc::{AllocError, Global};
use std::marker::Model;

/// Shard and number of each operation whose write no going back took away; the goings back with their numbers; where the last number is one's, on
/// which shard its last entry is and to where; and whether each of an earlier number was whole. The lists have the first one first, and a clause sees
/// the last one first.
#[derive(Drop)]
pub(crate) struct GoingsBack {
    back: Option<(u32, u64)>,
    written: Vec<(u32, u64)>,
    backs: Vec<(u64, u64)>,
    is_whole: bool,
}

impl Model for GoingsBack {
    ghost use Rattle.std.specs.Prelude.{reverse};
    ghost use Rattle.interleaving_core.specs.GoneBack.{GoneBack};

    ghost Value = { GoneBack };

    ghost view = { λ g. record { back = g.back; written = reverse g.written.items; backs = reverse g.backs.items; is_whole = g.is_whole } };
}

fn is_written_above(written: &[(u32, u64)], upto: u64) -> bool
    ensures { result ≡ list_any (λ w. nat_lt upto w.1) written.now }
{
    written.iter().any(|one| upto < one.1)
}

fn is_back_whole(back: Option<(u32, u64)>, written: &[(u32, u64)]) -> bool
    ensures { result ≡ back_whole back written.now }
{
    match back {
        None => true,
        Some((_, upto)) => !is_written_above(written, upto),
    }
}

// Whether none of these goings back went over this number.
fn is_clear(upto: u64, backs: &[(u64, u64)]) -> bool
    ensures { result ≡ list_all (λ b. nat_le upto b.1 || nat_le b.0 upto) backs.now }
{
    backs.iter().all(|back| upto <= back.1 || back.0 <= upto)
}

// Those on the shard of later operations go.
fn take_away(written: &mut Vec<(u32, u64)>, shard: u32, upto: u64)
    ensures { written.new.items ≡ filter (λ w. not ((w.0 == shard) && nat_lt upto w.1)) written.old.items }
{
    written.retain(|one| !(one.0 == shard && upto < one.1));
}

impl GoingsBack {
    pub(crate) fn new(alloc: Global) -> GoingsBack
        ensures { result ≡ no_going_back }
    {
        GoingsBack {
            back: None,
            written: Vec::new(alloc),
            backs: Vec::new(alloc),
            is_whole: true,
        }
    }

    /// Whether each going back so far was whole: of no operation that it went back over a write is left.
    pub(crate) fn is_whole(&self) -> bool
        ensures { result ≡ is_whole_now self.now }
    {
        self.is_whole && is_back_whole(self.back, self.written.as_slice())
    }

    // Whether a going back with this number may lead there.
    fn stands(&self, nth: u64, upto: u64) -> bool
        ensures { result ≡ stands_for_back nth upto self.now.backs }
    {
        upto < nth && is_clear(upto, self.backs.as_slice())
    }

    /// Whether an entry on a shard goes on the last going back.
    pub(crate) fn goes_on(&self, shard: u32, upto: u64) -> bool
        ensures { result ≡ goes_on_back self.now.back shard upto }
    {
        match self.back {
            None => false,
            Some((last, to)) => last < shard && to == upto,
        }
    }

    /// The next number is taken.
    pub(crate) fn number(&mut self)
        ensures { self.new ≡ record self.old { is_whole = is_whole_now self.old; back = None } }
    {
        self.is_whole = self.is_whole();
        self.back = None;
    }

    /// An operation wrote.
    pub(crate) fn wrote(&mut self, shard: u32, nth: u64) -> Result<(), AllocError>
        ensures { OnOk result (self.new ≡ record self.old { written = (shard, nth) ∷ self.old.written }) }
    {
        self.written.push((shard, nth))?;
        Ok(())
    }

    /// A going back takes the next number.
    pub(crate) fn begin(&mut self, nth: u64, upto: u64) -> Result<(), AllocError>
        ensures { OnOk result (self.new ≡ record { back = None; written = self.old.written; backs = (nth, upto) ∷ self.old.backs; is_whole = is_whole_now self.old && stands_for_back nth upto self.old.backs }) }
    {
        let whole = self.is_whole() && self.stands(nth, upto);
        self.backs.push((nth, upto))?;
        self.back = None;
        self.is_whole = whole;
        Ok(())
    }

    /// It took away what later operations wrote on a shard.
    pub(crate) fn went(&mut self, shard: u32, upto: u64)
        ensures { self.new ≡ record self.old { back = Some (shard, upto); written = filter (λ w. not ((w.0 == shard) && nat_lt upto w.1)) self.old.written } }
    {
        take_away(&mut self.written, shard, upto);
        self.back = Some((shard, upto));
    }

    /// The transaction died of it.
    pub(crate) fn died(&mut self, shard: u32, upto: u64)
        ensures { self.new ≡ record self.old { back = Some (shard, upto) } }
    {
        self.back = Some((shard, upto));
    }
}
