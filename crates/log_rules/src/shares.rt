// Who has writes that stand at a key: the shares of those that aren't committed.

ghost use Rattle.std.specs.Prelude.{◌≡◌, [], ◌∷◌, IfOk, OnOk, not, position};
ghost use Rattle.clv_base.specs.Orders.{tx_same};
ghost use Rattle.log_rules.specs.Shares.{share_of_one, one_more, one_fewer, none_left, with_share, without_share, without};

use clv_base::names::TxId;
use std::alloc::{AllocError, Global};
use std::slice::from_ref;

// How many UPDATEs and ADDs of a transaction stand at a key.
#[derive(Clone, Copy)]
pub struct Share {
    pub tx: TxId,
    pub sets: u64,
    pub adds: u64,
}

// The shares at a key, one for each such transaction that wrote there. Most keys have one or none.
#[derive(Drop)]
pub enum Crowd {
    Nobody,
    One(Share),
    Many(Vec<Share>),
}

fn place_of(shares: &[Share], tx: TxId) -> Option<usize>
    ensures { result ≡ position (λ s. tx_same tx s.tx) shares.now }
{
    shares.iter().position(|share| tx == share.tx)
}

// The share of one write.
pub fn of_one(tx: TxId, is_setting: bool) -> Share
    ensures { result ≡ share_of_one tx is_setting }
{
    if is_setting {
        Share {
            tx,
            sets: 1,
            adds: 0,
        }
    } else {
        Share {
            tx,
            sets: 0,
            adds: 1,
        }
    }
}

// With one write more, and with one fewer.
fn more(share: Share, is_setting: bool) -> Result<Share, AllocError>
    ensures { IfOk result (λ s. s ≡ one_more is_setting share) }
{
    if is_setting {
        Ok(Share {
            sets: share.sets.checked_add(1).ok_or(AllocError)?,
            ..share
        })
    } else {
        Ok(Share {
            adds: share.adds.checked_add(1).ok_or(AllocError)?,
            ..share
        })
    }
}

fn fewer(share: Share, is_setting: bool) -> Share
    ensures { result ≡ one_fewer is_setting share }
{
    if is_setting {
        Share {
            sets: share.sets.saturating_sub(1),
            ..share
        }
    } else {
        Share {
            adds: share.adds.saturating_sub(1),
            ..share
        }
    }
}

fn is_none_left(share: Share) -> bool
    ensures { result ≡ none_left share }
{
    share.sets == 0 && share.adds == 0
}

// So in a list.
fn count(shares: &mut Vec<Share>, tx: TxId, is_setting: bool) -> Result<(), AllocError>
    ensures { OnOk result (shares.new.items ≡ with_share tx is_setting shares.old.items) }
{
    let Some(at) = place_of(shares, tx) else {
        shares.push(of_one(tx, is_setting))?;
        return Ok(());
    };
    shares[at] = more(shares[at], is_setting)?;
    Ok(())
}

fn discount(shares: &mut Vec<Share>, tx: TxId, is_setting: bool)
    ensures { shares.new.items ≡ without_share tx is_setting shares.old.items }
{
    let Some(at) = place_of(shares, tx) else {
        return;
    };
    let left = fewer(shares[at], is_setting);
    if is_none_left(left) {
        shares.remove(at);
    } else {
        shares[at] = left;
    }
}

// The transaction's share goes.
fn leave(shares: &mut Vec<Share>, tx: TxId)
    ensures { shares.new.items ≡ without tx shares.old.items }
{
    shares.retain(
        |share: &Share| -> bool
            ensures { result ≡ not (tx_same tx share.now.tx) }
        { tx != share.tx },
    );
}

// A list of two.
fn pair(alloc: Global, a: Share, b: Share) -> Result<Vec<Share>, AllocError>
    ensures { IfOk result (λ v. v.items ≡ a ∷ b ∷ []) }
{
    let mut shares = Vec::new(alloc);
    shares.push(a)?;
    shares.push(b)?;
    Ok(shares)
}

impl Crowd {
    ghost use Rattle.std.specs.Prelude.{◌≡◌, [], IfOk, OnOk};
    ghost use Rattle.log_rules.specs.Shares.{crowd_of, with_share, without_share, without};

    // Those of a crowd.
    pub fn as_slice(&self) -> &[Share]
        ensures { result.now ≡ crowd_of self.now }
    {
        match self {
            Crowd::Nobody => &[],
            Crowd::One(share) => from_ref(share),
            Crowd::Many(shares) => shares.as_slice(),
        }
    }

    // One with a share that had this one alone.
    fn joined(alloc: Global, share: Share, tx: TxId, is_setting: bool) -> Result<Crowd, AllocError>
        ensures { IfOk result (λ c. crowd_of c ≡ with_share tx is_setting (share ∷ [])) }
    {
        if tx == share.tx {
            Ok(Crowd::One(more(share, is_setting)?))
        } else {
            Ok(Crowd::Many(pair(alloc, share, of_one(tx, is_setting))?))
        }
    }

    // A write of the transaction more, an UPDATE or an ADD.
    pub fn add(&mut self, alloc: Global, tx: TxId, is_setting: bool) -> Result<(), AllocError>
        ensures { OnOk result (crowd_of self.new ≡ with_share tx is_setting (crowd_of self.old)) }
    {
        match self {
            Crowd::Nobody => *self = Crowd::One(of_one(tx, is_setting)),
            Crowd::One(share) => *self = Crowd::joined(alloc, *share, tx, is_setting)?,
            Crowd::Many(shares) => count(shares, tx, is_setting)?,
        }
        Ok(())
    }

    // What is left of one.
    fn left(share: Share, tx: TxId, is_setting: bool) -> Crowd
        ensures { crowd_of result ≡ without_share tx is_setting (share ∷ []) }
    {
        if tx != share.tx {
            return Crowd::One(share);
        }
        let less = fewer(share, is_setting);
        if is_none_left(less) {
            Crowd::Nobody
        } else {
            Crowd::One(less)
        }
    }

    // One fewer.
    pub fn take(&mut self, tx: TxId, is_setting: bool)
        ensures { crowd_of self.new ≡ without_share tx is_setting (crowd_of self.old) }
    {
        match self {
            Crowd::Nobody => {}
            Crowd::One(share) => *self = Crowd::left(*share, tx, is_setting),
            Crowd::Many(shares) => discount(shares, tx, is_setting),
        }
    }

    // The transaction is committed.
    pub fn settle(&mut self, tx: TxId)
        ensures { crowd_of self.new ≡ without tx (crowd_of self.old) }
    {
        match self {
            Crowd::Nobody => {}
            Crowd::One(share) => {
                if tx == share.tx {
                    *self = Crowd::Nobody;
                }
            }
            Crowd::Many(shares) => leave(shares, tx),
        }
    }
}
