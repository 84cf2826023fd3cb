//! Carrying it out.
ghost use Rattle.std.specs.Prelude.{◌≤◌, ◌<◌, ◌+◌};
ghost use Rattle.clv_base.specs.OneShard.{purge};
ghost use Rattle.txn_core.specs.State.{IsSameBut};
ghost use Rattle.txn_core.specs.Sound.{HasSpare, SpendsSpare};
ghost use Rattle.two_phase_commit.specs.Coordinated.{IsSpelledRuling};
ghost use Rattle.due_step.specs.Found.{IsSpelledDue};
ghost use Rattle.due_step.specs.Carried.{local_after, ruled, voted, IsPurged, CarriesLocal};

use crate::Due;
use clv_base::causes::Vote;
use clv_base::names::TxId;
use clv_base::state::Ruling;
use lock_table::Locks;
use ordered_store::Store;
use txn_core::ShardTx;

/// A vote: who only read is finished by it.
fn carry_vote<S: Store + Drop, L: Locks + Drop>(
    transactions: &mut ShardTx<S, L>,
    tx: TxId,
    vote: Vote,
)
    requires purged { IsPurged transactions.old.local }
    ensures after { IsSameBut transactions.old (purge (voted transactions.old.local tx vote)) transactions.new }
    ensures room { SpendsSpare 1 transactions.old transactions.new }
    ensures pairs_room { transactions.old.pairs_room ≤ transactions.new.pairs_room + 1 }
{
    match vote {
        Vote::Read => transactions.finish_part(tx),
        Vote::Yes | Vote::No(_) => {}
    }
}

/// A ruling: a COMMIT or an END is written, a reader's part is finished, or the part is aborted.
fn carry_ruling<S: Store + Drop, L: Locks + Drop>(
    transactions: &mut ShardTx<S, L>,
    tx: TxId,
    ruling: &Ruling,
)
    requires room { HasSpare 1 transactions.old × (0 < transactions.old.pairs_room) }
    requires purged { IsPurged transactions.old.local }
    requires spelled { IsSpelledRuling tx ruling.now }
    ensures after { IsSameBut transactions.old (purge (ruled transactions.old.local tx ruling.now)) transactions.new }
    ensures room { SpendsSpare 1 transactions.old transactions.new }
    ensures pairs_room { transactions.old.pairs_room ≤ transactions.new.pairs_room + 1 }
{
    match ruling {
        Ruling::Commit { parts } => {
            transactions.commit_part(tx, parts.copied());
        }
        Ruling::Acknowledge => transactions.finish_part(tx),
        Ruling::Abort { .. } => transactions.abort(tx),
        Ruling::End => transactions.end_transaction(tx),
    }
}

/// Carries out what was found. Takes no memory.
pub fn carry<S: Store + Drop, L: Locks + Drop>(
    transactions: &mut ShardTx<S, L>,
    tx: TxId,
    due: &Due,
)
    requires room { HasSpare 1 transactions.old × (0 < transactions.old.pairs_room) }
    requires purged { IsPurged transactions.old.local }
    requires spelled { IsSpelledDue tx due.now }
    ensures after { IsSameBut transactions.old (purge (local_after transactions.old.local tx due.now)) transactions.new }
    ensures room { SpendsSpare 1 transactions.old transactions.new }
    ensures pairs_room { transactions.old.pairs_room ≤ transactions.new.pairs_room + 1 }
{
    match due {
        Due::Commit => transactions.finish_part(tx),
        Due::Vote(vote) => carry_vote(transactions, tx, *vote),
        Due::Ruling(ruling) => carry_ruling(transactions, tx, ruling),
    }
}

/// What is found, carried out by the definition, leaves the transactions' state that `carry` leaves, but for ghosts.
pub fn carries_local()
    ensures { CarriesLocal }
{}
