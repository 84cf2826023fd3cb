//! Finding it.
ghost use Rattle.std.specs.Prelude.{◌≡◌, IfSome};
ghost use Rattle.clv_base.specs.State.{Shard};
ghost use Rattle.clv_base.specs.Facts.{facts_of};
ghost use Rattle.clv_base.specs.Logs.{is_below as below};
ghost use Rattle.due_step.specs.Found.{is_commit_due as commit_is_due, Finds, IsSpelledDue};

use clv_base::causes::Vote;
use clv_base::names::TxId;
use clv_base::parts::{PartFacts, PartState};
use clv_base::state::Ruling;
use two_phase_commit::{Coordinator, Participant};

/// What is due for a transaction.
#[derive(Drop)]
pub enum Due {
    /// Its COMMIT became durable: its part is finished, and those are told that wait for it.
    Commit,
    /// Its part votes.
    Vote(Vote),
    /// Its home rules.
    Ruling(Ruling),
}

/// Whether the place is there and below the front.
pub(crate) fn is_below(lsn: Option<u64>, front: u64) -> bool
    ensures { result ≡ below lsn front }
{
    match lsn {
        Some(lsn) => lsn < front,
        None => false,
    }
}

/// Whether a COMMIT of its part that is here became durable.
fn is_commit_due(facts: &PartFacts) -> bool
    ensures { result ≡ commit_is_due facts.entry.now }
{
    facts.state == PartState::Closed && is_below(facts.commit, facts.durable)
}

/// What is due for the transaction, by its facts; the tables of voters and requests keep it. Takes no memory.
pub fn find_due(
    tx: TxId,
    facts: &PartFacts,
    participant: &mut Participant,
    coordinator: &mut Coordinator,
) -> Option<Due>
    ensures found { (s : Shard) → s.shard ≡ coordinator.old.shard → s.voters ≡ participant.old.voters → s.requests ≡ coordinator.old.requests → facts_of s tx ≡ facts.entry.now → Finds s tx result participant.new.voters coordinator.new.requests }
    ensures spelled { IfSome result (IsSpelledDue tx) }
    ensures shards { (participant.new.shard ≡ participant.old.shard) × (coordinator.new.shard ≡ coordinator.old.shard) }
{
    if is_commit_due(facts) {
        return Some(Due::Commit);
    }
    if let Some(vote) = participant.vote_due(tx, facts) {
        return Some(Due::Vote(vote));
    }
    match coordinator.decision_due(tx, facts) {
        Some(ruling) => Some(Due::Ruling(ruling)),
        None => None,
    }
}
