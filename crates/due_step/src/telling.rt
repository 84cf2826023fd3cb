//! What is due, told.
ghost use Rattle.std.specs.Prelude.{◌≡◌, ◌≤◌, ◌<◌, ◌+◌, ◌++◌, ℕ, List, length};
ghost use Rattle.clv_base.specs.Orders.{tx_get};
ghost use Rattle.two_phase_commit.specs.Voting.{home_by};
ghost use Rattle.two_phase_commit.specs.Coordinated.{told_by};
ghost use Rattle.due_step.specs.Sent.{decide_all, told, CarriesMessages};

use crate::Due;
use crate::outbox::Outbox;
use clv_base::messages::Message;
use clv_base::names::TxId;
use clv_base::parts::ShardList;
use clv_base::state::Ruling;
use two_phase_commit::{Coordinator, Participant};

/// The decision goes to each of the shards.
fn tell_all(outbox: &mut Outbox, tx: TxId, home: u32, commit: bool, parts: &ShardList)
    requires { 15 ≤ outbox.old.room }
    ensures messages { outbox.new.messages ≡ outbox.old.messages ++ decide_all tx home commit parts.now }
    ensures room { outbox.old.room ≡ outbox.new.room + length parts.now }
    ensures few { outbox.old.room ≤ outbox.new.room + 15 }
{
    for to in parts.as_slice() {
        outbox.push(Message::Decide {
            to: *to,
            tx,
            home,
            commit,
        });
    }
}

/// Tells what is due for a transaction to those who wait for it. Takes no memory.
pub fn tell(
    outbox: &mut Outbox,
    tx: TxId,
    shard: u32,
    due: &Due,
    participant: &Participant,
    coordinator: &Coordinator,
)
    requires { 15 ≤ outbox.old.room }
    ensures messages { outbox.new.messages ≡ outbox.old.messages ++ told tx shard due.now (home_by (tx_get tx participant.now.voters)) (told_by (tx_get tx coordinator.now.requests)) }
    ensures room { outbox.old.room ≡ outbox.new.room + length (told tx shard due.now (home_by (tx_get tx participant.now.voters)) (told_by (tx_get tx coordinator.now.requests))) }
    ensures few { outbox.old.room ≤ outbox.new.room + 15 }
{
    match due {
        Due::Commit => {
            if let Some(parts) = coordinator.told(tx) {
                tell_all(outbox, tx, shard, true, &parts);
            } else if let Some(to) = participant.home_of(tx) {
                outbox.push(Message::Done {
                    to,
                    tx,
                    from: shard,
                });
            }
        }
        Due::Vote(vote) => {
            if let Some(to) = participant.home_of(tx) {
                outbox.push(Message::Vote {
                    to,
                    tx,
                    from: shard,
                    vote: *vote,
                });
            }
        }
        Due::Ruling(Ruling::Abort { to, .. }) => tell_all(outbox, tx, shard, false, to),
        Due::Ruling(Ruling::Commit { .. } | Ruling::Acknowledge | Ruling::End) => {}
    }
}

/// What is found, carried out by the definition, sends what `tell` sends.
pub fn carries_messages()
    ensures { CarriesMessages }
{}
