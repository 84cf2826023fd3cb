// What a home reminds of.
ghost use Rattle.std.specs.Prelude.{◌≡◌, ◌++◌, ◌∷◌, [], map, not, OnOk};
ghost use Rattle.std.specs.List.{filter};
ghost use Rattle.std.specs.List.Sorted.{IsStrictlySortedBy};
ghost use Rattle.clv_base.specs.declared.messages.Message.TheVariants.{Decide};
ghost use Rattle.clv_base.specs.Orders.{nat_in, tx_cmp, tx_in};
ghost use Rattle.clv_base.specs.Coordinator.{missing_dones, missing_votes};
ghost use Rattle.two_phase_commit.specs.Kept.{joint_request};
ghost use Rattle.two_phase_commit.specs.Reminding.{prepares_for, decides_for};

use crate::ballot::Ballot;
use crate::joint::Joint;
use crate::memory::Memory;
use clv_base::messages::Message;
use clv_base::names::TxId;
use clv_base::parts::ShardList;
use clv_base::state::RequestState;

/// Whether the transaction is one of these, which rise.
pub(crate) fn contains(txs: &[TxId], tx: &TxId) -> bool
    requires { IsStrictlySortedBy tx_cmp txs.now }
    ensures { result ≡ tx_in tx.now txs.now }
{
    txs.binary_search(tx).is_ok()
}

fn put(list: &mut Vec<Message>, message: Message) -> Result<(), Memory>
    ensures { OnOk result (list.new.items ≡ list.old.items ++ message ∷ []) }
{
    match list.push(message) {
        Ok(()) => Ok(()),
        Err(_) => Err(Memory),
    }
}

/// A Prepare for each other touched shard without a vote.
fn ask_again(
    shard: u32,
    tx: TxId,
    touched: &[(u32, u64)],
    votes: &Ballot,
    list: &mut Vec<Message>,
) -> Result<(), Memory>
    ensures { OnOk result (list.new.items ≡ list.old.items ++ prepares_for shard tx (votes.now).votes touched.now) }
{
    for part in touched {
        if part.0 != shard && votes.get(part.0).is_none() {
            put(
                list,
                Message::Prepare {
                    to: part.0,
                    tx,
                    home: shard,
                    seen: part.1,
                },
            )?;
        }
    }
    Ok(())
}

/// A Prepare for each missing vote, where the request is undecided.
pub(crate) fn remind_votes(
    shard: u32,
    tx: TxId,
    request: &Joint,
    list: &mut Vec<Message>,
) -> Result<(), Memory>
    ensures { OnOk result (list.new.items ≡ list.old.items ++ missing_votes shard tx (joint_request request.now) (joint_request request.now).state) }
{
    match &request.state {
        RequestState::Undecided => ask_again(
            shard,
            tx,
            request.touched.as_slice(),
            &request.votes,
            list,
        ),
        RequestState::Committed { .. } | RequestState::Finished | RequestState::Refused { .. } =>
            Ok(()),
    }
}

/// A Decide for each part that hasn't acknowledged.
fn tell_again(
    shard: u32,
    tx: TxId,
    parts: &[u32],
    acknowledged_by: &ShardList,
    list: &mut Vec<Message>,
) -> Result<(), Memory>
    ensures { OnOk result (list.new.items ≡ list.old.items ++ decides_for shard tx acknowledged_by.now parts.now) }
{
    for part in parts {
        if !acknowledged_by.contains(*part) {
            put(
                list,
                Message::Decide {
                    to: *part,
                    tx,
                    home: shard,
                    commit: true,
                },
            )?;
        }
    }
    Ok(())
}

/// A Decide for each missing acknowledgement, where the request is committed.
pub(crate) fn remind_dones(
    shard: u32,
    tx: TxId,
    request: &Joint,
    list: &mut Vec<Message>,
) -> Result<(), Memory>
    ensures { OnOk result (list.new.items ≡ list.old.items ++ missing_dones shard tx (joint_request request.now) (joint_request request.now).state) }
{
    match &request.state {
        RequestState::Committed { parts } => tell_again(
            shard,
            tx,
            parts.as_slice(),
            &request.acknowledged_by,
            list,
        ),
        RequestState::Undecided | RequestState::Finished | RequestState::Refused { .. } => Ok(()),
    }
}
