// Which requests wait, and the table of requests with its index of those and what a hash map tells of all.
ghost use Rattle.std.specs.Prelude.{◌≡◌, ◌==◌, not, OnOk, OnErr};
ghost use Rattle.std.specs.List.{list_any};
ghost use Rattle.std.specs.List.Sorted.{IsStrictlySortedBy};
ghost use Rattle.std.specs.Map.{keys_of};
ghost use Rattle.clv_base.specs.Orders.{tx_cmp, tx_put};
ghost use Rattle.two_phase_commit.specs.Asked.{AreAsked};
ghost use Rattle.two_phase_commit.specs.Kept.{joint_request};
ghost use Rattle.two_phase_commit.specs.Waiting.{waits as request_waits};
ghost use Rattle.tx_table.specs.Index.{IsIndex};

use crate::brief::Brief;
use crate::joint::Joint;
use crate::kept::Kept;
use crate::memory::Memory;
use crate::ruling::are_in;
use clv_base::names::TxId;
use clv_base::state::RequestState;
use std::collections::BTreeMap;
use tx_table::{TxIndex, TxTable};

/// Whether one of these shards is another than this.
fn touches_others(shard: u32, touched: &[(u32, u64)]) -> bool
    ensures { result ≡ list_any (λ t. not (t.0 == shard)) touched.now }
{
    touched.iter().any(|part| part.0 != shard)
}

/// Whether a request waits: for votes of other shards, or for the acknowledgement of a part.
pub(crate) fn waits(shard: u32, request: &Joint) -> bool
    ensures { result ≡ request_waits shard (joint_request request.now) }
{
    match &request.state {
        RequestState::Undecided => touches_others(shard, request.touched.as_slice()),
        RequestState::Committed { parts } => !are_in(parts, &request.acknowledged_by),
        RequestState::Finished | RequestState::Refused { .. } => false,
    }
}

/// Puts a request into the table, what is told of it beside it, and it into the index if it waits. Where there is no memory all stays.
pub(crate) fn put_request(
    requests: &mut BTreeMap<TxId, Kept>,
    waiting: &mut TxIndex,
    asked: &mut TxTable<Brief>,
    shard: u32,
    tx: TxId,
    request: Kept,
) -> Result<(), Memory>
    requires index { IsIndex (request_waits shard) requests.old.entries waiting.old }
    requires asked { AreAsked shard asked.old.rows requests.old.entries }
    ensures ok { OnOk result (requests.new.entries ≡ tx_put tx request requests.old.entries) }
    ensures err { OnErr result (requests.new.entries ≡ requests.old.entries) }
    ensures index { IsIndex (request_waits shard) requests.new.entries waiting.new }
    ensures asked { AreAsked shard asked.new.rows requests.new.entries }
    ensures keys { IsStrictlySortedBy tx_cmp (keys_of requests.new.entries) }
{
    let waits = request.waits(shard);
    let brief = request.brief(shard);
    let _all = requests.len();
    match asked.reserve(1) {
        Ok(()) => {}
        Err(_) => return Err(Memory),
    }
    match waiting.insert_if(tx, waits) {
        Ok(()) => {}
        Err(_) => return Err(Memory),
    }
    match requests.insert(tx, request) {
        Ok(_) => {
            asked.set(tx, brief);
            waiting.keep_if(tx, waits);
            Ok(())
        }
        Err(_) => {
            waiting.keep_if(tx, false);
            Err(Memory)
        }
    }
}
