// Lists of transactions and of shards as bytes.

ghost use Rattle.std.specs.Prelude.{◌≡◌, ◌≤◌, ◌+◌, ◌*◌, ◌++◌, length, vec_len, vec_capacity};
ghost use Rattle.log_records.specs.Reading.{Gives, each_at, number_at, several_at, transaction_at};
ghost use Rattle.log_records.specs.Spelling.{number, several, transaction};

use crate::error::DecodeError;
use crate::numbers::{put_tx, put_u32, tx_at, u32_at};
use clv_base::lists::TxList;
use clv_base::names::TxId;
use clv_base::parts::ShardList;
use std::alloc::Global;

// The most predecessors that a record lists, and the most shards.
const PREDECESSORS: u32 = 1024;

const PARTS: u32 = 15;

fn each_tx_at(alloc: Global, count: u32, bytes: &[u8]) -> Result<(TxList, &[u8]), DecodeError>
    ensures { Gives (λ x. (x.0, x.1.now)) result (each_at transaction_at count bytes.now) }
{
    let mut txs = Vec::new(alloc);
    let mut rest = bytes;
    for _ in 0..count {
        let (tx, after) = tx_at(rest)?;
        txs.push(tx)?;
        rest = after;
    }
    Ok((TxList::new(txs), rest))
}

fn each_shard_at(count: u32, bytes: &[u8]) -> Result<(ShardList, &[u8]), DecodeError>
    requires { count ≤ 15 }
    ensures { Gives (λ x. (x.0, x.1.now)) result (each_at (number_at 4) count bytes.now) }
{
    let mut shards = ShardList::new();
    let mut rest = bytes;
    for _ in 0..count {
        let (shard, after) = u32_at(rest)?;
        shards.push(shard);
        rest = after;
    }
    Ok((shards, rest))
}

#[tactic(auto, unfolding(crate::specs::Reading::several_at))]
pub fn txs_at(alloc: Global, bytes: &[u8]) -> Result<(TxList, &[u8]), DecodeError>
    ensures { Gives (λ x. (x.0, x.1.now)) result (several_at transaction_at 1024 bytes.now) }
{
    let (count, rest) = u32_at(bytes)?;
    if count > PREDECESSORS {
        return Err(DecodeError::Bad);
    }
    each_tx_at(alloc, count, rest)
}

#[tactic(auto, unfolding(crate::specs::Reading::several_at))]
pub fn shards_at(bytes: &[u8]) -> Result<(ShardList, &[u8]), DecodeError>
    ensures { Gives (λ x. (x.0, x.1.now)) result (several_at (number_at 4) 15 bytes.now) }
{
    let (count, rest) = u32_at(bytes)?;
    if count > PARTS {
        return Err(DecodeError::Bad);
    }
    each_shard_at(count, rest)
}

#[tactic(auto, unfolding(crate::specs::Spelling::several))]
pub fn put_txs(out: &mut Vec<u8>, txs: &[TxId])
    requires count { length txs.now ≤ 1024 }
    requires space { vec_len out.old + (4 + 16 * length txs.now) ≤ vec_capacity out.old }
    ensures items { out.new.items ≡ out.old.items ++ several transaction txs.now }
    ensures len { vec_len out.new ≡ vec_len out.old + (4 + 16 * length txs.now) }
    ensures room { vec_capacity out.old ≤ vec_capacity out.new }
{
    put_u32(out, txs.len() as u32);
    for tx in txs {
        put_tx(out, *tx);
    }
}

#[tactic(auto, unfolding(crate::specs::Spelling::several))]
pub fn put_shards(out: &mut Vec<u8>, shards: &[u32])
    requires count { length shards.now ≤ 15 }
    requires space { vec_len out.old + (4 + 4 * length shards.now) ≤ vec_capacity out.old }
    ensures items { out.new.items ≡ out.old.items ++ several (number 4) shards.now }
    ensures len { vec_len out.new ≡ vec_len out.old + (4 + 4 * length shards.now) }
    ensures room { vec_capacity out.old ≤ vec_capacity out.new }
{
    put_u32(out, shards.len() as u32);
    for shard in shards {
        put_u32(out, *shard);
    }
}
