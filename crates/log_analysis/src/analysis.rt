// What becomes of the transactions of a log.

ghost use Rattle.std.specs.Prelude.{◌≡◌, not, IfOk};
ghost use Rattle.std.specs.List.{filter};
ghost use Rattle.clv_base.specs.Logs.{in_doubt as in_doubt_in};
ghost use Rattle.clv_base.specs.Restarts.{losers as losers_in, homes_of, restored_pairs, unended_in};
ghost use Rattle.log_analysis.specs.Facts.{Knows};
ghost use Rattle.log_analysis.specs.Doubt.{settles};

use crate::doubt::{doubted, is_committed, pairs_of, with_homes};
use crate::unended::unended;
use crate::writers::writers;
use crate::{LogFacts, Memory, TxSet};
use clv_base::logs::LogRecord;
use clv_base::names::TxId;
use clv_base::parts::ShardList;
use std::alloc::Global;

/// What becomes of the transactions of a log at a restart. Each list goes by rising transaction, and the pairs of one
/// transaction in the order in which its PREPARE lists its predecessors.
#[derive(Drop)]
pub struct Analysis {
    /// The transactions with an UPDATE that stands, which are neither committed nor in doubt here.
    pub losers: Vec<TxId>,
    /// Those in doubt, each with its home.
    pub in_doubt: Vec<(TxId, u32)>,
    /// Each of those in doubt with each predecessor that its PREPARE lists and that has no COMMIT here.
    pub pairs: Vec<(TxId, TxId)>,
    /// The transactions that have a COMMIT with parts and no END, each with the parts.
    pub unended: Vec<(TxId, ShardList)>,
}

// The writers that are neither committed nor in doubt.
fn without_winners(
    alloc: Global,
    facts: &LogFacts,
    in_doubt: &TxSet,
    writers: &[TxId],
) -> Result<Vec<TxId>, Memory>
    ensures { IfOk result (λ losers. losers.items ≡ filter (λ t. not (settles facts.now in_doubt.now t)) writers.now) }
{
    writers
        .iter()
        .copied()
        .filter(|tx| !(is_committed(facts, *tx) || in_doubt.contains(*tx)))
        .collect(alloc)
}

// The losers, by those that are in doubt.
#[tactic(auto, using(crate::proofs::Doubted::losers_are))]
fn losers(
    alloc: Global,
    facts: &LogFacts,
    records: &[LogRecord],
    shard: u32,
    in_doubt: &TxSet,
) -> Result<Vec<TxId>, Memory>
    requires facts { Knows facts.now records.now }
    requires in_doubt { in_doubt.now ≡ in_doubt_in shard records.now }
    ensures { IfOk result (λ losers. losers.items ≡ losers_in shard records.now) }
{
    let writers = writers(alloc, facts, records)?.to_vec(alloc)?;
    without_winners(alloc, facts, in_doubt, writers.as_slice())
}

/// What becomes of the transactions of a log at a restart of this shard, where it is known already what the log says of each: the four lists
/// are exactly those of the definitions, for every log, in order or not. `Memory` comes for want of memory alone. Takes time linear in the log
/// and in what its PREPAREs list, times a logarithm.
pub fn analyse_by(
    alloc: Global,
    facts: &LogFacts,
    records: &[LogRecord],
    shard: u32,
) -> Result<Analysis, Memory>
    requires { Knows facts.now records.now }
    ensures losers { IfOk result (λ a. a.losers.items ≡ losers_in shard records.now) }
    ensures in_doubt { IfOk result (λ a. a.in_doubt.items ≡ homes_of records.now (in_doubt_in shard records.now)) }
    ensures pairs { IfOk result (λ a. a.pairs.items ≡ restored_pairs records.now (in_doubt_in shard records.now)) }
    ensures unended { IfOk result (λ a. a.unended.items ≡ unended_in records.now records.now) }
{
    let in_doubt = doubted(alloc, facts, records, shard)?;
    let doubted = in_doubt.to_vec(alloc)?;
    Ok(Analysis {
        losers: losers(alloc, facts, records, shard, &in_doubt)?,
        in_doubt: with_homes(alloc, facts, records, doubted.as_slice())?,
        pairs: pairs_of(alloc, facts, records, doubted.as_slice())?,
        unended: unended(alloc, facts, records)?,
    })
}

/// The same of a log of which nothing is known yet.
pub fn analyse(alloc: Global, records: &[LogRecord], shard: u32) -> Result<Analysis, Memory>
    ensures losers { IfOk result (λ a. a.losers.items ≡ losers_in shard records.now) }
    ensures in_doubt { IfOk result (λ a. a.in_doubt.items ≡ homes_of records.now (in_doubt_in shard records.now)) }
    ensures pairs { IfOk result (λ a. a.pairs.items ≡ restored_pairs records.now (in_doubt_in shard records.now)) }
    ensures unended { IfOk result (λ a. a.unended.items ≡ unended_in records.now records.now) }
{
    let facts = LogFacts::of_log(alloc, records)?;
    analyse_by(alloc, &facts, records, shard)
}
