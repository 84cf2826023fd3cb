// Records compared.
ghost use Rattle.std.specs.Prelude.{◌≡◌, ◌==◌};
ghost use Rattle.clv_base.specs.Orders.{tx_same};
ghost use Rattle.clv_base.specs.Values.{same_list};
ghost use Rattle.clv_base.specs.LogRules.{same_pair, same_record as same};

use clv_base::lists::TxList;
use clv_base::logs::LogRecord;
use clv_base::parts::ShardList;
use clv_base::values::{Value, are_same};

fn same_transactions(a: &TxList, b: &TxList) -> bool
    ensures { result ≡ same_list tx_same a.now b.now }
{
    a.as_slice() == b.as_slice()
}

fn same_shards(a: &ShardList, b: &ShardList) -> bool
    ensures { result ≡ same_list (λ x y. x == y) a.now b.now }
{
    a.as_slice() == b.as_slice()
}

fn same_pairs(a: &[(u64, Value)], b: &[(u64, Value)]) -> bool
    ensures { result ≡ same_list same_pair a.now b.now }
{
    a == b
}

/// Whether two records are the same.
pub(crate) fn same_record(a: &LogRecord, b: &LogRecord) -> bool
    ensures { result ≡ same a.now b.now }
{
    match (a, b) {
        (
            LogRecord::Update {
                tx,
                key,
                before,
                after,
            },
            LogRecord::Update {
                tx: other,
                key: at,
                before: old,
                after: new,
            },
        ) => tx == other && key == at && are_same(before, old) && are_same(after, new),
        (
            LogRecord::Clr {
                tx,
                undo_next,
                key,
                after,
            },
            LogRecord::Clr {
                tx: other,
                undo_next: next,
                key: at,
                after: new,
            },
        ) => tx == other && undo_next == next && key == at && are_same(after, new),
        (
            LogRecord::Prepare {
                tx,
                home,
                predecessors,
            },
            LogRecord::Prepare {
                tx: other,
                home: from,
                predecessors: listed,
            },
        ) => tx == other && home == from && same_transactions(predecessors, listed),
        (
            LogRecord::Commit { tx, parts },
            LogRecord::Commit {
                tx: other,
                parts: shards,
            },
        ) => tx == other && same_shards(parts, shards),
        (LogRecord::Abort { tx }, LogRecord::Abort { tx: other }) => tx == other,
        (LogRecord::End { tx }, LogRecord::End { tx: other }) => tx == other,
        (
            LogRecord::Restart { run, epoch },
            LogRecord::Restart {
                run: other,
                epoch: at,
            },
        ) => run == other && epoch == at,
        (
            LogRecord::Add { tx, key, by },
            LogRecord::Add {
                tx: other,
                key: at,
                by: much,
            },
        ) => tx == other && key == at && by == much,
        (
            LogRecord::Unadd {
                tx,
                undo_next,
                key,
                by,
            },
            LogRecord::Unadd {
                tx: other,
                undo_next: next,
                key: at,
                by: much,
            },
        ) => tx == other && undo_next == next && key == at && by == much,
        (LogRecord::Forgotten, LogRecord::Forgotten) => true,
        (
            LogRecord::Check {
                run,
                epoch,
                upto,
                base,
            },
            LogRecord::Check {
                run: other,
                epoch: at,
                upto: place,
                base: pairs,
            },
        ) => run == other
            && epoch == at
            && upto == place
            && same_pairs(base.as_slice(), pairs.as_slice()),
        _ => false,
    }
}
