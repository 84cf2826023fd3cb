//! The end of parts that an abort takes away.
ghost use Rattle.std.specs.Prelude.{◌≡◌, [], ◌∷◌, true, Some, None};
ghost use Rattle.clv_base.specs.Undo.{gone_in, gone_part};
ghost use Rattle.clv_base.specs.OneShard.{marked_in, dropped_part, closed_in, closed_part};
ghost use Rattle.txn_core.specs.Sound.{is_in};

use clv_base::names::TxId;
use clv_base::state::{Held, Stage};
use tx_table::PartTable;

/// The part, taken away by this abort.
fn gone(part: Held, doom: TxId) -> Held
    ensures { result ≡ gone_part (Some doom) part }
{
    Held {
        stage: Stage::Gone { doom: Some(doom) },
        ..part
    }
}

/// The transaction's part is gone, by this abort. Takes no memory.
fn end_part(parts: &mut PartTable, tx: TxId, doom: TxId)
    ensures { parts.new.entries ≡ gone_in (tx ∷ []) (Some doom) parts.old.entries }
{
    let part = match parts.get(tx) {
        Some(part) => part,
        None => return,
    };
    parts.change(tx, gone(part, doom));
}

/// The part, of which a Drop came.
fn dropped(part: Held) -> Held
    ensures { result ≡ dropped_part part }
{
    Held {
        is_dropped: true,
        ..part
    }
}

/// The transaction's part, if there is one, is marked as dropped. Takes no memory.
pub(crate) fn mark_dropped(parts: &mut PartTable, tx: TxId)
    ensures { parts.new.entries ≡ marked_in tx parts.old.entries }
{
    let part = match parts.get(tx) {
        Some(part) => part,
        None => return,
    };
    parts.change(tx, dropped(part));
}

/// The parts of the transactions are gone, by this abort. Takes no memory.
pub(crate) fn end_parts(parts: &mut PartTable, txs: &[TxId], doom: TxId)
    ensures { parts.new.entries ≡ gone_in txs.now (Some doom) parts.old.entries }
{
    for tx in txs {
        end_part(parts, *tx, doom);
    }
}

/// The part, closed.
fn closed(part: Held) -> Held
    ensures { result ≡ closed_part part }
{
    Held {
        stage: Stage::Closed,
        ..part
    }
}

/// The transaction's part, which is here, is closed. Takes no memory.
pub(crate) fn close_in(parts: &mut PartTable, tx: TxId)
    requires { is_in parts.old.entries tx ≡ true }
    ensures { parts.new.entries ≡ closed_in tx parts.old.entries }
{
    let part = match parts.get(tx) {
        Some(part) => part,
        None => return,
    };
    parts.change(tx, closed(part));
}

/// The part, finished.
fn finished(part: Held) -> Held
    ensures { result ≡ gone_part None part }
{
    Held {
        stage: Stage::Gone { doom: None },
        ..part
    }
}

/// The transaction's part, if there is one, is gone, and no abort took it away. Takes no memory.
pub(crate) fn finish_in(parts: &mut PartTable, tx: TxId)
    ensures { parts.new.entries ≡ gone_in (tx ∷ []) None parts.old.entries }
{
    let part = match parts.get(tx) {
        Some(part) => part,
        None => return,
    };
    parts.change(tx, finished(part));
}
