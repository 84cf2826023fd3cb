//! The part of a transaction.
ghost use Rattle.std.specs.Prelude.{◌≡◌, is_some, OnOk, OnErr};
ghost use Rattle.clv_base.specs.Orders.{tx_get};
ghost use Rattle.clv_base.specs.OneShard.{new_part};

use clv_base::names::{Birth, TxId};
use clv_base::state::{Held, Stage};
use lock_table::Memory;
use tx_table::PartTable;

/// The transaction has a part here from its first operation on; `known` says whether it has one already. An `Err` changes nothing.
pub fn enter_part(parts: &mut PartTable, tx: TxId, birth: Birth, known: bool) -> Result<(), Memory>
    requires { known ≡ is_some (tx_get tx parts.old.entries) }
    ensures ok { OnOk result (parts.new.entries ≡ new_part tx birth (tx_get tx parts.old.entries) parts.old.entries) }
    ensures err { OnErr result (parts.new.entries ≡ parts.old.entries) }
{
    if known {
        return Ok(());
    }
    let part = Held {
        birth,
        stage: Stage::Active,
        is_restored: false,
        is_dropped: false,
    };
    match parts.enter(tx, part) {
        Ok(()) => Ok(()),
        Err(_) => Err(Memory),
    }
}
