//! A transaction's name as the key of a hash map.

use clv_base::names::TxId;
use std::hash::{Hash, Hasher};

/// The name of a transaction.
#[derive(Clone, Copy, PartialEq, Eq)]
pub(crate) struct Key {
    run: u32,
    session: u32,
    serial: u64,
}

impl Key {
    ghost use Rattle.std.specs.Prelude.{◌≡◌};
    ghost use Rattle.tx_table.specs.Keys.{key_of, mixed};

    /// The key of a transaction.
    pub(crate) fn new(tx: TxId) -> Key
        ensures { result ≡ key_of tx }
    {
        Key {
            run: tx.run,
            session: tx.session,
            serial: tx.serial,
        }
    }

    // The three numbers as one. Names with the same one are told apart by comparing them, so it need only be so in few cases.
    fn mixed(self) -> u64
        ensures { result ≡ mixed self }
    {
        (self.serial.wrapping_mul(64))
            .wrapping_add(self.session as u64)
            .wrapping_add((self.run as u64).wrapping_mul(SPREAD))
    }
}

// Runs are apart by so much.
const SPREAD: u64 = 0x9e37_79b9_7f4a_7c15;

// One write for all three.
impl Hash for Key {
    ghost use Rattle.std.specs.Hash as fed;
    ghost use Rattle.std.proofs.Common.{rules};
    ghost use Rattle.tx_table.specs.Keys.{mixed};

    ghost hash_input = { λ k. fed.u64 (mixed k) };

    ghost respects_eq = { Prim.search rules };

    fn hash<H: Hasher>(&self, state: &mut H) {
        state.write_u64(self.mixed());
    }
}
