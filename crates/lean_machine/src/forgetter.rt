// What a machine that forgets asks of the one that it stands on.
ghost use Rattle.std.specs.Prelude.{◌≡◌, None, Some, slice_get};
ghost use Rattle.std.specs.Option.{option_copied};
ghost use Rattle.std.specs.List.Sorted.{IsStrictlySortedBy};
ghost use Rattle.std.specs.Map.{keys_of};
ghost use Rattle.clv_base.specs.declared.state.Stage.TheVariants.{Gone};
ghost use Rattle.clv_base.specs.Orders.{tx_cmp, tx_get, tx_drop};
ghost use Rattle.clv_base.specs.Undo.{stage_of};
ghost use Rattle.two_phase_commit.specs.Completed.{is_spent as is_spent_in};

use clv_base::logs::LogRecord;
use clv_base::names::TxId;
use machine_calls::Machine;
use two_phase_commit::Kept;

/// A machine of which a request's row can be taken.
pub trait Forgetter: Machine {
    /// Whether nothing asks for the transaction's request any more: its part here is finished, its COMMIT is in the log, and the request is complete.
    /// False where it has none here.
    fn is_spent(&self, tx: TxId) -> bool
        ensures { result ≡ is_spent_in (Self.shard self.now) tx };

    /// The records below this LSN are durable.
    fn durable(&self) -> u64
        ensures { result ≡ (Self.shard self.now).durable };

    /// The record at an LSN, if there is one.
    fn record_at(&self, lsn: u64) -> Option<&LogRecord>
        ensures { option_copied result ≡ slice_get (Self.shard self.now).local.log lsn };

    /// The transaction's request, if it has one, is kept no more, where its part here is finished, and given away. Takes no memory.
    fn forget_request(&mut self, tx: TxId) -> Option<Kept>
        requires finished { stage_of (Self.shard self.old).local tx ≡ Some (Gone None) }
        ensures given { result ≡ tx_get tx (Self.shard self.old).requests }
        ensures rising { IsStrictlySortedBy tx_cmp (keys_of (Self.shard self.old).requests) }
        ensures shard { Self.shard self.new ≡ record (Self.shard self.old) { requests = tx_drop tx (Self.shard self.old).requests } }
        ensures gate { Self.gate self.new ≡ Self.gate self.old };
}
