//! Whether anything is left to do.
ghost use Rattle.std.specs.Prelude.{◌≡◌, true};
ghost use Rattle.std.specs.List.{list_all};
ghost use Rattle.machine_calls.specs.Settled.{is_flushed as is_flushed_in, is_state_ended, is_request_settled, are_inactive, is_settled as is_settled_in};

use crate::shard::ShardCore;
use clv_base::names::TxId;
use clv_base::state::RequestState;
use lock_table::Locks;
use ordered_store::Store;
use two_phase_commit::Kept;

impl<S: Store + Drop, L: Locks + Drop> ShardCore<S, L> {
    /// Whether all of the log is durable.
    fn is_flushed(&self) -> bool
        ensures { result ≡ is_flushed_in self.now.shard }
    {
        self.durable() == self.log_end() && self.flight().is_none()
    }

    /// Whether a request is decided, and each part of its COMMIT has acknowledged it.
    fn is_ended(&self, tx: TxId, request: &Kept) -> bool
        ensures { result ≡ is_request_settled ((self.now.shard).local).log tx request.now }
    {
        match request.state() {
            RequestState::Undecided => self.is_committed(tx),
            RequestState::Committed { parts } => parts.as_slice().is_empty() || request.is_ended(),
            RequestState::Finished | RequestState::Refused { .. } => true,
        }
    }

    /// The same of each request.
    fn are_ended(&self) -> bool
        ensures { result ≡ list_all (λ q. is_request_settled ((self.now.shard).local).log q.0 q.1) (self.now.shard).requests }
    {
        self.coordinator
            .requests()
            .all(|(tx, request)| self.is_ended(*tx, request))
    }

    /// Whether nothing is left to do here but for active parts: nothing is buffered or in flight, no message waits, no closed part is undecided, and
    /// each request is decided and acknowledged, as on a shard that is up. It goes through all parts and requests of the epoch.
    pub fn is_settled(&self) -> bool
        ensures { result ≡ is_settled_in (record self.now.shard { is_up = true }) }
    {
        self.is_flushed()
            && self.first_message().is_none()
            && self.transactions.are_decided()
            && self.are_ended()
    }

    /// Whether no part is active here. It goes through all parts of the epoch.
    pub fn is_inactive(&self) -> bool
        ensures { result ≡ are_inactive ((self.now.shard).local).parts }
    {
        self.transactions.are_inactive()
    }
}
