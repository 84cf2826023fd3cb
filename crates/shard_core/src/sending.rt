//! Messages leave.
ghost use Rattle.std.specs.Prelude.{◌≡◌, drop};
ghost use Rattle.clv_base.specs.Events.{finish, with_outbox};
ghost use Rattle.due_step.specs.Ready.{IsReady};
ghost use Rattle.due_step.specs.Sent.{first_of};
ghost use Rattle.shard_core.specs.Whole.{IsAtRest};

use crate::shard::ShardCore;
use clv_base::messages::Message;
use due_step::settle_due;
use lock_table::Locks;
use ordered_store::Store;

impl<S: Store + Drop, L: Locks + Drop> ShardCore<S, L> {
    /// The oldest message that waits.
    pub fn first_message(&self) -> Option<Message>
        ensures { result ≡ first_of (self.now.shard).outbox }
    {
        self.outbox.first()
    }

    /// The oldest message is out, before what is due then is done. Takes no memory.
    fn send_here(&mut self)
        requires { IsAtRest self.old }
        ensures ready { IsReady self.new.shard self.new.candidates self.new.limit }
        ensures finished { finish self.new.shard ≡ finish (with_outbox (drop 1 (self.old.shard).outbox) self.old.shard) }
    {
        self.outbox.leave_first();
        self.transactions.kept();
    }

    /// The oldest message, if there is one, is taken out. Takes no memory.
    pub fn leave_message(&mut self)
        requires { IsAtRest self.old }
        ensures sent { self.new.shard ≡ finish (with_outbox (drop 1 (self.old.shard).outbox) self.old.shard) }
        ensures rest { IsAtRest self.new }
    {
        self.send_here();
        settle_due(self);
    }
}
