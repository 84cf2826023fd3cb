//! Messages that wait.
ghost use Rattle.std.specs.Prelude.{◌≡◌, ◌<◌, ◌+◌, ◌++◌, ◌∷◌, [], drop, min, OnOk, OnErr};
ghost use Rattle.due_step.specs.Sent.{first_of};

use clv_base::messages::Message;
use std::alloc::{AllocError, Global};
use std::collections::VecDeque;
use std::marker::Model;

/// Messages that wait to be sent, the oldest first.
#[derive(Drop)]
pub struct Outbox {
    messages: VecDeque<Message>,
    reserved: usize,
}

impl Model for Outbox {
    ghost use Rattle.std.specs.Prelude.{◌≤◌, ◌+◌};
    ghost use Rattle.std.specs.VecDeque.{deque_len, deque_capacity};
    ghost use Rattle.due_step.specs.Sent.{Waiting};

    ghost Value = { Waiting };

    ghost view = { λ o. record { messages = o.messages.items; room = o.reserved } };

    ghost invariant = { λ o. deque_len o.messages + o.reserved ≤ deque_capacity o.messages };
}

impl Outbox {
    /// No message, and no room. Takes no memory.
    pub fn new(alloc: Global) -> Self
        ensures { (result.messages ≡ []) × (result.room ≡ 0) }
    {
        Outbox {
            messages: VecDeque::new(alloc),
            reserved: 0,
        }
    }

    /// Makes room for so many messages on top of what was reserved. Where there is no memory all stays.
    pub fn reserve(&mut self, count: usize) -> Result<(), AllocError>
        ensures ok { OnOk result (self.new ≡ record self.old { room = self.old.room + count }) }
        ensures err { OnErr result (self.new ≡ self.old) }
    {
        let Some(all) = self.reserved.checked_add(count) else {
            return Err(AllocError);
        };
        self.messages.reserve(all)?;
        self.reserved = all;
        Ok(())
    }

    /// For how many messages more room is reserved.
    pub fn room(&self) -> usize
        ensures { result ≡ self.now.room }
    {
        self.reserved
    }

    /// Gives back the room that is beyond so many messages. Takes no memory; what was given back is there for whoever reserves next.
    pub fn trim(&mut self, keep: usize)
        ensures { self.new ≡ record self.old { room = min self.old.room keep } }
    {
        self.reserved = self.reserved.min(keep);
    }

    /// Puts a message behind the others. Takes no memory.
    pub fn push(&mut self, message: Message)
        requires { 0 < self.old.room }
        ensures messages { self.new.messages ≡ self.old.messages ++ message ∷ [] }
        ensures room { self.old.room ≡ self.new.room + 1 }
    {
        let Ok(()) = self.messages.push_back(message) else {
            unreachable!()
        };
        self.reserved -= 1;
    }

    /// The oldest message.
    pub fn first(&self) -> Option<Message>
        ensures { result ≡ first_of self.now.messages }
    {
        self.messages.front().copied()
    }

    /// The oldest message is taken out. Takes no memory.
    pub fn leave_first(&mut self)
        ensures messages { self.new.messages ≡ drop 1 self.old.messages }
        ensures room { self.new.room ≡ self.old.room }
    {
        self.messages.pop_front();
    }
}
