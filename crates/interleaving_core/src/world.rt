// All shards together.
ghost use Rattle.std.specs.Prelude.{◌≡◌};

use crate::{ListGate, Seat, leave};
use clv_base::events::Entry;
use machine_calls::Machine;

/// The shards' machines, by their numbers, and the entries so far with their shards, by stamp, then shard.
pub struct World<M> {
    pub seats: Vec<Seat<M>>,
    pub history: Vec<(u32, Entry)>,
}

impl<M: Machine<Gate = ListGate>> World<M> {
    /// Ends the machines, and gives the history. Takes no memory.
    pub fn into_history(self) -> Vec<(u32, Entry)>
        ensures { result ≡ self.history }
    {
        let World { mut seats, history } = self;
        while let Some(seat) = seats.pop() {
            leave(seat);
        }
        seats.destroy_empty();
        history
    }
}
