// A machine, and where its gate is.

use crate::ListGate;
use machine_calls::Flight;

/// Where a machine's gate is, and the batch in flight.
pub enum Air {
    /// The gate is with the machine, and nothing is in flight.
    Home,
    /// The gate is out with the batch in flight.
    Away(Flight<ListGate>),
    /// The gate is with the machine, and the shard went down as the flush of these bytes failed.
    Lost(Vec<u8>),
}

/// A shard's machine.
pub struct Seat<M> {
    pub machine: M,
    pub air: Air,
}

/// What is left of where a gate was. Takes no memory.
pub(crate) fn let_go(air: Air) {
    match air {
        Air::Home | Air::Lost(_) => {}
        Air::Away(flight) => {
            let Flight {
                gate: _,
                as_taken: _,
                payload: _,
                upto: _,
            } = flight;
        }
    }
}
