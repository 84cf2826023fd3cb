// The end of a seat.
ghost use Rattle.std.specs.Prelude.{◌≡◌};

use crate::ListGate;
use crate::seat::{Seat, let_go};
use clv_base::events::Entry;
use machine_calls::{Machine, Parts};
use quiet_list::Told;

/// Takes a seat apart, and gives the journal. Takes no memory.
pub fn leave<M: Machine<Gate = ListGate>>(seat: Seat<M>) -> Told<Entry>
    ensures { result.items ≡ (M.shard seat.machine).journal }
{
    let Seat { machine, air } = seat;
    let_go(air);
    let Parts {
        gate: _,
        store: _,
        journal,
    } = machine.into_parts();
    journal
}
