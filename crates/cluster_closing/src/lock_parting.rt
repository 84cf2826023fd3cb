// A machine taken apart.
ghost use Rattle.std.specs.Prelude.{◌≡◌};

use cluster_turns::Home;
use machine_calls::{Machine, Parts};

/// What a shard is made of at the end of a cluster: its gate, its records and its journal, by move. Takes no memory.
pub fn take_apart<M: Machine>(home: Home<M>) -> Parts<M::Store, M::Gate>
    ensures gate { result.gate ≡ M.gate home.machine }
    ensures store { M.Store.records result.store ≡ (M.shard home.machine).local.records }
    ensures journal { result.journal.items ≡ (M.shard home.machine).journal }
{
    let Home {
        machine,
        origin: _,
        marks: _,
    } = home;
    machine.into_inner().into_parts()
}
