// Operations that were done in one order, replayed in another.

ghost use Rattle.clv_base.specs.Folding.{ReplaysByPlace, IsSerialRun};

/// Operations that were done in one order replay by the places of their transactions, with the same answers and to the same map,
/// where none of a lower place comes later and meets an earlier one at a key that one of them writes.
pub fn operations_replay_by_place()
    ensures { ReplaysByPlace }
{}

/// Such operations are, transaction by transaction, a serial run with their answers and their map.
pub fn operations_are_a_serial_run()
    ensures { IsSerialRun }
{}
