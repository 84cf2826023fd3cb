// Acts that were done in one order, replayed in another.

ghost use Rattle.clv_base.specs.Backs.{ActsAreSerialRun};

/// Operations and goings back that were done in one order are, transaction by transaction in the order of their places, a serial run with their
/// answers and their map: where each operation is answered by the map of the earlier ones that nobody had gone back over by then, where what an
/// act meets never clashes with an earlier act of a greater place, and where each transaction goes back only to what it has not gone back over.
pub fn acts_are_serial_run()
    ensures { ActsAreSerialRun }
{}
