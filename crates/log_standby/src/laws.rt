// Laws of feeding.

ghost use Rattle.log_standby.specs.Feeding.{CutsChangeNothing, FedOneWay, StreamsAreFed};

/// A piece and then another one are fed as both together: what a standby has depends on the bytes alone.
pub fn cuts_change_nothing()
    ensures { CutsChangeNothing }
{}

/// What comes of a piece is one thing.
pub fn fed_one_way()
    ensures { FedOneWay }
{}

/// What a shard was fed, spelled out, is its bytes: the records that came whole, and what waits.
pub fn streams_are_fed()
    ensures { StreamsAreFed }
{}
