// What leaves a walker without a gate. `T` is what lies in the locks.
ghost use Rattle.cluster_closing.specs.EndLaws.{NewWalkersHaveLanded, EventsLand, FlushesLand, MessagesLand, DrainsLand};

/// A new walker has the gate of no shard.
pub fn new_walkers_have_landed<T>()
    ensures { NewWalkersHaveLanded T }
{}

/// Nor has it after an event of one call.
pub fn events_land<T>()
    ensures { EventsLand T }
{}

/// Nor after a flush, whatever comes of it: the gate that it took it brought back.
pub fn flushes_land<T>()
    ensures { FlushesLand T }
{}

/// Nor after a message.
pub fn messages_land<T>()
    ensures { MessagesLand T }
{}

/// Nor after a drain.
pub fn drains_land<T>()
    ensures { DrainsLand T }
{}
