// Who voted read, and that no part of a member ever fell.

ghost use Rattle.headline_laws.specs.Passing.{ReadersPass};
ghost use Rattle.headline_laws.specs.Falling.{ReadersNeverFell, MembersNeverFell};

/// From a shard's vote of read on, the transaction has neither an UPDATE nor a COMMIT in its log.
pub fn readers_pass()
    ensures { ReadersPass }
{}

/// Where a shard voted read, the part there never fell.
pub fn readers_never_fell()
    ensures { ReadersNeverFell }
{}

/// Where a COMMIT of a transaction of this run is left on any shard, no part of it ever fell, on any shard.
pub fn members_never_fell()
    ensures { MembersNeverFell }
{}
