// Laws of what came.

ghost use Rattle.record_stream.specs.Streams.{BeginningsBegin, CameBegins, CameOnce, CuttingIsNothing};

/// Which records came whole, and which bytes wait, is a matter of the bytes alone.
pub fn what_came_is_one()
    ensures { CameOnce }
{}

/// Where records came whole, and what waits is of an unfinished one, the bytes are the beginning of records' spellings.
pub fn what_came_is_a_beginning()
    ensures { CameBegins }
{}

/// What isn't the beginning of records' spellings is none with more bytes behind it.
pub fn beginnings_begin()
    ensures { BeginningsBegin }
{}

/// Two pieces, one behind the other, are one: cutting changes nothing.
pub fn cutting_changes_nothing()
    ensures { CuttingIsNothing }
{}
