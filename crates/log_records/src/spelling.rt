// Laws of spellings.

ghost use Rattle.log_records.specs.Laws.{LengthIsSize, LengthIsSizeInFile, NoneBeginsAnother, NoneBeginsAnotherInFile, SpelledOneWay, SpellsOne, SpellsOneInFile};

/// A record has at most one spelling.
pub fn at_most_one_spelling()
    ensures { SpelledOneWay }
{}

/// No bytes spell two records.
pub fn at_most_one_record()
    ensures { SpellsOne }
{}

/// No spelling is the beginning of another: where a spelling and more bytes are a spelling and more bytes, the
/// records are the same, and so is what follows.
pub fn no_spelling_begins_another()
    ensures { NoneBeginsAnother }
{}

/// A spelling is as long as its record's size.
pub fn length_is_size()
    ensures { LengthIsSize }
{}

/// No bytes spell two of a file's records.
pub fn at_most_one_record_in_file()
    ensures { SpellsOneInFile }
{}

/// No spelling in a file is the beginning of another.
pub fn no_spelling_begins_another_in_file()
    ensures { NoneBeginsAnotherInFile }
{}

/// A spelling in a file is as long as its record's size.
pub fn length_is_size_in_file()
    ensures { LengthIsSizeInFile }
{}
