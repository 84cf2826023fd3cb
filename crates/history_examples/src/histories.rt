// The histories of the examples.

ghost use Rattle.history_examples.specs.Histories.{Serial_found, Serial_lost, Legal_one, Serial_wide, Legal_wide, Legal_chain, Legal_repeats, Legal_small, Legal_readers, Opens_again, Final_state, One_is_legal, Phantoms_replay, Wide_reader_replays};

/// Where the writer is acknowledged, the serial history is the writer alone.
pub fn found_history_replays()
    ensures { Serial_found }
{}

/// Where both are lost, it is empty.
pub fn lost_history_replays()
    ensures { Serial_lost }
{}

/// The histories on one shard pass the tests of a legal one.
pub fn histories_are_legal()
    ensures { Legal_one }
{}

/// Where P and T commit over three shards, P stands before T, and the logs do not disagree.
pub fn wide_history_replays()
    ensures { Serial_wide }
{}

/// Those histories pass the tests of a legal one.
pub fn wide_histories_are_legal()
    ensures { Legal_wide }
{}

/// So do those of the chain and of the split gap.
pub fn chain_is_legal()
    ensures { Legal_chain }
{}

/// So do those with repeated messages.
pub fn repeated_messages_are_legal()
    ensures { Legal_repeats }
{}

/// So do the small ones.
pub fn small_examples_are_legal()
    ensures { Legal_small }
{}

/// So do the history with scans and the one with a reader of two shards.
pub fn reader_histories_are_legal()
    ensures { Legal_readers }
{}

/// The logs that a crash leaves may be opened again, under splits that fit them and under no others.
pub fn logs_open_again()
    ensures { Opens_again }
{}

/// The entries of a history alone lead to the state that the steps led to.
pub fn journal_leads_to_state()
    ensures { Final_state }
{}

/// One whole history is legal by the definition itself.
pub fn one_history_is_legal()
    ensures { One_is_legal }
{}

/// The history with scans replays, in the order of its requests.
pub fn phantoms_replay()
    ensures { Phantoms_replay }
{}

/// The history with a reader of two shards replays: the writer before the reader.
pub fn wide_reader_replays()
    ensures { Wide_reader_replays }
{}
