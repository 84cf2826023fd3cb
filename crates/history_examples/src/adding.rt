// Additions.

ghost use Rattle.history_examples.specs.Adding.{SumsWrap, NothingIsAddedToNoNumber, AddersStandBesideEachOther, UndoneBesideAnother, AddersReplay, AddersAreLegal, AddersAreSound, ReadersKeepAddersOut, AdditionsHaveOrder};

/// One transaction adds 3 to the greatest number, and has 2; where there is no record, nothing is added. The log has its UPDATE and its ADD,
/// and the history is legal and replays.
pub fn sums_wrap()
    ensures { SumsWrap }
{}

/// Nothing is added to a text, nor where the transaction itself deleted the number.
pub fn nothing_is_added_to_no_number()
    ensures { NothingIsAddedToNoNumber }
{}

/// Two transactions add to one key, the first of them closed: each holds I, and neither is the other's predecessor.
pub fn adders_stand_beside_each_other()
    ensures { AddersStandBesideEachOther }
{}

/// The second commits, and the first's other shard refuses it: what it added is taken away, and the second's sum stays.
pub fn undone_beside_another()
    ensures { UndoneBesideAnother }
{}

/// That history replays without the first.
pub fn adders_replay()
    ensures { AddersReplay }
{}

/// It is legal.
pub fn adders_are_legal()
    ensures { AddersAreLegal }
{}

/// And its states are sound.
pub fn adders_are_sound()
    ensures { AddersAreSound }
{}

/// Who adds over an older one's read dies, and who reads over a younger one's addition waits.
pub fn readers_keep_adders_out()
    ensures { ReadersKeepAddersOut }
{}

/// Which logs with additions are in order.
pub fn additions_have_order()
    ensures { AdditionsHaveOrder }
{}
