// From journals to histories.

ghost use Rattle.journal_laws.specs.Births.{FreeBirthsStay, OpenedHasNone, OthersLeaveBirths, NewBirthsAreFree};
ghost use Rattle.journal_laws.specs.Endings.{RunsFindActive, InactiveIsFree, EndsFree, RestartsFree, ActiveWereAnswered};
ghost use Rattle.journal_laws.specs.Gathered.{GatheredIsLegal};
ghost use Rattle.clv_base.specs.Machines.{RunsGoOn, RunsFit};
ghost use Rattle.journal_laws.specs.Notes.{NotesAreRuns, NotesGoOn, NotesAreSeen, NotesAreShared, HeldShardsRest, EntriesDoNotTell};
ghost use Rattle.journal_laws.specs.Offers.{EachOutcomeGoesOn, FlyingIsInTime};
ghost use Rattle.journal_laws.specs.Views.{OwnEntriesGoOn, ViewsAreLegal};
ghost use Rattle.journal_laws.specs.Walkers.{WalkersBegin, WalkersGoOn, OthersKeepSessions};
ghost use Rattle.journal_laws.specs.Worlds.{StepsKeepSteady, SteadyIsLegal, RunEventsIsLegal, EmptyLogsMayBeOpened};

/// A run of a shard with one entry more is a run.
pub fn runs_go_on()
    ensures { RunsGoOn }
{}

/// What a shard's machine keeps is a run by the log at the end, whatever a crash leaves, and it leads to the machine's state.
pub fn runs_fit()
    ensures { RunsFit }
{}

/// A walker keeps the rules before its first entry.
pub fn walkers_begin()
    ensures { WalkersBegin }
{}

/// It keeps them with one entry more that comes after all of its own, goes on its session and delivers only what it sent.
pub fn walkers_go_on()
    ensures { WalkersGoOn }
{}

/// An event that no session makes goes on every session.
pub fn others_keep_sessions()
    ensures { OthersKeepSessions }
{}

/// What a cluster has in hand at its end makes a legal history, of which each walker's own entries are those that it kept.
pub fn gathered_is_legal()
    ensures { GatheredIsLegal }
{}

/// A step keeps a world steady, whatever it is.
pub fn steps_keep_steady()
    ensures { StepsKeepSteady }
{}

/// The history of a steady world is legal, whatever a crash leaves now.
pub fn steady_is_legal()
    ensures { SteadyIsLegal }
{}

/// So is each world's that makes steps from empty logs.
pub fn run_events_is_legal()
    ensures { RunEventsIsLegal }
{}

/// Where no other transaction of a birth has an active part on a shard, none has one after entries without an operation of that birth.
pub fn free_births_stay()
    ensures { FreeBirthsStay }
{}

/// No transaction has an active part where a log was opened.
pub fn opened_has_none()
    ensures { OpenedHasNone }
{}

/// Entries of other walkers have no operation of a walker's birth.
pub fn others_leave_births()
    ensures { OthersLeaveBirths }
{}

/// The entries of notes are a run, to the state that the notes tell.
pub fn notes_are_runs()
    ensures { NotesAreRuns }
{}

/// Notes with one more are notes.
pub fn notes_go_on()
    ensures { NotesGoOn }
{}

/// What a pass has seen of the notes tells the state then, and the rest goes on from it.
pub fn notes_are_seen()
    ensures { NotesAreSeen }
{}

/// A walker's entries of a journal are those of its notes.
pub fn notes_are_shared()
    ensures { NotesAreShared }
{}

/// While a walker has a shard's disk, nothing is noted there but by it.
pub fn held_shards_rest()
    ensures { HeldShardsRest }
{}

/// Entries alone do not tell the state: the same ones lead to two logs, by what a restart found.
pub fn entries_do_not_tell()
    ensures { EntriesDoNotTell }
{}

/// What a session may make goes on it, whatever the outcome.
pub fn each_outcome_goes_on()
    ensures { EachOutcomeGoesOn }
{}

/// While a shard that is up has records in flight, its stamps are below the bound.
pub fn flying_is_in_time()
    ensures { FlyingIsInTime }
{}

/// A birth of a walker is free on a shard where none of its own operations so far has it.
pub fn new_births_are_free()
    ensures { NewBirthsAreFree }
{}

/// A walker's own entries, as its passes have them, go on at their end where it makes one more.
pub fn own_entries_go_on()
    ensures { OwnEntriesGoOn }
{}

/// What a cluster has in hand at its end makes a legal history, by what each pass has of its own.
pub fn views_are_legal()
    ensures { ViewsAreLegal }
{}

/// In every run the table gives each active part under its name.
pub fn runs_find_active()
    ensures { RunsFindActive }
{}

/// A birth that one transaction alone may be active with is free where that one isn't active.
pub fn inactive_is_free()
    ensures { InactiveIsFree }
{}

/// It is free after that transaction died there, made its request or was dropped.
pub fn ends_free()
    ensures { EndsFree }
{}

/// Every birth is free after a restart.
pub fn restarts_free()
    ensures { RestartsFree }
{}

/// Logs of shards that were just made may be opened.
pub fn empty_logs_may_be_opened()
    ensures { EmptyLogsMayBeOpened }
{}

/// In every run who is active was answered in the shard's epoch.
pub fn active_were_answered()
    ensures { ActiveWereAnswered }
{}
