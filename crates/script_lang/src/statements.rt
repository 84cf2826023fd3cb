// Laws of scripts.

ghost use Rattle.script_lang.specs.Laws.{RefusalsHaveOneLine, ScriptsAreNarrow, ScriptsAreNotRefused, ScriptsAreShort, ScriptsHaveFewSessions, ScriptsHaveOneMeaning};

/// A text is the script of one list of sessions alone.
pub fn scripts_have_one_meaning()
    ensures { ScriptsHaveOneMeaning }
{}

/// No script is refused.
pub fn scripts_are_not_refused()
    ensures { ScriptsAreNotRefused }
{}

/// What is refused is refused at one line alone.
pub fn refusals_have_one_line()
    ensures { RefusalsHaveOneLine }
{}

/// Numbers of a script are below 2^64, and texts have at most 200 bytes; a scan's bounds don't fall, and a move's keys differ.
pub fn scripts_are_narrow()
    ensures { ScriptsAreNarrow }
{}

/// A script has no more transactions and lines of transactions than bytes, and one.
pub fn scripts_are_short()
    ensures { ScriptsAreShort }
{}

/// A script has at most 64 sessions.
pub fn scripts_have_few_sessions()
    ensures { ScriptsHaveFewSessions }
{}
