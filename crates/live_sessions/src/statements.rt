// What a session's replies tell of its entries.
ghost use Rattle.live_sessions.specs.Replies.{RepliesTellEntries, RepliesAreTrue};

/// A session's entries are those that its lines made, one line after another, each as its reply tells, and then those of its end.
pub fn replies_tell_entries()
    ensures { RepliesTellEntries }
{}

/// So a reply "committed" is of a transaction that the entries acknowledge, all that they acknowledge have such a reply, and an answer is that of an operation whose
/// entries are there.
pub fn replies_are_true()
    ensures { RepliesAreTrue }
{}
