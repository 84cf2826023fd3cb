// Where a session's lines come from, and where its answers go.
ghost use Rattle.std.specs.Prelude.{◌≡◌, ◌++◌, ◌∷◌, [], List, OnOk, OnErr};
ghost use Rattle.live_lines.specs.declared.calls.Asked.{Asked as AskedIs};
ghost use Rattle.live_lines.specs.declared.calls.Reply.{Reply as ReplyIs};
ghost use Rattle.live_sessions.specs.Served.{listed};

use live_lines::{Asked, Reply};

/// Lines for a session.
pub trait Inbox {
    /// The lines that were taken so far.
    ghost taken: { Self → List AskedIs };

    /// The same box, whatever was taken of it.
    ghost same: { Self → Self → Type 0 };

    /// Waits for the next line. None comes where there will be none any more, or no more are to be done.
    fn take(&mut self) -> Option<Asked>
        ensures taken { taken self.new ≡ taken self.old ++ listed result }
        ensures same { same self.old self.new };

    ghost itself: { (a : Self) → same a a };

    ghost still: { (a b c : Self) → same a b → same b c → same a c };
}

/// Nobody takes answers any more.
#[derive(Clone, Copy, PartialEq, Eq)]
pub struct Gone;

/// Answers of a session.
pub trait Outbox {
    /// The answers that were told so far.
    ghost told: { Self → List ReplyIs };

    /// The same box, whatever was told.
    ghost same: { Self → Self → Type 0 };

    /// Waits for room, and tells an answer.
    fn tell(&mut self, reply: Reply) -> Result<(), Gone>
        ensures ok { OnOk result (told self.new ≡ told self.old ++ reply ∷ []) }
        ensures gone { OnErr result (told self.new ≡ told self.old) }
        ensures same { same self.old self.new };

    ghost itself: { (a : Self) → same a a };

    ghost still: { (a b c : Self) → same a b → same b c → same a c };
}
