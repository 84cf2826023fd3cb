// A session, from its first line to its end.
ghost use Rattle.std.specs.Prelude.{◌≡◌, IfErr};
ghost use Rattle.script_runs.specs.Ran.{IsIdle};
ghost use Rattle.script_runs.specs.Seen.{Keeps};
ghost use Rattle.live_sessions.specs.Served.{Goes, Closes, HasServed};

use crate::answering::{Course, Step, answer};
use crate::boxes::{Gone, Inbox, Outbox};
use script_runs::{SessionCalls, Stage, StopCause};
use std::alloc::Global;
use std::sync::Wait;

// The session's end: an open transaction is aborted, unless something stopped the session before.
fn close<C: SessionCalls>(alloc: Global, session: &mut C, course: Course) -> Result<(), StopCause>
    requires session { C.holds session.old }
    requires course { Goes (C.grounds session.old) course (C.seen session.old) (C.going session.old) }
    ensures session { C.holds session.new }
    ensures base { C.base session.new ≡ C.base session.old }
    ensures misses { Keeps (C.missed session.old) (C.missed session.new) }
    ensures closes { Closes course (C.seen session.old) (C.seen session.new) }
    ensures grounds { IfErr result (C.grounds session.new) }
{
    if let Some(cause) = course.ended {
        return Err(cause);
    }
    match session.stage() {
        Stage::Active { .. } => session.abort(alloc),
        _ => Ok(()),
    }
}

/// How a session ended.
#[derive(Clone, Copy)]
pub struct Ending {
    /// What stopped it, if anything did: further lines were refused.
    pub stopped: Result<(), StopCause>,
    /// Whether all its replies were told.
    pub all_told: bool,
}

/// Does the lines that come into the inbox, one after another, and tells the answer of each, until no more come or nobody takes answers any more; then an open
/// transaction is aborted.
///
/// What it adds to the session's entries is what its lines ask for, in order, and each answer tells of it. A line is refused for its cause alone.
pub fn serve_session<R: Wait, C: SessionCalls, I: Inbox, O: Outbox>(
    rt: &R,
    alloc: Global,
    session: &mut C,
    inbox: &mut I,
    outbox: &mut O,
) -> Ending
    requires session { C.holds session.old }
    requires idle { IsIdle (C.seen session.old) }
    ensures session { C.holds session.new }
    ensures base { C.base session.new ≡ C.base session.old }
    ensures misses { Keeps (C.missed session.old) (C.missed session.new) }
    ensures served { HasServed result.all_told (I.taken inbox.old) (I.taken inbox.new) (O.told outbox.old) (O.told outbox.new) (C.seen session.old) (C.seen session.new) }
    ensures grounds { IfErr result.stopped (C.grounds session.new) }
    ensures inbox { I.same inbox.old inbox.new }
    ensures outbox { O.same outbox.old outbox.new }
{
    let mut course = Course {
        may_retry: false,
        ended: None,
    };
    for _ in rt.forever() {
        let Some(asked) = inbox.take() else {
            return Ending {
                stopped: close(alloc, session, course),
                all_told: true,
            };
        };
        let Step {
            reply,
            course: next,
        } = answer(alloc, session, course, asked);
        course = next;
        match outbox.tell(reply) {
            Ok(()) => {}
            Err(Gone) => {
                return Ending {
                    stopped: close(alloc, session, course),
                    all_told: false,
                };
            }
        }
    }
    unreachable!()
}
