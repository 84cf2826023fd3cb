// What a line of the input asks for.

ghost use Rattle.std.specs.Prelude.{◌≡◌, ℕ, List, MatchOption, IfOk, OnErr};
ghost use Rattle.script_lang.specs.Grammar.{PutsText};
ghost use Rattle.live_lines.specs.declared.calls.Call.{Call as ACall};
ghost use Rattle.live_lines.specs.Requests.{IsHead, IsCall, Asks, Reads, call_in};

use crate::Memory;
use crate::calls::{Asked, Call};
use script_lang::{Action, Ending, Line, is_blank, line_of, number_of, parted};
use std::alloc::Global;

/// What a line of the input is.
#[derive(Drop)]
pub enum Request {
    /// Nothing: an empty line, or a comment.
    Blank,
    /// It names this session.
    Of { session: u64, asked: Asked },
    /// It names none.
    NoSession,
}

// The number of a session that stands before the first space, and what follows it.
fn head_of(bytes: &[u8], sessions: u64) -> Option<(u64, &[u8])>
    ensures { MatchOption result ((s : ℕ) (rest : List ℕ) → IsHead sessions bytes.now s rest → ⊥) (λ p. IsHead sessions bytes.now p.0 p.1.now) }
{
    let Some((word, rest)) = parted(bytes, b' ') else {
        return None;
    };
    let Some(session) = number_of(word) else {
        return None;
    };
    if session == 0 || sessions < session {
        return None;
    }
    Some((session, rest))
}

// A call in the words of scripts.
fn call_by(line: Line) -> Option<Call>
    ensures { result ≡ call_in line }
{
    match line {
        Line::Begin => Some(Call::Begin),
        Line::Act(Action::Do(op)) => Some(Call::Operate(op.op())),
        Line::Act(Action::Save) => Some(Call::Save),
        Line::Act(Action::Back(number)) => Some(Call::Back(number)),
        Line::End(Ending::Commit) => Some(Call::Commit),
        Line::End(Ending::Abort) => Some(Call::Abort),
        _ => None,
    }
}

// The call that these words are.
fn call_of(alloc: Global, words: &[u8]) -> Result<Option<Call>, Memory>
    ensures err { OnErr result (PutsText words.now) }
    ensures ok { IfOk result (λ found. MatchOption found ((call : ACall) → IsCall words.now call → ⊥) (λ call. IsCall words.now call)) }
{
    if words == b"retry".as_slice() {
        return Ok(Some(Call::Retry));
    }
    match line_of(alloc, words)? {
        Some(line) => Ok(call_by(line)),
        None => Ok(None),
    }
}

fn asked_of(alloc: Global, words: &[u8]) -> Asked
    ensures { Asks words.now result }
{
    match call_of(alloc, words) {
        Ok(Some(call)) => Asked::Call(call),
        Ok(None) => Asked::Unknown,
        Err(Memory) => Asked::NoMemory,
    }
}

/// What a line of the input asks for, where sessions have the numbers from 1 to this one. Only a line that puts a text takes memory.
pub fn request_of(alloc: Global, bytes: &[u8], sessions: u64) -> Request
    ensures { Reads sessions bytes.now result }
{
    if is_blank(bytes) {
        return Request::Blank;
    }
    match head_of(bytes, sessions) {
        Some((session, words)) => Request::Of {
            session,
            asked: asked_of(alloc, words),
        },
        None => Request::NoSession,
    }
}
