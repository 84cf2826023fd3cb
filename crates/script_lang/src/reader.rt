// What the lines so far come to.

ghost use Rattle.std.specs.Prelude.{◌≡◌, ◌<◌, ◌≤◌, ℕ, true, false, List, [], ◌∷◌, ◌++◌, length, Some, None, IfOk, OnOk, OnErr, MatchOption, nat_lt};
ghost use Rattle.script_lang.specs.Bodies.{Action as AnAction, Body};
ghost use Rattle.script_lang.specs.Grammar.{Reading, after_line, nothing_read, with_last, body, may_follow, saves_in, with_line, IsScript};
ghost use Rattle.script_lang.specs.Reading.{Goes};

use crate::actions::{Action, Ending};
use crate::lines::Line;
use crate::savepoints::Savepoints;
use crate::script::{Script, Session, Transaction};
use std::alloc::{AllocError, Global};
use std::marker::Model;

const MOST_SESSIONS: usize = 64;

// The lines of a transaction so far, with the savepoints that stand behind them.
#[derive(Drop)]
struct Open {
    actions: Vec<Action>,
    saves: Savepoints,
}

impl Model for Open {
    ghost use Rattle.std.specs.Prelude.{◌≡◌, List};
    ghost use Rattle.script_lang.specs.Bodies.{Action};
    ghost use Rattle.script_lang.specs.Grammar.{saves_in};

    ghost Value = { List Action };

    ghost view = { λ o. o.actions.items };

    ghost invariant = { λ o. o.saves ≡ saves_in o.actions.items };
}

// Keeps a savepoint, or goes back to one that stands. By the lines alone it isn't known after how many acts they come.
fn follow(saves: &mut Savepoints, action: &Action) -> Result<bool, AllocError>
    ensures went { IfOk result (λ went. went ≡ may_follow saves.old action.now) }
    ensures saves { IfOk result (λ went. went ≡ true → saves.new ≡ with_line action.now saves.old) }
    ensures stays { IfOk result (λ went. went ≡ false → saves.new ≡ saves.old) }
    ensures err { OnErr result (saves.new ≡ saves.old) }
{
    match action {
        Action::Save => {
            saves.keep(0)?;
            Ok(true)
        }
        Action::Back(number) => {
            if saves.upto(*number).is_none() {
                return Ok(false);
            }
            saves.go_back(*number);
            Ok(true)
        }
        _ => Ok(true),
    }
}

impl Open {
    fn new(alloc: Global) -> Self
        ensures { result ≡ [] }
    {
        Open {
            actions: Vec::new(alloc),
            saves: Savepoints::new(alloc),
        }
    }

    // An action follows, if it may.
    fn add(&mut self, action: Action) -> Result<bool, AllocError>
        ensures went { IfOk result (λ went. went ≡ may_follow (saves_in self.old) action) }
        ensures actions { IfOk result (λ went. went ≡ true → self.new ≡ self.old ++ action ∷ []) }
    {
        self.actions.reserve(1)?;
        if !follow(&mut self.saves, &action)? {
            return Ok(false);
        }
        self.actions.push_reserved(action);
        Ok(true)
    }

    // The transaction of these lines, in a list of exactly their length: what a growing list leaves over is most of a short one.
    fn closed(self, ending: Ending) -> Transaction
        ensures { result ≡ body self ending }
    {
        let Open { mut actions, .. } = self;
        actions.shrink_to_fit();
        Transaction::new(actions, ending)
    }
}

#[derive(Drop)]
pub struct Reader {
    finished: Vec<Session>,
    session: Option<Session>,
    current: Option<Open>,
}

impl Model for Reader {
    ghost use Rattle.script_lang.specs.Grammar.{Reading};

    ghost Value = { Reading };

    ghost view = { λ r. record { finished = r.finished.items; session = r.session; current = r.current } };
}

impl Reader {
    pub fn new(alloc: Global) -> Self
        ensures { result ≡ nothing_read }
    {
        Reader {
            finished: Vec::new(alloc),
            session: None,
            current: None,
        }
    }

    // The last session joins the others.
    fn finish_session(&mut self) -> Result<(), AllocError>
        ensures { OnOk result (self.new ≡ record { finished = with_last self.old.finished self.old.session; session = None; current = self.old.current }) }
    {
        if let Some(session) = self.session.take() {
            self.finished.push(session)?;
        }
        Ok(())
    }

    // A session stands outside a transaction, where there is room for one more.
    fn open_session(&mut self, alloc: Global) -> Result<bool, AllocError>
        ensures { IfOk result (λ went. Goes went (after_line self.old Line.Session) self.new) }
    {
        if self.current.is_some() {
            return Ok(false);
        }
        self.finish_session()?;
        if self.finished.len() >= MOST_SESSIONS {
            return Ok(false);
        }
        self.session = Some(Session::new(Vec::new(alloc)));
        Ok(true)
    }

    // A transaction stands in a session, outside a transaction.
    fn open_transaction(&mut self, alloc: Global) -> bool
        ensures { Goes result (after_line self.old Line.Begin) self.new }
    {
        if self.session.is_none() || self.current.is_some() {
            return false;
        }
        self.current = Some(Open::new(alloc));
        true
    }

    // An action stands in a transaction, and a going back where its savepoint stands.
    fn add(&mut self, action: Action) -> Result<bool, AllocError>
        ensures { IfOk result (λ went. Goes went (after_line self.old (Line.Act action)) self.new) }
    {
        match &mut self.current {
            Some(lines) => lines.add(action),
            None => Ok(false),
        }
    }

    // The open transaction ends in its session.
    fn end_transaction(&mut self, ending: Ending) -> Result<bool, AllocError>
        ensures { IfOk result (λ went. Goes went (after_line self.old (Line.End ending)) self.new) }
    {
        let Some(lines) = self.current.take() else {
            return Ok(false);
        };
        let Some(session) = &mut self.session else {
            return Ok(false);
        };
        session.add(lines.closed(ending))?;
        Ok(true)
    }

    /// Takes a line, if it has its place here. After an `Err`, and after `false`, the reader is of no use.
    pub fn take(&mut self, alloc: Global, line: Line) -> Result<bool, AllocError>
        ensures { IfOk result (λ went. Goes went (after_line self.old line) self.new) }
    {
        match line {
            Line::Blank => Ok(true),
            Line::Session => self.open_session(alloc),
            Line::Begin => Ok(self.open_transaction(alloc)),
            Line::Act(action) => self.add(action),
            Line::End(ending) => self.end_transaction(ending),
        }
    }

    /// The script of the lines, where no transaction is open.
    pub fn into_script(self) -> Result<Option<Script>, AllocError>
        ensures { IfOk result (λ ended. MatchOption ended ((actions : List AnAction) × (self.current ≡ Some actions)) (λ script. (self.current ≡ None) × (script ≡ with_last self.finished self.session))) }
    {
        let Reader {
            finished,
            session,
            current,
        } = self;
        if current.is_some() {
            return Ok(None);
        }
        let mut sessions = finished;
        if let Some(session) = session {
            sessions.push(session)?;
        }
        Ok(Some(Script::new(sessions)))
    }
}
