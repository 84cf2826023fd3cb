// What a script says.

ghost use Rattle.std.specs.Prelude.{◌≡◌, ◌++◌, ◌∷◌, [], List, OnOk};
ghost use Rattle.script_lang.specs.Bodies.{Body};

use crate::actions::{Action, Ending};
use std::alloc::AllocError;
use std::marker::Model;

/// The lines of a transaction, in order, and how it is to end.
#[derive(Drop)]
pub struct Transaction {
    actions: Vec<Action>,
    ending: Ending,
}

impl Model for Transaction {
    ghost use Rattle.script_lang.specs.Bodies.{Body};

    ghost Value = { Body };

    ghost view = { λ t. record { actions = t.actions.items; ending = t.ending } };
}

impl Transaction {
    /// The transaction of these lines.
    pub fn new(actions: Vec<Action>, ending: Ending) -> Self
        ensures { result ≡ record { actions = actions.items; ending = ending } }
    {
        Transaction { actions, ending }
    }

    /// Its lines, in order.
    pub fn actions(&self) -> &[Action]
        ensures { result.now ≡ self.now.actions }
    {
        self.actions.as_slice()
    }

    /// How it is to end.
    pub fn ending(&self) -> Ending
        ensures { result ≡ self.now.ending }
    {
        self.ending
    }
}

/// The transactions of a session, in order.
#[derive(Drop)]
pub struct Session {
    transactions: Vec<Transaction>,
}

impl Model for Session {
    ghost use Rattle.std.specs.Prelude.{List};
    ghost use Rattle.script_lang.specs.Bodies.{Body};

    ghost Value = { List Body };

    ghost view = { λ s. s.transactions.items };
}

impl Session {
    /// The session of these transactions.
    pub fn new(transactions: Vec<Transaction>) -> Self
        ensures { result ≡ transactions.items }
    {
        Session { transactions }
    }

    // Adds a transaction.
    pub(crate) fn add(&mut self, transaction: Transaction) -> Result<(), AllocError>
        ensures { OnOk result (self.new ≡ self.old ++ transaction ∷ []) }
    {
        self.transactions.push(transaction)?;
        Ok(())
    }

    /// Its transactions, in order.
    pub fn transactions(&self) -> &[Transaction]
        ensures { result.now ≡ self.now }
    {
        self.transactions.as_slice()
    }
}

/// The sessions of a script, in order.
#[derive(Drop)]
pub struct Script {
    sessions: Vec<Session>,
}

impl Model for Script {
    ghost use Rattle.std.specs.Prelude.{List};
    ghost use Rattle.script_lang.specs.Bodies.{Body};

    ghost Value = { List (List Body) };

    ghost view = { λ s. s.sessions.items };
}

impl Script {
    /// The script of these sessions.
    pub fn new(sessions: Vec<Session>) -> Self
        ensures { result ≡ sessions.items }
    {
        Script { sessions }
    }

    /// Its sessions, in order.
    pub fn sessions(&self) -> &[Session]
        ensures { result.now ≡ self.now }
    {
        self.sessions.as_slice()
    }
}
