// What a transaction did.
ghost use Rattle.std.specs.Prelude.{◌≡◌};
ghost use Rattle.session_books.specs.Done.{Did, WentBack, done_of};

use clv_base::kept::KeptOp;
use clv_base::lists::Pairs;
use clv_base::ops::Answer;
use clv_base::values::Value;
use std::marker::Model;

/// What is kept of it: the kind of an answer is told by the word that tells a going back.
#[derive(Drop)]
pub enum Held {
    Valued(KeptOp, Option<Value>),
    Listed(KeptOp, Pairs),
    Added(KeptOp, bool),
    Back(u64),
}

/// An operation with its answer, or a going back to where the transaction was after so many acts.
#[derive(Drop)]
pub struct Done {
    held: Held,
}

impl Model for Done {
    ghost use Rattle.session_books.specs.Done.{Done, done_of};

    ghost Value = { Done };

    ghost view = { λ d. done_of d.held };
}

fn held_of(op: KeptOp, answer: Answer) -> Held
    ensures { done_of result ≡ Did op answer }
{
    match answer {
        Answer::Value(value) => Held::Valued(op, value),
        Answer::Pairs(pairs) => Held::Listed(op, pairs),
        Answer::Added(found) => Held::Added(op, found),
    }
}

impl Done {
    /// An operation, with its answer. Takes no memory.
    pub fn did(op: KeptOp, answer: Answer) -> Done
        ensures { result ≡ Did op answer }
    {
        Done {
            held: held_of(op, answer),
        }
    }

    /// A going back. Takes no memory.
    pub fn went_back(upto: u64) -> Done
        ensures { result ≡ WentBack upto }
    {
        Done {
            held: Held::Back(upto),
        }
    }

    /// What is kept of it.
    pub fn held(&self) -> &Held
        ensures { done_of result.now ≡ self.now }
    {
        &self.held
    }
}

// No more than an operation and an answer.
const _: () = prove!(size_of::<Done>() == 56);
