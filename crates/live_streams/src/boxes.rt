// The inbox and the outbox of a session: its ends of two rings.
ghost use Rattle.std.specs.Prelude.{◌≡◌, ◌++◌, ◌∷◌, [], IfOk, OnErr};
ghost use Rattle.rtrb.specs.Ring.{sent, received, SameProducer, SameConsumer};
ghost use Rattle.live_streams.specs.Same.{same_consumer, same_consumers, same_producer, same_producers};

use crate::signals::Signals;
use live_lines::{Asked, Reply};
use live_sessions::{Gone, Inbox, Outbox};
use rtrb::{Consumer, Producer, PushError};
use std::sync::Wait;

/// Lines that the reader hands to a session.
#[derive(Drop)]
pub struct RingInbox<'a, R: Wait> {
    pub rt: &'a R,
    pub signals: &'a Signals,
    pub lane: usize,
    pub lines: Consumer<Asked>,
}

/// Answers that go to the writer.
#[derive(Drop)]
pub struct RingOutbox<'a, R: Wait> {
    pub rt: &'a R,
    pub signals: &'a Signals,
    pub lane: usize,
    pub answers: Producer<Reply>,
}

impl<'a, R: Wait> RingInbox<'a, R> {
    // A line that has come; or none, and whether none will come.
    fn look(&mut self) -> Result<Asked, bool>
        ensures same { SameConsumer self.old.lines self.new.lines }
        ensures ok { IfOk result (λ asked. received self.new.lines ≡ received self.old.lines ++ asked ∷ []) }
        ensures none { OnErr result (received self.new.lines ≡ received self.old.lines) }
    {
        if self.signals.is_gone() {
            return Err(true);
        }
        let is_closed = self.signals.is_closed(self.lane);
        match self.lines.pop() {
            Ok(asked) => {
                self.signals.bell_of(0).ring();
                Ok(asked)
            }
            Err(_) => Err(is_closed),
        }
    }
}

impl<'a, R: Wait> Inbox for RingInbox<'a, R> {
    ghost taken = { λ s. received s.lines };

    ghost same = { λ a b. SameConsumer a.lines b.lines };

    ghost itself = { λ a. same_consumer a.lines };

    ghost still = { λ a b c one other. same_consumers a.lines b.lines c.lines one other };

    fn take(&mut self) -> Option<Asked> {
        let bell = self.signals.bell_of(self.lane);
        let mut lies = false;
        for _ in self.rt.forever() {
            let heard = bell.heard();
            match self.look() {
                Ok(asked) => {
                    if lies {
                        bell.rise();
                    }
                    return Some(asked);
                }
                Err(true) => return None,
                Err(false) => {
                    if lies {
                        bell.sleep(self.rt, heard);
                    } else {
                        bell.lie_down();
                        lies = true;
                    }
                }
            }
        }
        unreachable!()
    }
}

impl<'a, R: Wait> Outbox for RingOutbox<'a, R> {
    ghost told = { λ s. sent s.answers };

    ghost same = { λ a b. SameProducer a.answers b.answers };

    ghost itself = { λ a. same_producer a.answers };

    ghost still = { λ a b c one other. same_producers a.answers b.answers c.answers one other };

    fn tell(&mut self, reply: Reply) -> Result<(), Gone> {
        let bell = self.signals.bell_of(self.lane);
        let mut reply = reply;
        let mut lies = false;
        for _ in self.rt.forever() {
            let heard = bell.heard();
            if self.signals.is_gone() {
                return Err(Gone);
            }
            match self.answers.push(reply) {
                Ok(()) => {
                    if lies {
                        bell.rise();
                    }
                    self.signals.writer.ring();
                    return Ok(());
                }
                Err(PushError::Full(back)) => reply = back,
            }
            if lies {
                bell.sleep(self.rt, heard);
            } else {
                bell.lie_down();
                lies = true;
            }
        }
        unreachable!()
    }
}
