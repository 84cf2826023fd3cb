// The thread that reads the input.
ghost use Rattle.std.specs.Prelude.{◌≡◌, ◌≤◌, ◌<◌, length, vec_len, option_map, IfOk};
ghost use Rattle.io_model.specs.Streams.{CountsReading};
ghost use Rattle.live_streams.specs.Handed.{ReadsLines};
ghost use Rattle.live_streams.specs.Steps.{HandsOne, HandsLine, HandsByte, HandsBytes, HandsLast, ReadsSome};

use crate::boxes::RingOutbox;
use crate::signals::Signals;
use io_model::{ReadError, Source};
use live_lines::{Asked, Cutter, Refusal, Reply, Request, request_of};
use live_sessions::{Gone, Outbox};
use rtrb::{Producer, PushError};
use std::alloc::{AllocError, Global};
use std::sync::Wait;

const PIECE: usize = 65536;

/// How far the input was read.
#[derive(Clone, Copy, PartialEq, Eq)]
pub enum Read {
    /// To its end, and each line was handed out or refused.
    Whole,
    /// Up to some line, as nobody takes answers any more.
    Gone,
}

/// What the reader has: the rings into which the lines of each session go, and its own answers.
#[derive(Drop)]
pub struct Reader<'a, R: Wait> {
    pub lines: Vec<Producer<Asked>>,
    pub own: RingOutbox<'a, R>,
}

// So many bytes. (A number written at `vec!` itself would be counted out in every goal after it.)
fn zeros(alloc: Global, count: usize) -> Result<Vec<u8>, AllocError>
    ensures { IfOk result (λ v. length v.items ≡ count) }
{
    vec![in alloc; 0u8; count]
}

impl<'a, R: Wait> Reader<'a, R> {
    // Hands a line to a session, once there is room.
    fn hand(&mut self, session: u64, asked: Asked) -> Result<(), Gone>
        requires there { (1 ≤ session) × (session ≤ vec_len self.old.lines) }
        ensures { HandsOne (Some (session, asked)) None self.old.lines.items self.new.lines.items self.old.own.answers self.new.own.answers result }
    {
        let signals = self.own.signals;
        let rt = self.own.rt;
        let bell = signals.bell_of(0);
        let place = session as usize;
        let mut asked = asked;
        let mut lies = false;
        for _ in rt.forever() {
            let heard = bell.heard();
            if signals.is_gone() {
                return Err(Gone);
            }
            match self.lines[place - 1].push(asked) {
                Ok(()) => {
                    if lies {
                        bell.rise();
                    }
                    signals.bell_of(place).ring();
                    return Ok(());
                }
                Err(PushError::Full(back)) => asked = back,
            }
            if lies {
                bell.sleep(rt, heard);
            } else {
                bell.lie_down();
                lies = true;
            }
        }
        unreachable!()
    }

    fn refuse(&mut self, refusal: Refusal) -> Result<(), Gone>
        ensures { HandsOne None (Some refusal) self.old.lines.items self.new.lines.items self.old.own.answers self.new.own.answers result }
    {
        self.own.tell(Reply::Refused(refusal))
    }

    // A line of the input; none where it is too long.
    fn take_line(&mut self, alloc: Global, line: Option<&[u8]>) -> Result<(), Gone>
        ensures { HandsLine (option_map (λ l. l.now) line.entry) self.old.lines.items self.new.lines.items self.old.own.answers self.new.own.answers result }
    {
        let Some(bytes) = line else {
            return self.refuse(Refusal::TooLong);
        };
        match request_of(alloc, bytes, self.lines.len() as u64) {
            Request::Blank => Ok(()),
            Request::Of { session, asked } => self.hand(session, asked),
            Request::NoSession => self.refuse(Refusal::NoSession),
        }
    }

    fn take_byte(&mut self, alloc: Global, cutter: &mut Cutter, byte: u8) -> Result<(), Gone>
        ensures { HandsByte cutter.old cutter.new byte self.old.lines.items self.new.lines.items self.old.own.answers self.new.own.answers result }
    {
        if byte == b'\n' {
            self.take_line(alloc, cutter.line())?;
            cutter.begin();
        } else {
            cutter.take(byte);
        }
        Ok(())
    }

    fn take_bytes(&mut self, alloc: Global, cutter: &mut Cutter, bytes: &[u8]) -> Result<(), Gone>
        ensures { HandsBytes cutter.old cutter.new bytes.now self.old.lines.items self.new.lines.items self.old.own.answers self.new.own.answers result }
    {
        for byte in bytes {
            self.take_byte(alloc, cutter, *byte)?;
        }
        Ok(())
    }

    // The last line may have no line feed.
    fn take_last(&mut self, alloc: Global, cutter: &Cutter) -> Read
        ensures { HandsLast cutter.now self.old.lines.items self.new.lines.items self.old.own.answers self.new.own.answers result }
    {
        if !cutter.has_begun() {
            return Read::Whole;
        }
        match self.take_line(alloc, cutter.line()) {
            Ok(()) => Read::Whole,
            Err(Gone) => Read::Gone,
        }
    }

    // Reads the next bytes, and takes them; at the end of the input, or where nobody takes answers, it says how far it was read.
    fn read_some<S: Source>(
        &mut self,
        alloc: Global,
        source: &mut S,
        piece: &mut [u8],
        cutter: &mut Cutter,
    ) -> Result<Option<Read>, ReadError>
        requires { 0 < length piece.old }
        ensures read { ReadsSome (S.left source.old) (S.left source.new) cutter.old cutter.new self.old.lines.items self.new.lines.items self.old.own.answers self.new.own.answers result }
        ensures cause { CountsReading (S.faults source.old) (S.faults source.new) result }
    {
        let count = source.read(piece)?;
        if count == 0 {
            return Ok(Some(self.take_last(alloc, cutter)));
        }
        match self.take_bytes(alloc, cutter, &piece[..count]) {
            Ok(()) => Ok(None),
            Err(Gone) => Ok(Some(Read::Gone)),
        }
    }

    fn read_until_over<S: Source>(
        &mut self,
        alloc: Global,
        source: &mut S,
    ) -> Result<Read, ReadError>
        ensures read { ReadsLines (S.left source.old) (S.left source.new) self.old.lines.items self.new.lines.items self.old.own.answers self.new.own.answers result }
        ensures cause { CountsReading (S.faults source.old) (S.faults source.new) result }
    {
        let mut piece = zeros(alloc, PIECE)?;
        let mut cutter = Cutter::new(alloc)?;
        for _ in self.own.rt.forever() {
            if let Some(read) = self.read_some(alloc, source, piece.as_mut_slice(), &mut cutter)? {
                return Ok(read);
            }
        }
        unreachable!()
    }

    // Where a thread of the others doesn't begin, nothing is read.
    fn read_once_begun<S: Source>(
        &mut self,
        alloc: Global,
        source: &mut S,
    ) -> Result<Read, ReadError>
        ensures read { ReadsLines (S.left source.old) (S.left source.new) self.old.lines.items self.new.lines.items self.old.own.answers self.new.own.answers result }
        ensures cause { CountsReading (S.faults source.old) (S.faults source.new) result }
    {
        let signals = self.own.signals;
        if !signals.all_begun(self.own.rt) {
            signals.tell_gone();
            return Err(ReadError::Memory);
        }
        self.read_until_over(alloc, source)
    }

    /// Reads the input to its end, or until nobody takes answers any more, and hands each line to its session; then no session gets any more. Where a thread of
    /// the others doesn't begin, nothing is read, and it answers Memory.
    pub fn read_all<S: Source>(&mut self, alloc: Global, source: &mut S) -> Result<Read, ReadError>
        ensures read { ReadsLines (S.left source.old) (S.left source.new) self.old.lines.items self.new.lines.items self.old.own.answers self.new.own.answers result }
        ensures cause { CountsReading (S.faults source.old) (S.faults source.new) result }
    {
        let signals = self.own.signals;
        let read = self.read_once_begun(alloc, source);
        for lane in &signals.lanes {
            lane.close();
        }
        signals.end();
        read
    }
}
