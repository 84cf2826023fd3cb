// The rings of all sessions.
ghost use Rattle.std.specs.Prelude.{◌+◌, ◌≤◌, IfOk};
ghost use Rattle.live_streams.specs.Rings.{AreNew};

use live_lines::{Asked, Reply};
use rtrb::{Consumer, Producer, RingBuffer};
use std::alloc::{AllocError, Global};

// So many lines of a session may be ahead of their answers, beside the one that it does.
const LINES: usize = 256;

// And so many answers of the sink.
const ANSWERS: usize = 64;

// The ends of so many rings, the two of one ring at the same place.
#[derive(Drop)]
struct Lanes<T> {
    makers: Vec<Producer<T>>,
    takers: Vec<Consumer<T>>,
}

// So many rings, each with so much room, through which nothing went so far.
fn new_lanes<T: Drop>(alloc: Global, count: usize, room: usize) -> Result<Lanes<T>, AllocError>
    ensures new { IfOk result (λ l. AreNew count l.makers.items l.takers.items) }
{
    let mut makers = Vec::with_capacity(alloc, count)?;
    let mut takers = Vec::with_capacity(alloc, count)?;
    for _ in 0..count {
        let (maker, taker) = RingBuffer::new(alloc, room)?;
        makers.push_reserved(maker);
        takers.push_reserved(taker);
    }
    Ok(Lanes { makers, takers })
}

/// The ends of all rings. Lane 0 of the answers is the reader's own; session k has line k - 1 and answer k.
#[derive(Drop)]
pub struct Ends {
    pub line_makers: Vec<Producer<Asked>>,
    pub line_takers: Vec<Consumer<Asked>>,
    pub answer_makers: Vec<Producer<Reply>>,
    pub answer_takers: Vec<Consumer<Reply>>,
}

impl Ends {
    /// Rings for so many sessions, through which nothing went so far.
    pub fn new(alloc: Global, sessions: usize) -> Result<Ends, AllocError>
        requires few { sessions ≤ 64 }
        ensures lines { IfOk result (λ e. AreNew sessions e.line_makers.items e.line_takers.items) }
        ensures answers { IfOk result (λ e. AreNew (sessions + 1) e.answer_makers.items e.answer_takers.items) }
    {
        let lines = new_lanes(alloc, sessions, LINES)?;
        let answers = new_lanes(alloc, sessions + 1, ANSWERS)?;
        Ok(Ends {
            line_makers: lines.makers,
            line_takers: lines.takers,
            answer_makers: answers.makers,
            answer_takers: answers.takers,
        })
    }
}
