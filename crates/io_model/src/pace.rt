// Points at which a run may be held.

/// Where a run has come.
#[derive(Clone, Copy, PartialEq, Eq)]
pub enum Step {
    /// A session is about to make a transaction's first event.
    Begun { session: u32 },
    /// An operation of a session was answered.
    Answered { session: u32 },
    /// The shard's gate is out, and nothing of the batch is written.
    FlushOut { shard: u32 },
}

/// Is told each step; a test may hold the run there. It can't fail, and answers nothing.
pub trait Pace {
    fn pass(&self, point: Step);

    /// Whether it holds nothing at any step, so that whoever tells it a step may keep what others wait for meanwhile. No clause rests on it.
    fn never_holds(&self) -> bool {
        false
    }
}

/// Holds nothing.
#[derive(Clone, Copy, PartialEq, Eq)]
pub struct NoPace;

impl Pace for NoPace {
    fn pass(&self, _point: Step) {}

    fn never_holds(&self) -> bool {
        true
    }
}
