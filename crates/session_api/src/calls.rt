// What the session's calls promise to whoever runs a script.
ghost use Rattle.std.specs.Prelude.{◌≡◌, ◌<◌, ◌^◌};
ghost use Rattle.session_api.specs.Savepoints.{going_of};
ghost use Rattle.session_api.specs.Standing.{HoldsSaves, seen_in};
ghost use Rattle.session_api.specs.Grounds.{Grounds, HasMissed};

use crate::ends::{
    aborted, added_told, begun, committed, gone_back, last_asked, pairs_told, retried, value_told,
};
use crate::script_session::ScriptSession;
use crate::stages::{name_of, stage_of};
use cluster_turns::Shards;
use clv_base::names::{Point, TxId};
use clv_base::ops::{Answer, Op};
use io_model::Pace;
use machine_calls::Flier;
use script_runs::{Memory, SessionCalls, Stage, StopCause, TryEnd};
use std::alloc::Global;
use std::sync::Wait;

// The upper end of a range is a number of 64 bits.
fn bound(key: u64) -> u64
    ensures same { result ≡ key }
    ensures small { key < 2 ^ 64 }
{
    key
}

impl<'a, M: Flier, P: Pace, R: Wait> SessionCalls for ScriptSession<'a, M, P, R> {
    type Base = Shards<M>;

    ghost base = { λ s. s.session.shards.now };

    ghost seen = { λ s. seen_in s.session.shards.now s.session.walker s.asked s.session.progress };

    ghost going = { λ s. going_of s.session.progress s.saves };

    ghost holds = { λ s. HoldsSaves s.session.shards.now s.session.walker s.session.progress s.session.saves.items s.saves };

    ghost grounds = { λ s cause. Grounds s.session.walker cause };

    ghost missed = { λ s tx n es. HasMissed s.session.walker tx n es };

    fn clock(&self) -> u64 {
        self.session.walker.clock
    }

    fn tell_lack(&self) {
        self.session.shards.go_out(self.session.walker.number);
        self.session.shards.tell_lack();
    }

    fn stage(&self) -> Stage {
        stage_of(&self.session.progress)
    }

    fn last_request(&self) -> Point {
        self.asked
    }

    fn name(&self) -> TxId {
        name_of(&self.session.progress)
    }

    fn raise(&mut self, clock: u64) {
        self.session.walker.clock = self.session.walker.clock.max(clock);
    }

    fn begin(&mut self) -> Result<(), StopCause> {
        self.session.shards.go_out(self.session.walker.number);
        let answer = self.session.begin(self.alloc);
        self.saves.clear();
        begun(answer)
    }

    fn retry(&mut self, alloc: Global) -> Result<(), StopCause> {
        self.session.shards.go_out(self.session.walker.number);
        match self.session.shard_down(alloc) {
            Some(shard) => Err(StopCause::Down { shard }),
            None => {
                let answer = self.session.retry(alloc);
                self.saves.clear();
                retried(answer)
            }
        }
    }

    fn operate(&mut self, alloc: Global, op: &Op) -> Result<Answer, TryEnd> {
        let shards = self.session.shards;
        let walker = self.session.walker.number;
        match op {
            Op::Get(key) => value_told(shards, walker, self.session.get(alloc, *key)),
            Op::Put(key, value) => {
                let answer = self.session.put(alloc, *key, value.copy());
                value_told(shards, walker, answer)
            }
            Op::Del(key) => value_told(shards, walker, self.session.del(alloc, *key)),
            Op::Add(key, by) => added_told(shards, walker, self.session.add(alloc, *key, *by)),
            Op::Scan(lo, hi) => {
                let answer = self.session.scan(alloc, *lo, bound(*hi));
                pairs_told(shards, walker, answer)
            }
        }
    }

    fn has_savepoint(&self, number: u64) -> bool {
        self.saves.upto(number).is_some()
    }

    fn save(&mut self) -> Result<u64, Memory> {
        match self.session.progress.acts() {
            Some(upto) => {
                self.saves.keep(upto)?;
                Ok(self.saves.last())
            }
            None => unreachable!(),
        }
    }

    fn go_back(&mut self, alloc: Global, number: u64) -> Result<Option<u64>, TryEnd> {
        let shards = self.session.shards;
        let walker = self.session.walker.number;
        match self.saves.upto(number) {
            Some(upto) => {
                let before = self.session.progress.acts().unwrap_or(0);
                let answer = self.session.go_back_to(alloc, upto);
                let took = before < self.session.progress.acts().unwrap_or(0);
                self.saves.go_back(number);
                gone_back(shards, walker, upto, took, answer)
            }
            None => unreachable!(),
        }
    }

    fn commit(&mut self, alloc: Global) -> TryEnd {
        let shards = self.session.shards;
        let walker = self.session.walker.number;
        let answer = self.session.commit(alloc);
        self.asked = last_asked(self.asked, answer);
        committed(shards, walker, answer)
    }

    fn abort(&mut self, alloc: Global) -> Result<(), StopCause> {
        let shards = self.session.shards;
        let walker = self.session.walker.number;
        aborted(shards, walker, self.session.abort(alloc))
    }

    ghost wanting = { λ s. tt };
}
