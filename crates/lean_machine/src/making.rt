//! How a machine begins.
ghost use Rattle.std.specs.Prelude.{◌≡◌, ◌<◌, [], Some, IfOk, IfErr};
ghost use Rattle.clv_base.specs.Restarts.{state_after};
ghost use Rattle.machine_calls.specs.Restored.{IsRestored};

use crate::forgetter::Forgetter;
use crate::machine::LeanMachine;
use machine_calls::Maker;
use quiet_list::Told;
use shard_recovery::Recovered;
use std::alloc::Global;

impl<M: Forgetter + Maker> LeanMachine<M> {
    /// The shard as its log, which ends with the RESTART of this run and epoch, leaves it. The gate comes back where there is no memory.
    pub fn new(
        alloc: Global,
        gate: M::Gate,
        store: M::Store,
        recovered: Recovered,
        shard: u32,
        run: u32,
        epoch: u64,
    ) -> Result<Self, M::Gate>
        requires shard { shard < 16 }
        requires restored { IsRestored shard run epoch (M.Store.records store) recovered }
        ensures state { IfOk result (λ m. m.shard ≡ state_after shard run epoch recovered.buffer.records 0 []) }
        ensures gate { IfOk result (λ m. m.gate ≡ Some gate) }
        ensures back { IfErr result (λ g. g ≡ gate) }
    {
        match M::new(alloc, gate, store, recovered, shard, run, epoch) {
            Ok(machine) => Ok(LeanMachine {
                machine,
                forgotten: Told::new(),
            }),
            Err(gate) => Err(gate),
        }
    }
}

impl<M: Forgetter + Maker> Maker for LeanMachine<M> {
    fn new(
        alloc: Global,
        gate: M::Gate,
        store: M::Store,
        recovered: Recovered,
        shard: u32,
        run: u32,
        epoch: u64,
    ) -> Result<Self, M::Gate> {
        LeanMachine::new(alloc, gate, store, recovered, shard, run, epoch)
    }
}
