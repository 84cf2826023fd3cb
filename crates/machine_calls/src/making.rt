// How a machine begins.
ghost use Rattle.std.specs.Prelude.{◌≡◌, ◌<◌, [], Some, IfOk, IfErr};
ghost use Rattle.clv_base.specs.Restarts.{state_after};
ghost use Rattle.machine_calls.specs.Restored.{IsRestored};

use crate::machine::Machine;
use shard_recovery::Recovered;
use std::alloc::Global;

/// A machine that is made of what recovery gives.
pub trait Maker: Machine {
    /// The shard as its log, which ends with the RESTART of this run and epoch, leaves it. The gate comes back where there is no memory.
    fn new(
        alloc: Global,
        gate: Self::Gate,
        store: Self::Store,
        recovered: Recovered,
        shard: u32,
        run: u32,
        epoch: u64,
    ) -> Result<Self, Self::Gate>
        requires shard { shard < 16 }
        requires restored { IsRestored shard run epoch (Self.Store.records store) recovered }
        ensures state { IfOk result (λ m. Self.shard m ≡ state_after shard run epoch recovered.buffer.records 0 []) }
        ensures gate { IfOk result (λ m. Self.gate m ≡ Some gate) }
        ensures back { IfErr result (λ g. g ≡ gate) };
}
