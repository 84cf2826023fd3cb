// The epochs of the touched shards.
ghost use Rattle.std.specs.Prelude.{◌≡◌, ◌<◌, ◌==◌, true, nat_lt, map, [], IfOk, IfNone, IfSome};
ghost use Rattle.std.specs.List.{list_all};
ghost use Rattle.std.specs.Map.{lookup};
ghost use Rattle.clv_base.specs.FileRules.{numbers_rise};
ghost use Rattle.clv_base.specs.Sessions.{touch, is_lowest};

use clv_base::lists::Touched;
use std::alloc::{AllocError, Global};
use std::marker::Model;

/// The touched shards, each with the epoch that it answered at its first touch.
#[derive(Drop)]
pub struct TouchedShards {
    epochs: [Option<u64>; 16],
}

impl Model for TouchedShards {
    ghost use Rattle.std.specs.Prelude.{◌≡◌, ℕ, List, length};

    ghost Value = { List (ℕ × ℕ) };

    ghost use Rattle.clv_base.specs.Arrays.{present_from};

    ghost view = { λ e. present_from 0 e.epochs };

    ghost invariant = { λ e. length e.epochs ≡ 16 };
}

impl TouchedShards {
    /// None is touched yet.
    pub fn new() -> TouchedShards
        ensures { result ≡ [] }
    {
        TouchedShards { epochs: [None; 16] }
    }

    /// The epoch of a shard, if it was touched.
    pub fn seen(&self, shard: u32) -> Option<u64>
        ensures { result ≡ lookup (◌==◌ shard) self.now }
    {
        match self.epochs.get(shard as usize) {
            Some(epoch) => *epoch,
            None => None,
        }
    }

    /// The touched shards with their epochs: they rise, and are below 16.
    pub fn touched(&self, alloc: Global) -> Result<Touched, AllocError>
        ensures list { IfOk result (λ list. list ≡ self.now) }
        ensures rise { numbers_rise (map (λ t. t.0) self.now) ≡ true }
        ensures low { list_all (λ t. nat_lt t.0 16) self.now ≡ true }
    {
        let mut items = Vec::new(alloc);
        for shard in 0..16 {
            if let Some(epoch) = self.epochs[shard] {
                items.push((shard as u32, epoch))?;
            }
        }
        Ok(Touched::new(items))
    }

    /// The lowest touched shard, if any was touched.
    pub fn lowest(&self) -> Option<u32>
        ensures none { IfNone result (self.now ≡ []) }
        ensures lowest { IfSome result (λ home. (is_lowest home self.now ≡ true) × (home < 16)) }
    {
        for shard in 0..16 {
            if self.epochs[shard].is_some() {
                return Some(shard as u32);
            }
        }
        None
    }

    /// A shard answered with this epoch; that of the first touch stays.
    pub fn touch(&mut self, shard: u32, epoch: u64)
        requires { shard < 16 }
        ensures { self.new ≡ touch shard epoch self.old }
    {
        let place = shard as usize;
        if self.epochs[place].is_none() {
            self.epochs[place] = Some(epoch);
        }
    }
}
