//! How the parts make up the whole.
ghost use Rattle.shard_ops.specs.Effects.{IsPerformedByPlan};

/// The protocol's state after a granted operation is the one that its needs, its insert, its write and the violated writers make.
pub fn performed_by_plan()
    ensures { IsPerformedByPlan }
{}
