//! What an operation of a transaction needs on a shard, what it meets there, what it does where it is granted, and how locks are given up.
//! `plan_of` promises that an operation's needs, its answer, its insert and its write are the protocol's definitions over the records; `meet`
//! that what a request meets is the decision over all locks: granted with the writers that it violates, to wait, to die, or too crowded. Of what
//! a granted one does each function promises that its part of the shard afterwards is the protocol's definition; room is reserved by those that
//! may want memory, and the others take none; `performed_by_plan` says that together they are the protocol's state after it. `release_all`
//! promises that the locks left are the protocol's, and that the ghosts without a lock are gone; it takes no memory.
//! It stands on the traits of `ordered_store` and `lock_table`, on `cascade_undo` and on `log_buffer`.

#![tactic(auto)]

mod locks;
mod meeting;
mod needs;
mod parts;
mod performed;
mod plan;
mod purging;
mod releasing;
mod scan;
mod writes;

pub use lock_table::Memory;
pub use locks::{reserve_locks, take_locks};
pub use meeting::{CROWD, Meeting, meet};
pub use parts::enter_part;
pub use performed::performed_by_plan;
pub use plan::{Insert, Needs, Plan, Write, plan_of};
pub use releasing::release_all;
pub use writes::write_down;
