//! A machine that forgets the requests that nothing asks for any more. It is seen as one that keeps them all, as the definitions do: which rows
//! are gone is known in proofs alone, and by the laws of `ended_laws` no call misses them. So it promises what `machine_calls` asks of a
//! machine, clause by clause. It is a machine around another one, any of which a row can be taken, and stands on these laws.
#![tactic(auto)]

mod calls;
mod disks;
mod flying;
mod forgetter;
mod forgetting;
mod landing;
mod machine;
mod making;
mod reopening;
mod reviving;
mod stepping;

pub use forgetter::Forgetter;
pub use machine::LeanMachine;
