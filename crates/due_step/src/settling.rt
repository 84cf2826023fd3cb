//! One thing after another.
ghost use Rattle.std.specs.Prelude.{◌≡◌, ◌<◌, [], Some};
ghost use Rattle.clv_base.specs.Events.{finish};
ghost use Rattle.due_step.specs.Ready.{IsReady, least, left};

use crate::dues::Dues;
use clv_base::names::TxId;

/// Does what is due for the least candidate, or leaves it out.
fn turn<D: Dues>(dues: &mut D, tx: TxId)
    requires ready { IsReady (D.shard dues.old) (D.candidates dues.old) (D.limit dues.old) }
    requires first { least (D.candidates dues.old) ≡ Some tx }
    ensures ready { IsReady (D.shard dues.new) (D.candidates dues.new) (D.limit dues.new) }
    ensures same { finish (D.shard dues.new) ≡ finish (D.shard dues.old) }
    ensures limit { D.limit dues.new ≡ D.limit dues.old }
    ensures less { left (D.shard dues.new) (D.candidates dues.new) (D.limit dues.new) < left (D.shard dues.old) (D.candidates dues.old) (D.limit dues.old) }
{
    if dues.do_for(tx) {
        return;
    }
    dues.leave_first();
}

/// Does all that is due, the least transaction first, until nothing is. Takes no memory.
pub fn settle_due<D: Dues>(dues: &mut D)
    requires { IsReady (D.shard dues.old) (D.candidates dues.old) (D.limit dues.old) }
    ensures done { D.shard dues.new ≡ finish (D.shard dues.old) }
    ensures none { D.candidates dues.new ≡ [] }
    ensures ready { IsReady (D.shard dues.new) (D.candidates dues.new) (D.limit dues.new) }
    ensures limit { D.limit dues.new ≡ D.limit dues.old }
{
    while let Some(tx) = dues.first() {
        turn(dues, tx);
    }
}
