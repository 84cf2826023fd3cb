// What the accounts of a workload hold behind it.

ghost use Rattle.clv_commands.specs.Sums.{LoadsKeepTheirSum};

use cluster_runs::members::members_are_of_script;
use cluster_runs::replay::runs_replay;
use workload_laws::workloads_keep_their_sum;

/// Where all was fine the accounts hold 1000 each in all: the filling put that under each of them, and no transfer changes the sum.
pub fn loads_keep_their_sum()
    ensures { LoadsKeepTheirSum }
{
    members_are_of_script();
    runs_replay();
    workloads_keep_their_sum();
}
