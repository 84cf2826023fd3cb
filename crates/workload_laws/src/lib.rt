//! What the transactions of a workload leave of its accounts, whatever the logs stood for: one of them fills the accounts, and each other one moves an
//! amount from one account to another, by the values that it was told. The law is the clause of a function with an empty body; the statement stands in
//! specs/. It stands on the workloads of `script_lang`.
#![tactic(auto)]

ghost use Rattle.workload_laws.specs.Sums.{WorkloadsKeepTheirSum};

use script_lang::workload_laws::transfers_keep_to_accounts;

/// After a serial history of a filling and transfers the accounts hold 1000 each in all.
pub fn workloads_keep_their_sum()
    ensures { WorkloadsKeepTheirSum }
{
    transfers_keep_to_accounts();
}
