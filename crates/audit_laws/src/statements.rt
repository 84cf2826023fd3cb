// Laws.

ghost use Rattle.audit_laws.specs.Reports.{ReportsAreTrue};

use headline_laws::statements::promise;

/// The report of a run in which nothing is unsettled is true of the pairs before it and of the logs after it, whatever a crash keeps.
pub fn reports_are_true()
    ensures { ReportsAreTrue }
{
    promise();
}
