// Laws.

ghost use Rattle.clv_audit.specs.Laws.{VerdictsAreOne};

/// There is one verdict on a report and a map.
pub fn verdicts_are_one()
    ensures { VerdictsAreOne }
{}
