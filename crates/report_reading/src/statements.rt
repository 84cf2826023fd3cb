// Laws.

ghost use Rattle.report_reading.specs.Faults.{ReportsHaveNoFault, ReportsTellOneThing};

/// No report has a fault.
pub fn reports_have_no_fault()
    ensures { ReportsHaveNoFault }
{}

/// A text is the report of one content alone.
pub fn reports_tell_one_thing()
    ensures { ReportsTellOneThing }
{}
