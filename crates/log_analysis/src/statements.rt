// What a restart leaves as it was.

ghost use Rattle.log_analysis.specs.Restarting.{KeepsDoubt, KeepsHomes, KeepsPairs, KeepsUnended};

/// A law: whatever the log, a restart's ABORTs, CLRs and RESTART leave who is in doubt, their homes and predecessors, and
/// the COMMITs that are coordinated again. So the analysis of the log that a restart found holds for the log after it.
pub fn a_restart_keeps_the_lists()
    ensures in_doubt { KeepsDoubt }
    ensures homes { KeepsHomes }
    ensures pairs { KeepsPairs }
    ensures unended { KeepsUnended }
{}
