// What restarts may make of a log.

ghost use Rattle.protocol_laws.specs.RestartLaws.{RestartsLeadToOne, RestartsReach, MisfitIsExact};

/// From a log that was found, restarts of which any number failed anywhere lead to one log up to the RESTART of an epoch, and to no other.
pub fn restarts_lead_to_one_log()
    ensures { RestartsLeadToOne }
{}

/// They can lead to it for every epoch from the next one on.
pub fn restarts_reach_each_epoch()
    ensures { RestartsReach }
{}

/// A log has no misfit with an epoch exactly where restarts may have led to it from the durable records, with or without those in flight.
pub fn misfit_is_exact()
    ensures { MisfitIsExact }
{}
