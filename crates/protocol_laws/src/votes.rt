// What the facts by which a part votes say of the log.

ghost use Rattle.protocol_laws.specs.FactLaws.{PredecessorsByFacts};

/// By the facts of a part the COMMITs of all its predecessors are durable exactly where each one's is.
pub fn predecessors_by_facts()
    ensures { PredecessorsByFacts }
{}
