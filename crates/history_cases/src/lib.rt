//! What laws of whole histories go by: the cases of an event and of an entry (`Stepping`, `Entering`), what an entry leaves as it is
//! (`Durability`), where entries stand in a history (`Merging`), what is told (`Telling`, `TellingEvents`), and the induction over a history,
//! with all shards at once (`Worlds`). It has no law of its own; the lemmas are in proofs/, by topic. It stands on the definitions of
//! `clv_base` and on the laws of single events in `protocol_laws`.
#![tactic(auto)]
