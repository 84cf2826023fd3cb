//! Laws of the histories of one shard, with messages, flushes, crashes and restarts, from any log in order: its members replay to their
//! answers and to the map that each cut of its log stands for, and whose writes a member violated is a member before it. Those that the log
//! found leaves in doubt begin as transactions that acted and asked before the opening; who asked later replays from the map with the chosen
//! ones of them. A restart restores what is in doubt in the log that it finds, also where its abort was taken here and is lost with the log's
//! end. At every moment the log keeps the order rules. What messages and sessions owe is a premise here, step by step (`MayHappen`). Stands on
//! `law_base`, `protocol_laws`, `serial_laws` and the definitions of `clv_base`.
#![tactic(auto)]

pub mod laws;
