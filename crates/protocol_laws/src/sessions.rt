// What the entries of a session keep to.

ghost use Rattle.protocol_laws.specs.SessionLaws.{SessionsKeepOrder};

/// The entries of a session: its transactions are of the run and of the session, their serials never fall, operations and
/// goings back are numbered from 1 without a hole, and none of them and no request of a transaction follows where it died, made its request or was dropped.
pub fn sessions_keep_order()
    ensures { SessionsKeepOrder }
{}
