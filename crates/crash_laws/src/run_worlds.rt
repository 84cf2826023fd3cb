// Worlds that are run by a list of steps.
ghost use Rattle.crash_laws.specs.PromiseLaws.{LogsStayInOrder, WorldsKeepPromise};

/// Each log that a crash of a shard leaves now is in order.
pub fn logs_stay_in_order()
    ensures { LogsStayInOrder }
{}

/// The history of a world that is run from empty logs has the whole promise, whatever a crash keeps.
pub fn worlds_keep_promise()
    ensures { WorldsKeepPromise }
{}
