// Epochs of requests.

ghost use Rattle.ended_laws.specs.Epochs.{LooksReadLostEpochs, OnlyRestartsLoseEpochs};

/// A look reads the epoch that a request named only where a restart came behind the request.
pub fn looks_read_lost_epochs()
    ensures { LooksReadLostEpochs }
{}

/// So what looks read of epochs changes at restarts alone.
pub fn only_restarts_lose_epochs()
    ensures { OnlyRestartsLoseEpochs }
{}
