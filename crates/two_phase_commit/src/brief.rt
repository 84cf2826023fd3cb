//! What a look into a hash map tells of a request.
ghost use Rattle.std.specs.Prelude.{◌≡◌};
ghost use Rattle.two_phase_commit.specs.Asked.{rests as nothing_is_due};

use crate::form::Stage;

/// What is told of a request without a search for it.
#[derive(Clone, Copy)]
pub(crate) enum Brief {
    /// It touched its home alone, and is so far.
    Alone(Stage),
    /// The table of requests tells it.
    Other,
}

/// Whether nothing is due of such a request, as is plain without it: `waits` is whether the home's part is closed and undecided, `doomed` whether an
/// abort took it away. Where a part wrote its COMMIT as it closed the request stays undecided for good, so this is told of most.
pub(crate) fn rests(brief: Brief, waits: bool, doomed: bool) -> bool
    ensures { result ≡ nothing_is_due brief waits doomed }
{
    match brief {
        Brief::Alone(Stage::Undecided) => !waits && !doomed,
        Brief::Alone(Stage::Committed | Stage::Finished | Stage::Asked) => true,
        Brief::Other => false,
    }
}
