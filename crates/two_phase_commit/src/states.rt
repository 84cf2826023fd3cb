//! How far a request is.
ghost use Rattle.std.specs.Prelude.{◌≡◌};
ghost use Rattle.two_phase_commit.specs.Coordinated.{open_state, parts_of, undecided};

use clv_base::parts::ShardList;
use clv_base::state::RequestState;

/// Whether nothing is ruled.
pub(crate) fn is_undecided(state: &RequestState) -> bool
    ensures { result ≡ undecided state.now }
{
    match state {
        RequestState::Undecided => true,
        RequestState::Committed { .. } | RequestState::Finished | RequestState::Refused { .. } =>
            false,
    }
}

/// Whether nothing is ruled, or a commit is.
pub(crate) fn is_open(state: &RequestState) -> bool
    ensures { result ≡ open_state state.now }
{
    match state {
        RequestState::Undecided | RequestState::Committed { .. } => true,
        RequestState::Finished | RequestState::Refused { .. } => false,
    }
}

/// The same state. Takes no memory.
pub(crate) fn copied(state: &RequestState) -> RequestState
    ensures { result ≡ state.now }
{
    match state {
        RequestState::Undecided => RequestState::Undecided,
        RequestState::Committed { parts } => RequestState::Committed {
            parts: parts.copied(),
        },
        RequestState::Finished => RequestState::Finished,
        RequestState::Refused { cause } => RequestState::Refused { cause: *cause },
    }
}

/// The parts of a commit.
pub(crate) fn told_parts(state: &RequestState) -> ShardList
    ensures { result ≡ parts_of state.now }
{
    match state {
        RequestState::Committed { parts } => parts.copied(),
        RequestState::Undecided | RequestState::Finished | RequestState::Refused { .. } =>
            ShardList::new(),
    }
}
