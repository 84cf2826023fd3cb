// Records of which the bytes may end too early.

ghost use Rattle.std.specs.Prelude.{◌≡◌, ◌↔◌, true};
ghost use Rattle.record_stream.specs.Scanning.{Gives, skipped, add_at as any_add_at, clr_at as any_clr_at, commit_at as any_commit_at, fields_at as any_fields_at, prepare_at as any_prepare_at, record_at as any_record_at, restart_at as any_restart_at, unadd_at as any_unadd_at, update_at as any_update_at};
ghost use Rattle.record_stream.specs.Streams.{Unfinished};

use crate::lists::{names_at, shards_at};
use crate::names::any_name_at;
use crate::numbers::{long_at, number_at};
use crate::stop::Stop;
use crate::values::value_at;

#[tactic(auto, unfolding(crate::specs::Scanning::update_at))]
fn update_at(bytes: &[u8]) -> Result<&[u8], Stop>
    ensures { Gives (λ rest. skipped rest.now) result (any_update_at bytes.now) }
{
    let rest = any_name_at(bytes)?;
    let rest = long_at(rest)?;
    let rest = value_at(rest)?;
    value_at(rest)
}

#[tactic(auto, unfolding(crate::specs::Scanning::clr_at))]
fn clr_at(bytes: &[u8]) -> Result<&[u8], Stop>
    ensures { Gives (λ rest. skipped rest.now) result (any_clr_at bytes.now) }
{
    let rest = any_name_at(bytes)?;
    let rest = long_at(rest)?;
    let rest = long_at(rest)?;
    value_at(rest)
}

#[tactic(auto, unfolding(crate::specs::Scanning::prepare_at))]
fn prepare_at(bytes: &[u8]) -> Result<&[u8], Stop>
    ensures { Gives (λ rest. skipped rest.now) result (any_prepare_at bytes.now) }
{
    let rest = any_name_at(bytes)?;
    let (_, rest) = number_at(rest, 4, 0, 15)?;
    names_at(rest)
}

#[tactic(auto, unfolding(crate::specs::Scanning::commit_at))]
fn commit_at(bytes: &[u8]) -> Result<&[u8], Stop>
    ensures { Gives (λ rest. skipped rest.now) result (any_commit_at bytes.now) }
{
    let rest = any_name_at(bytes)?;
    shards_at(rest)
}

#[tactic(auto, unfolding(crate::specs::Scanning::restart_at))]
fn restart_at(bytes: &[u8]) -> Result<&[u8], Stop>
    ensures { Gives (λ rest. skipped rest.now) result (any_restart_at bytes.now) }
{
    let (_, rest) = number_at(bytes, 4, 1, u32::MAX as u64)?;
    long_at(rest)
}

#[tactic(auto, unfolding(crate::specs::Scanning::add_at))]
fn add_at(bytes: &[u8]) -> Result<&[u8], Stop>
    ensures { Gives (λ rest. skipped rest.now) result (any_add_at bytes.now) }
{
    let rest = any_name_at(bytes)?;
    let rest = long_at(rest)?;
    long_at(rest)
}

#[tactic(auto, unfolding(crate::specs::Scanning::unadd_at))]
fn unadd_at(bytes: &[u8]) -> Result<&[u8], Stop>
    ensures { Gives (λ rest. skipped rest.now) result (any_unadd_at bytes.now) }
{
    let rest = any_name_at(bytes)?;
    let rest = long_at(rest)?;
    let rest = long_at(rest)?;
    long_at(rest)
}

fn fields_at(kind: u8, bytes: &[u8]) -> Result<&[u8], Stop>
    ensures { Gives (λ rest. skipped rest.now) result (any_fields_at kind bytes.now) }
{
    match kind {
        1 => update_at(bytes),
        2 => clr_at(bytes),
        3 => prepare_at(bytes),
        4 => commit_at(bytes),
        5 => any_name_at(bytes),
        6 => any_name_at(bytes),
        7 => restart_at(bytes),
        8 => add_at(bytes),
        9 => unadd_at(bytes),
        _ => Err(Stop::Bad),
    }
}

#[tactic(auto, unfolding(crate::specs::Scanning::record_at))]
fn record_at(bytes: &[u8]) -> Result<&[u8], Stop>
    ensures { Gives (λ rest. skipped rest.now) result (any_record_at bytes.now) }
{
    match bytes {
        [] => Err(Stop::Cut),
        [kind, fields @ ..] => fields_at(*kind, fields),
    }
}

/// Whether the bytes begin the spelling of some record, and are not all of it. Takes no memory, and time in proportion to the bytes, or to the
/// longest spelling.
pub fn is_unfinished(bytes: &[u8]) -> bool
    ensures { (result ≡ true) ↔ Unfinished bytes.now }
{
    match record_at(bytes) {
        Ok(_) => false,
        Err(Stop::Cut) => true,
        Err(Stop::Bad) => false,
    }
}
