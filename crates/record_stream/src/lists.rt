// Lists that rise, of which the bytes may end too early. Each element leaves room for those that must follow.

ghost use Rattle.std.specs.Prelude.{◌≡◌, ◌≤◌, ◌<◌, ◌+◌, suc, IfOk};
ghost use Rattle.record_stream.specs.Naming.{GoesOn, HasRoom};
ghost use Rattle.record_stream.specs.Scanning.{Gives, skipped, names_at as any_names_at, names_from as rising_names_from, shards_at as any_shards_at, shards_from as rising_shards_from, first_name as least_name};

use crate::names::{first_name, last_name, name_at, next_name};
use crate::numbers::number_at;
use crate::stop::Stop;
use clv_base::names::TxId;

// A name from least on, that has so many more to follow: from where these go on, and the bytes after it.
#[tactic(auto, unfolding(crate::specs::Scanning::names_from))]
fn step(bytes: &[u8], least: TxId, more: u32) -> Result<(TxId, &[u8]), Stop>
    requires few { more < 1024 }
    requires room { HasRoom (suc more) least }
    ensures is { GoesOn (λ x. rising_names_from more x.0 x.1.now) result (rising_names_from (suc more) least bytes.now) }
    ensures room { IfOk result (λ x. HasRoom more x.0) }
{
    let (tx, rest) = name_at(bytes, least, last_name(more))?;
    if more == 0 {
        return Ok((tx, rest));
    }
    Ok((next_name(tx), rest))
}

fn names_from(bytes: &[u8], count: u32) -> Result<&[u8], Stop>
    requires { count ≤ 1024 }
    ensures { Gives (λ rest. skipped rest.now) result (rising_names_from count least_name bytes.now) }
{
    let mut least = first_name();
    let mut rest = bytes;
    let mut more = count;
    while more > 0 {
        more -= 1;
        (least, rest) = step(rest, least, more)?;
    }
    Ok(rest)
}

/// The bytes after a list of at most 1,024 names.
#[tactic(auto, unfolding(crate::specs::Scanning::names_at))]
pub fn names_at(bytes: &[u8]) -> Result<&[u8], Stop>
    ensures { Gives (λ rest. skipped rest.now) result (any_names_at bytes.now) }
{
    let (count, rest) = number_at(bytes, 4, 0, 1024)?;
    names_from(rest, count as u32)
}

fn shards_from(bytes: &[u8], count: u64) -> Result<&[u8], Stop>
    requires { count ≤ 15 }
    ensures { Gives (λ rest. skipped rest.now) result (rising_shards_from count 0 bytes.now) }
{
    let mut least = 0;
    let mut rest = bytes;
    let mut more = count;
    while more > 0 {
        more -= 1;
        let (shard, after) = number_at(rest, 4, least, 15 - more)?;
        least = shard + 1;
        rest = after;
    }
    Ok(rest)
}

/// The bytes after a list of at most 15 shards.
#[tactic(auto, unfolding(crate::specs::Scanning::shards_at))]
pub fn shards_at(bytes: &[u8]) -> Result<&[u8], Stop>
    ensures { Gives (λ rest. skipped rest.now) result (any_shards_at bytes.now) }
{
    let (count, rest) = number_at(bytes, 4, 0, 15)?;
    shards_from(rest, count)
}
