// Numbers of which the bytes may end too early.

ghost use Rattle.std.specs.Prelude.{◌≡◌, ◌≤◌, IfOk};
ghost use Rattle.record_stream.specs.Scanning.{Gives, skipped, long_at as any_long_at, number_at as number_between_at, goes_on as number_goes_on, stop_by as stops_by};

use crate::stop::Stop;
use byteorder::{ByteOrder, LittleEndian};

// Whether these are the lowest bytes of some number from least to most.
fn goes_on(bytes: &[u8], least: u64, most: u64) -> bool
    ensures { result ≡ number_goes_on least most bytes.now }
{
    let [byte, rest @ ..] = bytes else {
        return least <= most;
    };
    let byte = *byte as u64;
    if most < byte {
        return false;
    }
    goes_on(
        rest,
        least.saturating_sub(byte).div_ceil(256),
        (most - byte) / 256,
    )
}

fn stop_by(goes_on: bool) -> Stop
    ensures { result ≡ stops_by goes_on }
{
    if goes_on { Stop::Cut } else { Stop::Bad }
}

/// A number of so many bytes, from least to most.
#[tactic(auto, unfolding(crate::specs::Scanning::number_at))]
pub fn number_at(bytes: &[u8], width: usize, least: u64, most: u64) -> Result<(u64, &[u8]), Stop>
    requires some { 1 ≤ width }
    requires few { width ≤ 8 }
    ensures is { Gives (λ x. (x.0, x.1.now)) result (number_between_at width least most bytes.now) }
    ensures within { IfOk result (λ x. (least ≤ x.0) × (x.0 ≤ most)) }
{
    if bytes.len() < width {
        return Err(stop_by(goes_on(bytes, least, most)));
    }
    let number = LittleEndian::read_uint(bytes, width);
    if number < least || number > most {
        return Err(Stop::Bad);
    }
    Ok((number, &bytes[width..]))
}

/// The bytes after any number of 8 bytes.
#[tactic(auto, unfolding(crate::specs::Scanning::long_at))]
pub fn long_at(bytes: &[u8]) -> Result<&[u8], Stop>
    ensures { Gives (λ rest. skipped rest.now) result (any_long_at bytes.now) }
{
    let (_, rest) = number_at(bytes, 8, 0, u64::MAX)?;
    Ok(rest)
}
