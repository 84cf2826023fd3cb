// Values of which the bytes may end too early.

ghost use Rattle.std.specs.Prelude.{◌≡◌};
ghost use Rattle.record_stream.specs.Scanning.{Gives, skipped, text_at as any_text_at, value_at as any_value_at};

use crate::numbers::{long_at, number_at};
use crate::stop::Stop;

// At most 200 bytes, behind their count.
#[tactic(auto, unfolding(crate::specs::Scanning::text_at))]
fn text_at(bytes: &[u8]) -> Result<&[u8], Stop>
    ensures { Gives (λ rest. skipped rest.now) result (any_text_at bytes.now) }
{
    let (count, rest) = number_at(bytes, 1, 0, 200)?;
    let count = count as usize;
    if rest.len() < count {
        return Err(Stop::Cut);
    }
    Ok(&rest[count..])
}

/// The bytes after a value that may be none.
#[tactic(auto, unfolding(crate::specs::Scanning::value_at))]
pub fn value_at(bytes: &[u8]) -> Result<&[u8], Stop>
    ensures { Gives (λ rest. skipped rest.now) result (any_value_at bytes.now) }
{
    match bytes {
        [] => Err(Stop::Cut),
        [0, rest @ ..] => Ok(rest),
        [1, rest @ ..] => long_at(rest),
        [2, rest @ ..] => text_at(rest),
        [_, ..] => Err(Stop::Bad),
    }
}
