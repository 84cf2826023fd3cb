// A whole script.

ghost use Rattle.std.specs.Prelude.{◌≡◌, ◌<◌, ℕ, ◌∷◌, length, IfOk, IfErr};
ghost use Rattle.script_lang.specs.Grammar.{lines_of, IsScript, IsRefused};

use crate::lines::{line_of, parted};
use crate::reader::Reader;
use crate::script::Script;
use std::alloc::Global;

/// The bytes of the longest script.
pub const MOST_BYTES: usize = 16_777_216;

/// Why a text is no script.
#[derive(Clone, Copy, PartialEq, Eq)]
pub enum ScriptError {
    /// This line, counted from 1, is the first outside the grammar at its place; 0 where there are too many bytes.
    Refused { line: u64 },
    /// There was no memory.
    Memory,
}

// The first line of what isn't empty, and what is behind it.
fn cut_line(bytes: &[u8]) -> (&[u8], &[u8])
    requires { 0 < length bytes.now }
    ensures cut { lines_of bytes.now ≡ result.0.now ∷ lines_of result.1.now }
    ensures shorter { length result.1.now < length bytes.now }
{
    match parted(bytes, b'\n') {
        Some((line, behind)) => (line, behind),
        None => (bytes, &[]),
    }
}

/// What a script says, or the first line outside the grammar at its place. Takes time linear in the bytes.
pub fn parse(alloc: Global, bytes: &[u8]) -> Result<Script, ScriptError>
    ensures script { IfOk result (λ script. IsScript bytes.now script) }
    ensures refused { IfErr result (λ error. (line : ℕ) → error ≡ ScriptError.Refused line → IsRefused bytes.now line) }
{
    if bytes.len() > MOST_BYTES {
        return Err(ScriptError::Refused { line: 0 });
    }
    let mut reader = Reader::new(alloc);
    let mut rest = bytes;
    let mut number: u64 = 0;
    while !rest.is_empty() {
        let (line, behind) = cut_line(rest);
        number += 1;
        let Ok(line) = line_of(alloc, line) else {
            return Err(ScriptError::Memory);
        };
        let Some(line) = line else {
            return Err(ScriptError::Refused { line: number });
        };
        let Ok(has_place) = reader.take(alloc, line) else {
            return Err(ScriptError::Memory);
        };
        if !has_place {
            return Err(ScriptError::Refused { line: number });
        }
        rest = behind;
    }
    match reader.into_script() {
        Ok(Some(script)) => Ok(script),
        Ok(None) => Err(ScriptError::Refused { line: number + 1 }),
        Err(_) => Err(ScriptError::Memory),
    }
}
