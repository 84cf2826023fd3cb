// A line whose bytes come one after another.

ghost use Rattle.std.specs.Prelude.{◌≡◌, ◌∷◌, [], ℕ, IfOk, IsTrue, ◌↔◌, false, option_map, ◌⊎◌, true};
ghost use Rattle.live_lines.specs.Cutting.{none_begun, with_byte, line_in};

use std::alloc::{AllocError, Global};
use std::marker::Model;

/// A line has at most so many bytes.
pub const MOST_BYTES: usize = 4096;

/// The line that has begun. What of it is past the most bytes is not kept.
#[derive(Drop)]
pub struct Cutter {
    front: Vec<u8>,
    is_cut: bool,
}

impl Model for Cutter {
    ghost use Rattle.std.specs.Prelude.{◌≤◌, vec_capacity};
    ghost use Rattle.live_lines.specs.Cutting.{Begun, most_bytes};

    ghost Value = { Begun };

    ghost view = { λ c. record { front = c.front.items; is_cut = c.is_cut } };

    ghost invariant = { λ c. most_bytes ≤ vec_capacity c.front };
}

impl Cutter {
    /// At the beginning of a line. It takes all its memory here.
    pub fn new(alloc: Global) -> Result<Cutter, AllocError>
        ensures { IfOk result (λ c. c ≡ none_begun) }
    {
        Ok(Cutter {
            front: Vec::with_capacity(alloc, MOST_BYTES)?,
            is_cut: false,
        })
    }

    /// The line goes on with this byte.
    pub fn take(&mut self, byte: u8)
        ensures { self.new ≡ with_byte self.old byte }
    {
        if self.front.len() < MOST_BYTES {
            self.front.push_reserved(byte);
        } else {
            self.is_cut = true;
        }
    }

    /// The line so far, or none where it is too long.
    pub fn line(&self) -> Option<&[u8]>
        ensures { option_map (λ l. l.now) result ≡ line_in self.now }
    {
        if self.is_cut {
            None
        } else {
            Some(self.front.as_slice())
        }
    }

    /// Whether a byte has come.
    pub fn has_begun(&self) -> bool
        ensures { IsTrue result ↔ (self.now.front ≡ [] → ⊥) }
    {
        !self.front.is_empty()
    }

    /// The next line begins.
    pub fn begin(&mut self)
        ensures { self.new ≡ none_begun }
    {
        self.front.clear();
        self.is_cut = false;
    }
}
