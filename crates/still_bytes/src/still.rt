//! Bytes that stay where they are for as long as the program runs.
ghost use Rattle.std.specs.Prelude.{◌≡◌, ℕ, ◌^◌, ◌<◌, ◌≤◌, List, [], length, take};
ghost use denote.RawPtr.{Ptr};
ghost use Rattle.bytes.specs.Ownership.{IsPlaced, seen_owns};

use std::marker::Model;
use std::slice;

// The right to read these bytes at this place, for as long as the program runs.
#[derive(Drop)]
pub(crate) struct Sight {
    ghost ptr: { Ptr },
    ghost items: { List ℕ },
    ghost placed: { IsPlaced ptr × (length items < 2 ^ 63) },
}

impl Model for Sight {
    ghost also_owns = { λ s. seen_owns [] [] s.ptr s.items };

    ghost also_shares = { λ s _ _. seen_owns [] [] s.ptr s.items };
}

impl Sight {
    fn of(bytes: &'static [u8]) -> (*const u8, Sight)
        ensures { (result.1.ptr ≡ result.0) × (result.1.items ≡ bytes.now) }
    {
        (bytes.as_ptr(), Sight {})
    }

    fn again(&self) -> Sight
        ensures { result ≡ self.now }
    {
        Sight {}
    }

    // The first bytes.
    fn read(&self, ptr: *const u8, count: usize) -> &[u8]
        requires { (ptr ≡ self.now.ptr) × (count ≤ length self.now.items) }
        ensures { result.now ≡ take count self.now.items }
    {
        unsafe { slice::from_raw_parts(ptr, count) }
    }
}

/// Bytes that stay where they are for as long as the program runs, whoever holds them. It is one word, and seen as these bytes.
#[derive(Drop)]
pub struct Still {
    at: *const u8,
    sight: Sight,
}

impl Model for Still {
    ghost use Rattle.std.specs.Prelude.{◌≡◌, ◌<◌, ◌^◌, ℕ, List, length};

    ghost Value = { List ℕ };

    ghost view = { λ s. s.sight.items };

    ghost invariant = { λ s. s.at ≡ s.sight.ptr };
}

// The pointer owns nothing, and nobody writes these bytes.
unsafe impl Send for Still {}

unsafe impl Sync for Still {}

impl Still {
    /// These bytes.
    pub fn new(bytes: &'static [u8]) -> Still
        ensures { result ≡ bytes.now }
    {
        let (at, sight) = Sight::of(bytes);
        Still { at, sight }
    }

    /// The first of them, so many.
    pub fn front(&self, count: usize) -> &[u8]
        requires { count ≤ length self.now }
        ensures { result.now ≡ take count self.now }
    {
        self.sight.read(self.at, count)
    }

    /// The same bytes once more, at the same place. Takes no memory.
    pub fn again(&self) -> Still
        ensures { result ≡ self.now }
    {
        Still {
            at: self.at,
            sight: self.sight.again(),
        }
    }
}

const _: () = prove!(size_of::<Still>() == 8);
