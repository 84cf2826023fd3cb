// Short texts of bytes.

ghost use Rattle.std.specs.Prelude.{◌≡◌, ℕ, ◌≤◌, List, length, ⊤, IfOk};

use std::alloc::{AllocError, Global};
use std::marker::Model;
use still_bytes::Still;

/// At most 200 bytes. They stay in memory for as long as the program runs, whoever holds them, so that a copy takes no memory and can't fail.
#[derive(Drop)]
pub struct ByteText {
    // How many bytes it has, and these.
    block: Still,
}

impl Model for ByteText {
    ghost use Rattle.std.specs.Prelude.{List, ℕ, drop};
    ghost use Rattle.clv_base.specs.Texts.{IsCounted};

    ghost Value = { List ℕ };

    ghost view = { λ t. drop 1 t.block };

    ghost invariant = { λ t. IsCounted t.block };
}

impl ByteText {
    /// A text of these bytes.
    pub fn new(alloc: Global, bytes: &[u8]) -> Result<ByteText, AllocError>
        requires { length bytes.now ≤ 200 }
        ensures { IfOk result (λ text. text ≡ bytes.now) }
    {
        let mut block = Vec::with_capacity(alloc, bytes.len() + 1)?;
        block.push(bytes.len() as u8)?;
        block.extend_from_slice(bytes)?;
        Ok(ByteText {
            block: Still::new(block.leak()),
        })
    }

    /// The bytes.
    pub fn as_slice(&self) -> &[u8]
        ensures bytes { result.now ≡ self.now }
        ensures short { length self.now ≤ 200 }
    {
        let count = self.block.front(1)[0] as usize;
        &self.block.front(count + 1)[1..]
    }

    /// The same text once more. Takes no memory.
    pub fn copy(&self) -> ByteText
        ensures { result ≡ self.now }
    {
        ByteText {
            block: self.block.again(),
        }
    }
}

impl Clone for ByteText {
    ghost is_clone = { λ a b. b ≡ a };

    ghost is_infallible = { λ _. ⊤ };

    fn clone(&self) -> Result<ByteText, AllocError> {
        Ok(self.copy())
    }
}

impl PartialEq for ByteText {
    ghost use Rattle.std.specs.Prelude.{nat_eq};
    ghost use Rattle.std.specs.Cmp.{partial_equiv_from_equiv};
    ghost use Rattle.std.specs.Cmp.Lexicographic.{pointwise, nat_list_eq_equiv};

    ghost eq = { pointwise nat_eq };

    ghost laws = { partial_equiv_from_equiv nat_list_eq_equiv };

    fn eq(&self, other: &Self) -> bool {
        self.as_slice() == other.as_slice()
    }
}

impl Eq for ByteText {
    ghost use Rattle.std.specs.Cmp.Lexicographic.{nat_list_eq_equiv};

    ghost laws = { nat_list_eq_equiv };
}
