//! The bytes of a name.

ghost use Rattle.std.specs.Prelude.{◌≡◌, [], length, IfOk};

use std::alloc::{AllocError, Global};
use std::marker::Model;

/// Bytes in one vector, which contracts see as a list.
#[derive(Debug, Drop)]
pub struct ByteList {
    items: Vec<u8>,
}

impl Model for ByteList {
    ghost use Rattle.std.specs.Prelude.{ℕ, List};

    ghost Value = { List ℕ };

    ghost view = { λ b. b.items.items };
}

impl ByteList {
    /// No bytes. It takes no memory.
    pub fn new(alloc: Global) -> Self
        ensures { result ≡ [] }
    {
        ByteList {
            items: Vec::new(alloc),
        }
    }

    /// A copy of these bytes. It fails only when out of memory.
    pub fn copy_of(alloc: Global, bytes: &[u8]) -> Result<Self, AllocError>
        ensures { IfOk result (λ b. b ≡ bytes.now) }
    {
        Ok(ByteList {
            items: Vec::from_slice(alloc, bytes)?,
        })
    }

    /// All bytes.
    pub fn as_slice(&self) -> &[u8]
        ensures { result.now ≡ self.now }
    {
        self.items.as_slice()
    }

    /// How many bytes there are.
    pub fn len(&self) -> usize
        ensures { result ≡ length self.now }
    {
        self.items.as_slice().len()
    }
}
