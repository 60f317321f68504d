//! The tree of a document: pairs of keys and values, with their bytes as they were written.

ghost use Rattle.std.specs.Prelude.{◌≡◌, IfOk};

use smallvec::SmallVec;
use std::alloc::{AllocError, Global};
use std::marker::Model;

/// Bytes as they were written. Up to sixteen take no memory.
#[derive(Debug, Drop)]
pub struct Bytes(pub SmallVec<u8, 16, Global>);

impl Model for Bytes {
    ghost use Rattle.std.specs.Prelude.{List, ℕ};

    ghost Value = { List ℕ };

    ghost view = { λ b. b.0.items };
}

impl Bytes {
    /// These bytes. The only error is out of memory.
    pub fn from_slice(alloc: Global, bytes: &[u8]) -> Result<Bytes, AllocError>
        ensures { IfOk result (λ b. b ≡ bytes.now) }
    {
        Ok(Bytes(SmallVec::from_slice(alloc, bytes)?))
    }

    /// The bytes of the list.
    pub fn from_vec(bytes: Vec<u8>) -> Bytes
        ensures { result ≡ bytes.items }
    {
        Bytes(SmallVec::from_vec(bytes))
    }

    /// The bytes, in order.
    pub fn as_slice(&self) -> &[u8]
        ensures { result.now ≡ self.now }
    {
        self.0.as_slice()
    }
}

/// The value of a key.
#[cycle(tree)]
#[derive(Debug, Drop)]
pub enum Value {
    /// A number, with the bytes that spell it.
    Number(Bytes),
    /// The bytes between the quotes of a string, with escapes as they were written.
    Text(Bytes),
    /// A list of pairs.
    List(Vec<Pair>),
}

/// A key with its value.
#[cycle(tree)]
#[derive(Debug, Drop)]
pub struct Pair {
    pub key: Bytes,
    pub value: Value,
}

/// A document: its pairs, in order.
#[derive(Debug, Drop)]
pub struct Doc {
    pub pairs: Vec<Pair>,
}
