//! Nodes in partitions.
ghost use Rattle.std.specs.Prelude.{◌≡◌, ◌<◌, length, All, slice_index};

use std::marker::Model;

/// A number of partitions, and the partition of each node.
#[derive(Drop)]
pub struct Parts {
    count: u32,
    of: Vec<u32>,
}

impl Model for Parts {
    ghost use Rattle.tmr_base.specs.Parts.{PlainParts, AreParts};

    ghost Value = { PlainParts };

    ghost view = { λ parts. record { count = parts.count; of = parts.of.items } };

    ghost invariant = { λ parts. AreParts (record { count = parts.count; of = parts.of.items }) };
}

impl Parts {
    /// The partition of each node, in the order of nodes. Each number is below `count`.
    pub fn make(count: u32, of: Vec<u32>) -> Parts
        requires in_range { All (λ p. p < count) of.items }
        requires few { length of.items < 4294967295 }
        ensures { result ≡ record { count = count; of = of.items } }
    {
        Parts { count, of }
    }

    /// How many partitions there are. Some may be empty.
    pub fn count(&self) -> u32
        ensures { result ≡ self.now.count }
    {
        self.count
    }

    /// How many nodes there are.
    pub fn len(&self) -> u32
        ensures len { result ≡ length self.now.of }
        ensures few { length self.now.of < 4294967295 }
    {
        self.of.len() as u32
    }

    /// The partition of node i.
    pub fn of(&self, i: u32) -> u32
        requires { i < length self.now.of }
        ensures value { result ≡ slice_index self.now.of i }
        ensures range { result < self.now.count }
    {
        self.of[i as usize]
    }
}
