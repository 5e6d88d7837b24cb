//! The two designs that are searched.
ghost use Rattle.std.specs.Prelude.{◌≡◌, IfOk};

use crate::looks::Looks;
use flat_net::{FlatNet, FreeNet};
use std::alloc::Global;
use tmr_base::{NetId, OutOfMemory};

/// The original, the hardened design, and what the nodes of both look like.
#[derive(Drop)]
pub struct Designs<'a> {
    pub original: &'a FlatNet,
    pub hardened: &'a FlatNet,
    looks: Looks,
}

impl<'a> Designs<'a> {
    /// The two designs, with what their nodes look like to a certificate of this version: in version 2 marks count, and inputs
    /// are voted.
    pub fn of(
        alloc: Global,
        n: &'a FreeNet,
        h: &'a FreeNet,
        version: u8,
    ) -> Result<Designs<'a>, OutOfMemory>
        ensures original { IfOk result (λ designs. designs.original.now ≡ n.now.design) }
        ensures hardened { IfOk result (λ designs. designs.hardened.now ≡ h.now.design) }
    {
        let looks = Looks::of(alloc, n, h, version)?;
        Ok(Designs {
            original: n.net(),
            hardened: h.net(),
            looks,
        })
    }

    /// Original node x and hardened node g look alike.
    pub(crate) fn is_alike(&self, x: NetId, g: NetId) -> bool {
        self.looks.is_alike(self.original, self.hardened, x, g)
    }

    /// Hardened node g has the value of a majority.
    pub(crate) fn is_majority(&self, g: NetId) -> bool {
        self.looks.is_majority(self.hardened, g)
    }

    /// What original node i looks like, counted from 0.
    pub(crate) fn original_look(&self, i: usize) -> u64 {
        self.looks.original(i)
    }

    /// What hardened node i looks like, counted from 0.
    pub(crate) fn hardened_look(&self, i: usize) -> u64 {
        self.looks.hardened(i)
    }

    /// Pins that read inputs are voted, as version 2 has it.
    pub(crate) fn inputs_are_voted(&self) -> bool {
        self.looks.inputs_are_voted()
    }
}
