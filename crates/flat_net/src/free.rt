//! Designs of which some registers begin with a free value.
ghost use Rattle.std.specs.Prelude.{◌≡◌, ◌<◌, ◌≤◌, length, count_by};
ghost use Rattle.flat_net.specs.Net.{net_count};
ghost use Rattle.flat_net.specs.Free.{node_bit, AreMarks};

use crate::FlatNet;
use std::marker::Model;
use tmr_base::NetId;

/// A design with a mark for each node. The value in cycle 0 of a marked register is left free, and its
/// initial value is 0; no other node is marked.
#[derive(Drop)]
pub struct FreeNet {
    net: FlatNet,
    free: Vec<bool>,
}

/// How many of these bits are true.
fn true_count(bits: &[bool]) -> usize
    ensures count { result ≡ count_by (λ bit. bit) bits.now }
    ensures bound { result ≤ length bits.now }
{
    bits.iter().filter(|bit| **bit).count()
}

impl Model for FreeNet {
    ghost use Rattle.flat_net.specs.Free.{FreeDesign, AreMarks};

    ghost Value = { FreeDesign };

    ghost use Rattle.flat_net.specs.FreeView.{free_design_of};

    ghost view = { free_design_of };

    ghost invariant = { λ n. AreMarks n.net.net n.free.items };
}

impl FreeNet {
    /// A design with these marks, one for each node in order, true only at registers whose initial value
    /// is 0.
    pub fn make(net: FlatNet, free: Vec<bool>) -> FreeNet
        requires { AreMarks net.net free.items }
        ensures { result ≡ record { design = net; free = free.items } }
    {
        FreeNet { net, free }
    }

    /// The design, in which a marked register has the initial value 0. Each design has a mark for each
    /// node.
    pub fn net(&self) -> &FlatNet
        ensures net { result.now ≡ self.now.design }
        ensures marks { AreMarks self.now.design.net self.now.free }
    {
        &self.net
    }

    /// The design alone.
    pub fn into_net(self) -> FlatNet
        ensures { result ≡ self.design }
    {
        let FreeNet { net, free: _ } = self;
        net
    }

    /// Whether net x is a register whose value in cycle 0 is free.
    #[tactic(auto, using(crate::proofs::Slots::slot_below, crate::proofs::Slots::slot_read))]
    pub fn is_free(&self, x: NetId) -> bool
        requires { x.0 < net_count self.now.design.net }
        ensures { result ≡ node_bit (length self.now.design.net.inputs) self.now.free x.0 }
    {
        let inputs = self.net.input_count();
        if x.0 < inputs {
            return false;
        }
        self.free[(x.0 - inputs) as usize]
    }

    /// How many registers begin with a free value.
    pub fn free_count(&self) -> u32
        ensures { result ≡ count_by (λ bit. bit) self.now.free }
    {
        // No design has more nodes than a u32 counts.
        self.net.node_count();
        true_count(&self.free) as u32
    }
}
