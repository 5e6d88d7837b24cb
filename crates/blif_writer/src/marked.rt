//! A design that is to be written, with its marks.
ghost use Rattle.std.specs.Prelude.{◌≡◌, ◌<◌, length};
ghost use Rattle.flat_net.specs.Net.{net_count};
ghost use Rattle.flat_net.specs.Free.{node_bit};
ghost use Rattle.blif_writer.specs.Marks.{net_in, marks_in};

use flat_net::{FlatNet, FreeNet};
use tmr_base::NetId;

/// A design of which no register is marked, or one with its marks.
#[derive(Clone, Copy, Drop)]
pub enum Marked<'a> {
    Plain(&'a FlatNet),
    Free(&'a FreeNet),
}

impl<'a> Marked<'a> {
    pub fn net(self) -> &'a FlatNet
        ensures { result.now.net ≡ net_in self.entry }
    {
        match self {
            Marked::Plain(n) => n,
            Marked::Free(n) => n.net(),
        }
    }

    /// Whether net x is a register whose value in cycle 0 is free.
    #[tactic(auto, using(crate::proofs::NodeLines::node_bit_none))]
    pub fn is_free(self, x: NetId) -> bool
        requires { x.0 < net_count (net_in self) }
        ensures { result ≡ node_bit (length (net_in self.entry).inputs) (marks_in self.entry) x.0 }
    {
        match self {
            Marked::Plain(_) => false,
            Marked::Free(n) => n.is_free(x),
        }
    }
}
