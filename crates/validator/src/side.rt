//! One of the two designs, with the marks of it that count.
ghost use Rattle.std.specs.Prelude.{◌≡◌, ◌<◌, length};
ghost use Rattle.flat_net.specs.Net.{net_count, IsDesign};
ghost use Rattle.flat_net.specs.Free.{node_bit};
ghost use Rattle.certificate.specs.Starts.{counted};
ghost use Rattle.validator.specs.Sides.{net_in, marks_in};

use certificate::Certificate;
use flat_net::{FlatNet, FreeNet};
use tmr_base::NetId;

/// A design of which no mark counts, or one with its marks.
#[derive(Clone, Copy, Drop)]
pub enum Side<'a> {
    Plain(&'a FlatNet),
    Free(&'a FreeNet),
}

impl<'a> Side<'a> {
    /// The design, with the marks that this certificate counts: in version 1 none.
    pub fn counted(n: &'a FreeNet, c: &Certificate) -> Side<'a>
        ensures net { net_in result ≡ n.now.design.net }
        ensures marks { marks_in result ≡ counted c.now n.now.free }
    {
        if c.version() == 1 {
            Side::Plain(n.net())
        } else {
            Side::Free(n)
        }
    }

    pub fn net(self) -> &'a FlatNet
        ensures { result.now.net ≡ net_in self.entry }
    {
        match self {
            Side::Plain(n) => n,
            Side::Free(n) => n.net(),
        }
    }

    /// Whether net x is marked.
    #[tactic(auto, using(crate::proofs::Starts::node_bit_none))]
    pub fn is_free(self, x: NetId) -> bool
        requires { x.0 < net_count (net_in self) }
        ensures { result ≡ node_bit (length (net_in self.entry).inputs) (marks_in self.entry) x.0 }
    {
        match self {
            Side::Plain(_) => false,
            Side::Free(n) => n.is_free(x),
        }
    }
}
