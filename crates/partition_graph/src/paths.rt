//! The paths of placed models in names of nets.
ghost use Rattle.std.specs.Prelude.{◌≡◌, ◌<◌, ◌≤◌, ◌+◌, length, not};
ghost use Rattle.std.specs.List.{before_last, suffix_len};
ghost use Rattle.std.specs.Str.{bytes_eq};
ghost use Rattle.flat_net.specs.Net.{net_count};
ghost use Rattle.partition_graph.specs.Groups.{is_slash, path_of};

use flat_net::FlatNet;
use tmr_base::NetId;

/// How many bytes stand up to the last slash, with it; 0 where there is none.
fn slash_end(name: &[u8]) -> usize
    ensures end { result + suffix_len (λ b. not (is_slash b)) name.now ≡ length name.now }
{
    let mut end = name.len();
    while end > 0 && name[end - 1] != b'/' {
        end -= 1;
    }
    end
}

/// What stands before the last slash, or nothing where there is none.
fn before_slash(name: &[u8]) -> &[u8]
    ensures { result.now ≡ before_last is_slash name.now }
{
    let end = slash_end(name);
    if end == 0 {
        return &name[..0];
    }
    &name[..end - 1]
}

/// The path of net x.
#[tactic(auto, unfolding(crate::specs::Groups::path_of))]
pub fn path(n: &FlatNet, x: NetId) -> &[u8]
    requires { x.0 < net_count n.now.net }
    ensures { result.now ≡ path_of n.now.net x.0 }
{
    before_slash(n.name(x).bytes())
}

/// Both are the same bytes.
pub fn are_same(a: &[u8], b: &[u8]) -> bool
    ensures { result ≡ bytes_eq a.now b.now }
{
    a == b
}
