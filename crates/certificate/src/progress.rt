//! What was read of a certificate's text so far, and what the next line adds.
ghost use Rattle.std.specs.Prelude.{◌≡◌, ◌<◌, ◌≤◌, length, IfErr, OnOk};
ghost use Rattle.certificate.specs.Carrying.{carry, carry_parts, Passes, Refuses};
ghost use Rattle.certificate.specs.declared.progress.Stage.TheVariants.{Counted};

use crate::line_kinds::{Scope, read_end, read_parts, read_version};
use crate::reading::{NodeTable, pass_given, take_node, take_part, take_voter};
use crate::{CertFault, Role};
use flat_net::FlatNet;
use std::alloc::Global;

/// Which lines were read.
#[derive(Clone, Copy, Debug, Drop)]
pub enum Stage {
    /// None.
    Begun,
    /// The first line, which names the version.
    Versioned { version: u8 },
    /// The first two lines, and those that the tables hold.
    Counted { version: u8, parts: u32 },
    /// All lines.
    Ended { version: u8 },
}

/// Which lines were read, and what they say.
#[derive(Drop)]
pub struct Progress {
    pub stage: Stage,
    pub depth: Vec<u32>,
    pub nodes: NodeTable,
    pub roles: Vec<Role>,
}

/// Takes the line of a voter, or `end` where none is left. All depths and nodes are read.
fn take_voter_or_end(
    alloc: Global,
    scope: &Scope<'_>,
    progress: &mut Progress,
    text: &[u8],
    line: u64,
) -> Result<(), CertFault>
    requires stage { progress.old.stage ≡ Counted scope.now.version scope.now.parts }
    requires depths { scope.now.parts ≤ length progress.old.depth.items }
    requires nodes { length scope.now.original.now.net.nodes ≤ length progress.old.nodes.part.items }
    requires roles { length progress.old.nodes.roles.items ≡ length scope.now.hardened.now.net.nodes }
    ensures passes { OnOk result (Passes (carry scope.now.original.now.net scope.now.hardened.now.net progress.old) (carry scope.now.original.now.net scope.now.hardened.now.net progress.new) text.now line) }
    ensures refuses { IfErr result (λ fault. Refuses (carry scope.now.original.now.net scope.now.hardened.now.net progress.old) fault text.now line) }
    ensures roles { OnOk result (length progress.new.nodes.roles.items ≡ length progress.old.nodes.roles.items) }
{
    pass_given(&progress.nodes.roles, &mut progress.roles)?;
    if progress.roles.len() < scope.hardened.node_count() as usize {
        take_voter(alloc, scope, &mut progress.roles, text, line)?;
        return Ok(());
    }
    read_end(text, line)?;
    progress.stage = Stage::Ended {
        version: scope.version,
    };
    Ok(())
}

/// Takes a line behind the first two.
fn take_inner(
    alloc: Global,
    scope: &Scope<'_>,
    progress: &mut Progress,
    text: &[u8],
    line: u64,
) -> Result<(), CertFault>
    requires stage { progress.old.stage ≡ Counted scope.now.version scope.now.parts }
    requires roles { length progress.old.nodes.roles.items ≡ length scope.now.hardened.now.net.nodes }
    ensures passes { OnOk result (Passes (carry scope.now.original.now.net scope.now.hardened.now.net progress.old) (carry scope.now.original.now.net scope.now.hardened.now.net progress.new) text.now line) }
    ensures refuses { IfErr result (λ fault. Refuses (carry scope.now.original.now.net scope.now.hardened.now.net progress.old) fault text.now line) }
    ensures roles { OnOk result (length progress.new.nodes.roles.items ≡ length progress.old.nodes.roles.items) }
{
    if progress.depth.len() < scope.parts as usize {
        take_part(alloc, &mut progress.depth, text, line)?;
        return Ok(());
    }
    if progress.nodes.part.len() < scope.original.node_count() as usize {
        take_node(alloc, scope, &mut progress.nodes, text, line)?;
        return Ok(());
    }
    take_voter_or_end(alloc, scope, progress, text, line)
}

/// Takes the next line, which has this number.
pub fn take_line(
    alloc: Global,
    n: &FlatNet,
    h: &FlatNet,
    progress: &mut Progress,
    text: &[u8],
    line: u64,
) -> Result<(), CertFault>
    requires { length progress.old.nodes.roles.items ≡ length h.now.net.nodes }
    ensures passes { OnOk result (Passes (carry n.now.net h.now.net progress.old) (carry n.now.net h.now.net progress.new) text.now line) }
    ensures refuses { IfErr result (λ fault. Refuses (carry n.now.net h.now.net progress.old) fault text.now line) }
    ensures roles { OnOk result (length progress.new.nodes.roles.items ≡ length progress.old.nodes.roles.items) }
{
    match progress.stage {
        Stage::Begun => {
            let version = read_version(text, line)?;
            progress.stage = Stage::Versioned { version };
            Ok(())
        }
        Stage::Versioned { version } => {
            let parts = read_parts(alloc, text, line)?;
            progress.stage = Stage::Counted { version, parts };
            Ok(())
        }
        Stage::Counted { version, parts } => {
            let scope = Scope {
                version,
                original: n,
                hardened: h,
                parts,
            };
            take_inner(alloc, &scope, progress, text, line)
        }
        Stage::Ended { .. } => Err(CertFault::Line(line)),
    }
}
