//! All sizes, and the text of a sweep.
ghost use Rattle.std.specs.Prelude.{◌≡◌, ◌+◌, ◌<◌, ◌≤◌, ◌⊎◌, length, IfOk};
ghost use Rattle.limits.specs.Most.{widest_nets};
ghost use Rattle.flat_net.specs.Net.{net_count, pin_total};
ghost use Rattle.triplicate.specs.Surveyed.{IsSurvey};
ghost use Rattle.sweep.specs.Sweep.{IsSweep, IsSweepText};

use crate::lines::{put_original, put_swept};
use crate::longest::levels;
use crate::swept::{Swept, sweep_size};
use flat_net::{FreeNet, nodes_of};
use std::alloc::Global;
use tmr_base::OutOfMemory;
use triplicate::{Form, Survey, survey_of};

/// What planning looks up of the design.
fn survey_free(alloc: Global, n: &FreeNet) -> Result<Survey, OutOfMemory>
    ensures { IfOk result (λ survey. IsSurvey n.now.design.net survey) }
{
    let net = n.net();
    let survey = survey_of(alloc, net)?;
    Ok(survey)
}

/// What the hardened forms of the sizes 16, 32, 64 and so on have, up to the first size that is at least the number of nodes.
fn all_swept(
    alloc: Global,
    n: &FreeNet,
    form: Form,
    version: u8,
    most: u32,
) -> Result<Vec<Swept>, OutOfMemory>
    requires version { (version ≡ 1) ⊎ (version ≡ 2) }
    requires most { 0 < most }
    requires few { net_count n.now.design.net + pin_total n.now.design.net ≤ widest_nets }
    ensures { IfOk result (λ lines. IsSweep form n.now version most lines.items) }
{
    let nodes = nodes_of(n.net());
    let mut lines = Vec::new(alloc);
    let mut size = 16;
    let survey = survey_free(alloc, n)?;
    let first = sweep_size(alloc, n, survey, form, size, version, most)?;
    lines.push(first.swept)?;
    let mut survey = first.survey;
    while size < nodes {
        size *= 2;
        let next = sweep_size(alloc, n, survey, form, size, version, most)?;
        lines.push(next.swept)?;
        survey = next.survey;
    }
    Ok(lines)
}

/// The text of a sweep: a line of the original, and for each size what one pair in the hardened form has, of this form and version and with
/// no depth above `most`. The one refusal is want of memory.
pub fn sweep(
    alloc: Global,
    n: &FreeNet,
    form: Form,
    version: u8,
    most: u32,
) -> Result<Vec<u8>, OutOfMemory>
    requires version { (version ≡ 1) ⊎ (version ≡ 2) }
    requires most { 0 < most }
    requires few { net_count n.now.design.net + pin_total n.now.design.net ≤ widest_nets }
    ensures { IfOk result (λ text. IsSweepText form n.now version most text.items) }
{
    let net = n.net();
    let levels = levels(alloc, net)?;
    let lines = all_swept(alloc, n, form, version, most)?;
    let mut out = Vec::new(alloc);
    put_original(&mut out, net, levels)?;
    put_swept(&mut out, net, &lines)?;
    Ok(out)
}
