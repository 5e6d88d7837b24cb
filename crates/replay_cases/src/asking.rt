//! The cases.
ghost use Rattle.std.specs.Prelude.{◌≡◌, ◌*◌, length};
ghost use Rattle.certificate.specs.Cert.{Fits};

use crate::designs::design_of;
use crate::files::{Files, lines_of};
use crate::list::{read_list, wide_text};
use crate::printing::fault_text;
use crate::stepping::stepping_text;
use certificate::{Certificate, read_cert};
use flat_net::FlatNet;
use std::alloc::Global;
use tmr_base::OutOfMemory;

/// What replaying all schedules of a text at once answers.
fn of_list(
    alloc: Global,
    n: &FlatNet,
    h: &FlatNet,
    c: &Certificate,
    text: &str,
) -> Result<String, OutOfMemory>
    requires fits { Fits n.now.net h.now.net c.now }
    requires inputs { length h.now.net.inputs ≡ 3 * length n.now.net.inputs }
    requires outputs { length h.now.net.outputs ≡ 3 * length n.now.net.outputs }
{
    match read_list(alloc, n, h, text) {
        Ok(list) => wide_text(alloc, n, h, c, &list),
        Err(fault) => Ok(fault_text(alloc, fault)?),
    }
}

/// What a pair answers of the schedules of a text.
fn of_designs(
    alloc: Global,
    n: &FlatNet,
    h: &FlatNet,
    cert: &str,
    text: &str,
) -> Result<String, OutOfMemory> {
    if cert.len() > 1_073_741_824 {
        return Ok(String::from_str(alloc, "too long")?);
    }
    let Ok(c) = read_cert(alloc, cert.as_bytes(), n, h) else {
        return Ok(String::from_str(alloc, "no certificate")?);
    };
    if u64::from(h.input_count()) != 3 * u64::from(n.input_count())
        || u64::from(h.output_count()) != 3 * u64::from(n.output_count())
    {
        return Ok(String::from_str(alloc, "no pair")?);
    }
    of_list(alloc, n, h, &c, text)
}

/// What the schedules of a text answer, replayed at once on the pair.
fn wide_answer(alloc: Global, files: &Files, text: &str) -> Result<String, OutOfMemory> {
    let list = lines_of(alloc, text)?;
    match (
        design_of(alloc, files.orig.as_str()),
        design_of(alloc, files.hard.as_str()),
    ) {
        (Some(n), Some(h)) => of_designs(
            alloc,
            n.net(),
            h.net(),
            files.cert.as_str(),
            list.as_str(),
        ),
        _ => Ok(String::from_str(alloc, "no design")?),
    }
}

/// What a case answers.
pub fn answer(alloc: Global, files: &Files, verb: &str, text: &str) -> Result<String, OutOfMemory> {
    match verb {
        "wide" => wide_answer(alloc, files, text),
        _ => stepping_text(alloc, files.orig.as_str(), verb, text),
    }
}
