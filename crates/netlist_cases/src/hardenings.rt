//! Hardened pairs, by calls that no run of the program makes.

ghost use Rattle.std.specs.Prelude.{◌≡◌, ◌+◌, ◌≤◌, ◌⊎◌, true, IfOk};
ghost use Rattle.limits.specs.Most.{widest_nets};
ghost use Rattle.flat_net.specs.Net.{net_count, pin_total};
ghost use Rattle.certificate.specs.Cert.{Fits};

use crate::designs::free_of;
use crate::escapes::put_bytes;
use crate::keeping::Texts;
use crate::stop::{Stop, bad_case};
use crate::words::{first_word, number};
use blif_writer::write_free;
use certificate::write_cert;
use flat_net::FreeNet;
use hardened_pair::{harden_deep, harden_free};
use std::alloc::Global;
use triplicate::HardenedFree;

/// Nets and pins are few enough to be hardened.
fn is_small(n: &FreeNet) -> bool
    ensures { result ≡ true → net_count n.now.design.net + pin_total n.now.design.net ≤ widest_nets }
{
    let net = n.net();
    let nets = u64::from(net.input_count()) + u64::from(net.node_count());
    nets + u64::from(net.pin_total()) <= 268_435_456
}

/// The pair in version 2, without a bound.
fn free_pair(alloc: Global, n: &FreeNet, size: u32) -> Result<HardenedFree, Stop>
    ensures { IfOk result (λ r. Fits n.now.design.net r.net.design.net r.cert) }
{
    if size == 0 || !is_small(n) {
        return Err(bad_case(alloc));
    }
    let pair = harden_free(alloc, n, size)?;
    Ok(pair)
}

/// The pair in either version, with a bound.
fn deep_pair(
    alloc: Global,
    n: &FreeNet,
    size: u32,
    version: u8,
    most: u32,
) -> Result<HardenedFree, Stop>
    requires { (version ≡ 1) ⊎ (version ≡ 2) }
    ensures { IfOk result (λ r. Fits n.now.design.net r.net.design.net r.cert) }
{
    if size == 0 || most == 0 || !is_small(n) {
        return Err(bad_case(alloc));
    }
    let pair = harden_deep(alloc, n, size, version, most)?;
    Ok(pair)
}

/// What is told of a pair, its flat text and its certificate.
fn pair_text(alloc: Global, n: &FreeNet, pair: &HardenedFree) -> Result<String, Stop>
    requires { Fits n.now.design.net pair.now.net.design.net pair.now.cert }
{
    let mut text = String::new(alloc);
    write!(text, "cost {} plain {}", pair.cost, pair.plain)?;
    text.push_str(if pair.minimal {
        " minimal yes"
    } else {
        " minimal no"
    })?;
    write!(text, " voters {}\n", pair.voters)?;
    let design = write_free(alloc, &pair.net)?;
    put_bytes(&mut text, design.as_slice())?;
    text.push('\n')?;
    let certificate = write_cert(alloc, n.net(), pair.net.net(), &pair.cert)?;
    put_bytes(&mut text, certificate.as_slice())?;
    text.push('\n')?;
    Ok(text)
}

/// `harden_free SIZE TEXT`.
fn free_answer(alloc: Global, texts: &Texts, rest: &str) -> Result<String, Stop> {
    let (size, text) = first_word(rest);
    let size = number(alloc, size)?;
    let bytes = texts.bytes_of(text)?;
    let n = free_of(alloc, bytes.as_slice())?;
    let pair = free_pair(alloc, &n, size)?;
    pair_text(alloc, &n, &pair)
}

/// `harden_deep SIZE VERSION MOST TEXT`.
fn deep_answer(alloc: Global, texts: &Texts, rest: &str) -> Result<String, Stop> {
    let (size, rest) = first_word(rest);
    let (version, rest) = first_word(rest);
    let (most, text) = first_word(rest);
    let size = number(alloc, size)?;
    let version = if version == "2" { 2 } else { 1 };
    let most = number(alloc, most)?;
    let bytes = texts.bytes_of(text)?;
    let n = free_of(alloc, bytes.as_slice())?;
    let pair = deep_pair(alloc, &n, size, version, most)?;
    pair_text(alloc, &n, &pair)
}

/// By the verb: of a hardened pair what is told, the flat text of the design, and the certificate.
pub fn answer(alloc: Global, texts: &Texts, verb: &str, rest: &str) -> Result<String, Stop> {
    match verb {
        "harden_free" => free_answer(alloc, texts, rest),
        _ => deep_answer(alloc, texts, rest),
    }
}
