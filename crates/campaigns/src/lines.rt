//! The lines of a campaign.
ghost use Rattle.std.specs.Prelude.{◌≡◌, ◌<◌, ◌++◌, ◌∷◌, [], length, slice_index, codes, IfOk, IfSome, OnOk};
ghost use Rattle.std.specs.List.{flat_map};
ghost use Rattle.std.specs.Fmt.{decimal};
ghost use Rattle.flat_net.specs.Net.{name_of};
ghost use Rattle.certificate.specs.Text.{line_text};
ghost use Rattle.campaigns.specs.Campaign.{campaign_text};
ghost use Rattle.campaigns.specs.NearCampaign.{first_wrong_line, near_lines};

use crate::first_wrong::WrongOutput;
use crate::sums::CampaignSums;
use flat_net::FlatNet;
use std::alloc::{AllocError, Global};
use tmr_base::{Name, OutOfMemory};

/// Puts a line of a word and a number.
fn put_count(alloc: Global, out: &mut Vec<u8>, word: &[u8], count: u64) -> Result<(), AllocError>
    ensures { OnOk result (out.new.items ≡ out.old.items ++ line_text (word.now ∷ decimal count ∷ [])) }
{
    let number = count.to_string(alloc)?;
    out.extend_from_slice(word)?;
    out.push(b' ')?;
    out.extend_from_slice(number.as_bytes())?;
    out.push(b'\n')?;
    Ok(())
}

/// The five lines that tell of a campaign.
pub fn campaign_text(alloc: Global, sums: &CampaignSums) -> Result<Vec<u8>, OutOfMemory>
    ensures { IfOk result (λ text. text.items ≡ campaign_text sums.now) }
{
    let mut out = Vec::new(alloc);
    put_count(alloc, &mut out, b"runs", 64)?;
    put_count(alloc, &mut out, b"upsets", sums.upsets)?;
    put_count(alloc, &mut out, b"differences", sums.differences)?;
    put_count(alloc, &mut out, b"wrong", sums.wrong)?;
    put_count(alloc, &mut out, b"late", sums.late)?;
    Ok(out)
}

/// Puts a blank and a word.
fn put_word(out: &mut Vec<u8>, word: &[u8]) -> Result<(), AllocError>
    ensures { OnOk result (out.new.items ≡ out.old.items ++ 32 ∷ word.now) }
{
    out.push(b' ')?;
    out.extend_from_slice(word)?;
    Ok(())
}

/// Puts a blank and a number.
fn put_number(alloc: Global, out: &mut Vec<u8>, number: u32) -> Result<(), AllocError>
    ensures { OnOk result (out.new.items ≡ out.old.items ++ 32 ∷ decimal number) }
{
    let digits = number.to_string(alloc)?;
    put_word(out, digits.as_bytes())?;
    Ok(())
}

/// The name of output i.
#[tactic(auto, using(crate::proofs::RunLaws::names))]
fn output_name(n: &FlatNet, i: u32) -> &Name
    requires { i < length n.now.net.outputs }
    ensures { result.now ≡ name_of n.now.net (slice_index n.now.net.outputs i) }
{
    n.name(n.output(i))
}

/// Puts the line that tells of a wrong output.
fn put_first_wrong(
    alloc: Global,
    out: &mut Vec<u8>,
    n: &FlatNet,
    w: WrongOutput,
) -> Result<(), AllocError>
    requires { w.output < length n.now.net.outputs }
    ensures { OnOk result (out.new.items ≡ out.old.items ++ line_text (first_wrong_line n.now.net w)) }
{
    let name = output_name(n, w.output);
    out.extend_from_slice(b"first wrong")?;
    put_number(alloc, out, w.cycle)?;
    put_word(out, name.bytes())?;
    put_number(alloc, out, w.run)?;
    out.push(b'\n')?;
    Ok(())
}

/// The five lines, and a sixth one where a wrong output is known.
#[tactic(auto, using(crate::proofs::RunLaws::near_told, crate::proofs::RunLaws::five_told))]
pub fn near_text(
    alloc: Global,
    n: &FlatNet,
    sums: &CampaignSums,
    first: Option<WrongOutput>,
) -> Result<Vec<u8>, OutOfMemory>
    requires { IfSome first (λ w. w.output < length n.now.net.outputs) }
    ensures { IfOk result (λ text. text.items ≡ flat_map line_text (near_lines n.now.net sums.now first)) }
{
    let mut out = campaign_text(alloc, sums)?;
    match first {
        None => Ok(out),
        Some(w) => {
            put_first_wrong(alloc, &mut out, n, w)?;
            Ok(out)
        }
    }
}
