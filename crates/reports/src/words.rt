//! Words, put one after the other.
ghost use Rattle.std.specs.Prelude.{◌≡◌, ◌++◌, ◌∷◌, [], ◌<◌, All, map, codes, OnOk};
ghost use Rattle.std.specs.Fmt.{decimal};
ghost use Rattle.certificate.specs.Plain.{texts};
ghost use Rattle.certificate.specs.Text.{line_text};
ghost use Rattle.flat_net.specs.Net.{net_count, name_of};
ghost use Rattle.flat_net.specs.Nodes.{number_of};
ghost use Rattle.reports.specs.Private.Left.{spaced};

use flat_net::FlatNet;
use std::alloc::{AllocError, Global};
use tmr_base::NetId;

/// Puts a word.
pub fn put_first(out: &mut Vec<u8>, word: &[u8]) -> Result<(), AllocError>
    ensures { OnOk result (out.new.items ≡ out.old.items ++ word.now) }
{
    out.extend_from_slice(word)?;
    Ok(())
}

/// Puts a line feed.
pub fn put_end(out: &mut Vec<u8>) -> Result<(), AllocError>
    ensures { OnOk result (out.new.items ≡ out.old.items ++ 10 ∷ []) }
{
    out.push(b'\n')?;
    Ok(())
}

/// Puts words, a blank before each.
pub fn put_words(out: &mut Vec<u8>, words: &[&[u8]]) -> Result<(), AllocError>
    ensures { OnOk result (out.new.items ≡ out.old.items ++ spaced (texts words.now)) }
{
    for word in words {
        out.push(b' ')?;
        out.extend_from_slice(word)?;
    }
    Ok(())
}

/// Puts a blank and a word.
pub fn put_word(out: &mut Vec<u8>, word: &[u8]) -> Result<(), AllocError>
    ensures { OnOk result (out.new.items ≡ out.old.items ++ spaced (word.now ∷ [])) }
{
    put_words(out, &[word])?;
    Ok(())
}

/// Puts a blank and a number.
pub fn put_decimal(alloc: Global, out: &mut Vec<u8>, number: u32) -> Result<(), AllocError>
    ensures { OnOk result (out.new.items ≡ out.old.items ++ spaced (decimal number ∷ [])) }
{
    let number = number.to_string(alloc)?;
    put_words(out, &[number.as_bytes()])?;
    Ok(())
}

/// Puts the names of nets, a blank before each.
pub fn put_names(out: &mut Vec<u8>, n: &FlatNet, nets: &[NetId]) -> Result<(), AllocError>
    requires { All (λ x. x < net_count n.now.net) (map number_of nets.now) }
    ensures { OnOk result (out.new.items ≡ out.old.items ++ spaced (map (name_of n.now.net) (map number_of nets.now))) }
{
    for x in nets {
        out.push(b' ')?;
        out.extend_from_slice(n.name(*x).bytes())?;
    }
    Ok(())
}

/// Puts a line: its words, with a blank between each two, and a line feed.
#[tactic(auto, using(crate::proofs::WordLaws::line_put))]
pub fn put_line(out: &mut Vec<u8>, first: &[u8], rest: &[&[u8]]) -> Result<(), AllocError>
    ensures { OnOk result (out.new.items ≡ out.old.items ++ line_text (first.now ∷ texts rest.now)) }
{
    out.extend_from_slice(first)?;
    put_words(out, rest)?;
    out.push(b'\n')?;
    Ok(())
}

/// Puts a line of a word and a number.
pub fn put_count(
    alloc: Global,
    out: &mut Vec<u8>,
    word: &[u8],
    count: u64,
) -> Result<(), AllocError>
    ensures { OnOk result (out.new.items ≡ out.old.items ++ line_text (word.now ∷ decimal count ∷ [])) }
{
    let number = count.to_string(alloc)?;
    put_line(out, word, &[number.as_bytes()])
}
