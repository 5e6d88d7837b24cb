//! The words of a line.
ghost use Rattle.std.specs.Prelude.{◌≡◌, ◌<◌, length, take, IfOk};
ghost use Rattle.std.specs.List.{list_all};
ghost use Rattle.certificate.specs.Gives.{Gives};
ghost use Rattle.certificate.specs.Lines.{words_of, has_form, is_full, form_words};
ghost use Rattle.certificate.specs.Plain.{texts};

use crate::CertFault;
use std::alloc::{AllocError, Global};

/// The first ten words of a line: no line of the format has so many, so the rest need no memory.
fn first_words(alloc: Global, line: &[u8]) -> Result<Vec<&[u8]>, AllocError>
    ensures { IfOk result (λ v. texts v.items ≡ take 10 (words_of line.now)) }
{
    line.split(|b| *b == b' ').take(10).collect(alloc)
}

/// No word is empty.
fn are_full(words: &[&[u8]]) -> bool
    ensures { result ≡ list_all is_full (texts words.now) }
{
    for word in words {
        if word.is_empty() {
            return false;
        }
    }
    true
}

/// As many words, none of them empty, of which this is the first.
fn has_form(words: &[&[u8]], count: usize, first: &[u8]) -> bool
    requires { 0 < count }
    ensures { result ≡ has_form (texts words.now) count first.now }
{
    words.len() == count && are_full(words) && words[0] == first
}

/// The words of a line of this form.
#[tactic(auto, using(crate::proofs::FormLaws::forms))]
pub fn form_words<'a>(
    alloc: Global,
    text: &'a [u8],
    count: usize,
    first: &[u8],
    line: u64,
) -> Result<Vec<&'a [u8]>, CertFault>
    requires some { 0 < count }
    requires few { count < 10 }
    ensures words { Gives (λ v. texts v.items) result (form_words text.now count first.now line) }
    ensures count { IfOk result (λ v. length v.items ≡ count) }
{
    let words = first_words(alloc, text)?;
    if !has_form(&words, count, first) {
        return Err(CertFault::Line(line));
    }
    Ok(words)
}
