//! The forms of lines.
ghost use Rattle.std.specs.Prelude.{◌≡◌, ◌∷◌, [], ℕ, length, Some, None, map, drop, IfOk};
ghost use Rattle.aag_text.specs.Lines.{words_of, literal_in, variable_in, header_of, input_of, start_named, start_of, latch_of, output_of, gate_of, symbol_count, is_symbol_word, is_symbol};
ghost use Rattle.aag_reader.specs.Private.Words.{texts};
ghost use Rattle.tmr_base.specs.Numbers.{number_of};

use aag_text::{Gate, Header, Latch, Literal, Start};
use std::alloc::{AllocError, Global};
use tmr_base::read_u32;

/// The words of a line.
pub fn words_of(alloc: Global, line: &[u8]) -> Result<Vec<&[u8]>, AllocError>
    ensures { IfOk result (λ words. texts words.items ≡ words_of line.now) }
{
    line.split(|b| *b == b' ').collect(alloc)
}

/// The literal, if its number is at most 2 m + 1.
#[tactic(auto, unfolding(aag_text::specs::Lines::literal_in))]
fn literal_in(most: u32, word: &[u8]) -> Option<Literal>
    ensures { result ≡ literal_in most word.now }
{
    match read_u32(word) {
        Some(number) => {
            if number as u64 > 2 * most as u64 + 1 {
                return None;
            }
            Some(Literal {
                variable: number / 2,
                negated: number % 2 == 1,
            })
        }
        None => None,
    }
}

/// The variable of an even literal of at least 2.
#[tactic(auto, unfolding(aag_text::specs::Lines::variable_in))]
fn variable_in(most: u32, word: &[u8]) -> Option<u32>
    ensures { result ≡ variable_in most word.now }
{
    match literal_in(most, word) {
        Some(l) => {
            if !l.negated && 0 < l.variable {
                return Some(l.variable);
            }
            None
        }
        None => None,
    }
}

/// `aag M I L O A`
#[tactic(auto, unfolding(aag_text::specs::Lines::header_of))]
pub fn header_of(words: &[&[u8]]) -> Option<Header>
    ensures { result ≡ header_of (texts words.now) }
{
    if words.len() != 6 || words[0] != b"aag".as_slice() {
        return None;
    }
    let most = read_u32(words[1])?;
    let inputs = read_u32(words[2])?;
    let latches = read_u32(words[3])?;
    let outputs = read_u32(words[4])?;
    let gates = read_u32(words[5])?;
    Some(Header {
        most,
        inputs,
        latches,
        outputs,
        gates,
    })
}

/// The variable of an input.
#[tactic(auto, unfolding(aag_text::specs::Lines::input_of))]
pub fn input_of(most: u32, words: &[&[u8]]) -> Option<u32>
    ensures { result ≡ input_of most (texts words.now) }
{
    if words.len() != 1 {
        return None;
    }
    variable_in(most, words[0])
}

/// The start that a third word names: 0, 1, or the latch's own literal.
fn start_named(variable: u32, word: &[u8]) -> Option<Start>
    ensures { result ≡ start_named variable (number_of 32 word.now) }
{
    match read_u32(word) {
        Some(number) => {
            if number == 0 {
                return Some(Start::Zero);
            }
            if number == 1 {
                return Some(Start::One);
            }
            if number as u64 == 2 * variable as u64 {
                return Some(Start::Free);
            }
            None
        }
        None => None,
    }
}

/// The start that the words behind the first two name: none is 0.
fn start_of(variable: u32, rest: &[&[u8]]) -> Option<Start>
    ensures { result ≡ start_of variable (texts rest.now) }
{
    if rest.is_empty() {
        return Some(Start::Zero);
    }
    start_named(variable, rest[0])
}

/// `lhs next` or `lhs next init`
#[tactic(auto, unfolding(aag_text::specs::Lines::latch_of), using(crate::proofs::Words::texts_dropped))]
pub fn latch_of(most: u32, words: &[&[u8]]) -> Option<Latch>
    ensures { result ≡ latch_of most (texts words.now) }
{
    if words.len() != 2 && words.len() != 3 {
        return None;
    }
    let variable = variable_in(most, words[0])?;
    let next = literal_in(most, words[1])?;
    let (_, rest) = words.split_at(2);
    let start = start_of(variable, rest)?;
    Some(Latch {
        variable,
        next,
        start,
    })
}

/// The literal of an output.
#[tactic(auto, unfolding(aag_text::specs::Lines::output_of))]
pub fn output_of(most: u32, words: &[&[u8]]) -> Option<Literal>
    ensures { result ≡ output_of most (texts words.now) }
{
    if words.len() != 1 {
        return None;
    }
    literal_in(most, words[0])
}

/// `lhs rhs0 rhs1`
#[tactic(auto, unfolding(aag_text::specs::Lines::gate_of))]
pub fn gate_of(most: u32, words: &[&[u8]]) -> Option<Gate>
    ensures { result ≡ gate_of most (texts words.now) }
{
    if words.len() != 3 {
        return None;
    }
    let variable = variable_in(most, words[0])?;
    let left = literal_in(most, words[1])?;
    let right = literal_in(most, words[2])?;
    Some(Gate {
        variable,
        left,
        right,
    })
}

/// How many places a letter has.
fn symbol_count(h: &Header, letter: u8) -> u32
    ensures { result ≡ symbol_count h.now letter }
{
    if letter == b'i' {
        return h.inputs;
    }
    if letter == b'l' {
        return h.latches;
    }
    if letter == b'o' {
        return h.outputs;
    }
    0
}

/// A letter with a number below its count.
fn is_symbol_word(h: &Header, word: &[u8]) -> bool
    ensures { result ≡ is_symbol_word h.now word.now }
{
    match word.split_first() {
        Some((letter, digits)) => match read_u32(digits) {
            Some(k) => k < symbol_count(h, *letter),
            None => false,
        },
        None => false,
    }
}

/// A letter with a number below its count, a blank, and any text.
#[tactic(auto, unfolding(aag_text::specs::Lines::is_symbol))]
pub fn is_symbol(h: &Header, words: &[&[u8]]) -> bool
    ensures { result ≡ is_symbol h.now (texts words.now) }
{
    words.len() > 1 && is_symbol_word(h, words[0])
}
