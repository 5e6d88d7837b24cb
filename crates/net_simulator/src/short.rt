//! The values of tables of at most six pins, in 64 runs at once.
//!
//! A word tells such a table: its bit at the number of the pins' values is the table's. The last pin chooses between two
//! neighbours of the word's bits, which leaves one of four words, and each pin before it between two such halves. So a
//! step reads a word of each pin, however many rows the table has, and no row.
ghost use Rattle.std.specs.Prelude.{◌≡◌, ◌<◌, ◌≤◌, ◌^◌, ◌∷◌, [], ◌&&◌, ◌||◌, ℕ, length, map};
ghost use Rattle.table_cover.specs.Words.{word_bit, bits_of};
ghost use Rattle.net_meaning.specs.Meaning.{bit};
ghost use Rattle.net_simulator.specs.Truth.{number_from, ends_of};

use crate::marks::{merged, word_of};
use crate::tables::word_at;
use tmr_base::NetId;

/// The word of the majority of three pins, as most tables of a hardened design are.
const MAJORITY: u64 = 0xE8E8_E8E8_E8E8_E8E8;

/// What two neighbours of a word's bits leave of a pin, by the number that they are.
fn ends(x: u64) -> [u64; 4]
    ensures { result ≡ ends_of x }
{
    [0, !x, x, u64::MAX]
}

/// One pin, behind those of which `high` is the number.
#[inline(always)]
fn one_pin(word: u64, high: u64, ends: &[u64; 4]) -> u64
    requires { high < 32 }
    ensures { (x j : ℕ) → ends.now ≡ ends_of x → x < 2 ^ 64 → j < 64 → word_bit j result ≡ word_bit (number_from high (word_bit j x ∷ [])) word }
{
    ends[((word >> (2 * high)) % 4) as usize]
}

/// Two pins, behind those of which `high` is the number.
#[inline(always)]
fn two_pins(word: u64, high: u64, a: u64, ends: &[u64; 4]) -> u64
    requires { high < 16 }
    ensures { (x j : ℕ) → ends.now ≡ ends_of x → x < 2 ^ 64 → j < 64 → word_bit j result ≡ word_bit (number_from high (word_bit j a ∷ word_bit j x ∷ [])) word }
{
    let zero = one_pin(word, 2 * high, ends);
    let one = one_pin(word, 2 * high + 1, ends);
    merged(zero, a, one)
}

/// Three pins, behind those of which `high` is the number.
#[inline(always)]
fn three_pins(word: u64, high: u64, a: u64, b: u64, ends: &[u64; 4]) -> u64
    requires { high < 8 }
    ensures { (x j : ℕ) → ends.now ≡ ends_of x → x < 2 ^ 64 → j < 64 → word_bit j result ≡ word_bit (number_from high (word_bit j a ∷ word_bit j b ∷ word_bit j x ∷ [])) word }
{
    let zero = two_pins(word, 2 * high, b, ends);
    let one = two_pins(word, 2 * high + 1, b, ends);
    merged(zero, a, one)
}

/// Four pins, behind those of which `high` is the number.
#[inline(always)]
fn four_pins(word: u64, high: u64, a: u64, b: u64, c: u64, ends: &[u64; 4]) -> u64
    requires { high < 4 }
    ensures { (x j : ℕ) → ends.now ≡ ends_of x → x < 2 ^ 64 → j < 64 → word_bit j result ≡ word_bit (number_from high (word_bit j a ∷ word_bit j b ∷ word_bit j c ∷ word_bit j x ∷ [])) word }
{
    let zero = three_pins(word, 2 * high, b, c, ends);
    let one = three_pins(word, 2 * high + 1, b, c, ends);
    merged(zero, a, one)
}

/// Five pins, behind the one of which `high` is the value.
fn five_pins(word: u64, high: u64, a: u64, b: u64, c: u64, d: u64, ends: &[u64; 4]) -> u64
    requires { high < 2 }
    ensures { (x j : ℕ) → ends.now ≡ ends_of x → x < 2 ^ 64 → j < 64 → word_bit j result ≡ word_bit (number_from high (word_bit j a ∷ word_bit j b ∷ word_bit j c ∷ word_bit j d ∷ word_bit j x ∷ [])) word }
{
    let zero = four_pins(word, 2 * high, b, c, d, ends);
    let one = four_pins(word, 2 * high + 1, b, c, d, ends);
    merged(zero, a, one)
}

/// Six pins.
fn six_pins(word: u64, a: u64, b: u64, c: u64, d: u64, e: u64, ends: &[u64; 4]) -> u64
    ensures { (x j : ℕ) → ends.now ≡ ends_of x → x < 2 ^ 64 → j < 64 → word_bit j result ≡ word_bit (number_from 0 (word_bit j a ∷ word_bit j b ∷ word_bit j c ∷ word_bit j d ∷ word_bit j e ∷ word_bit j x ∷ [])) word }
{
    let zero = five_pins(word, 0, b, c, d, e, ends);
    let one = five_pins(word, 1, b, c, d, e, ends);
    merged(zero, a, one)
}

/// The majority of three pins.
#[tactic(auto, using(table_cover::proofs::WordLaws::word_bits))]
fn majority_word(a: u64, b: u64, c: u64) -> u64
    ensures { (j : ℕ) → j < 64 → word_bit j result ≡ ((word_bit j a && word_bit j b) || (word_bit j c && (word_bit j a || word_bit j b))) }
{
    (a & b) | (c & (a | b))
}

/// A table of three pins.
fn of_three(word: u64, a: u64, b: u64, c: u64) -> u64
    ensures { (j : ℕ) → j < 64 → word_bit j result ≡ word_bit (number_from 0 (word_bit j a ∷ word_bit j b ∷ word_bit j c ∷ [])) word }
{
    if word == MAJORITY {
        majority_word(a, b, c)
    } else {
        three_pins(word, 0, a, b, &ends(c))
    }
}

/// The word of a pin.
fn pin_word(now: &[u64], pin: &NetId) -> u64
    ensures { (j : ℕ) → word_bit j result ≡ bit (bits_of j now.now) pin.now.0 }
{
    word_at(now, *pin)
}

/// The word of the table that `word` tells, of these pins.
pub fn short_word(word: u64, pins: &[NetId], now: &[u64]) -> u64
    requires { length pins.now ≤ 6 }
    ensures { (j : ℕ) → j < 64 → word_bit j result ≡ word_bit (number_from 0 (map (λ p. bit (bits_of j now.now) p.0) pins.now)) word }
{
    match pins {
        [] => word_of(word % 2 == 1),
        [x] => one_pin(word, 0, &ends(pin_word(now, x))),
        [a, x] => two_pins(word, 0, pin_word(now, a), &ends(pin_word(now, x))),
        [a, b, c] => of_three(word, pin_word(now, a), pin_word(now, b), pin_word(now, c)),
        [a, b, c, x] => four_pins(
            word,
            0,
            pin_word(now, a),
            pin_word(now, b),
            pin_word(now, c),
            &ends(pin_word(now, x)),
        ),
        [a, b, c, d, x] => five_pins(
            word,
            0,
            pin_word(now, a),
            pin_word(now, b),
            pin_word(now, c),
            pin_word(now, d),
            &ends(pin_word(now, x)),
        ),
        [a, b, c, d, e, x] => six_pins(
            word,
            pin_word(now, a),
            pin_word(now, b),
            pin_word(now, c),
            pin_word(now, d),
            pin_word(now, e),
            &ends(pin_word(now, x)),
        ),
        _ => unreachable!(),
    }
}
