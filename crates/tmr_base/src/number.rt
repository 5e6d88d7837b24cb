//! Decimal numbers without sign and without leading zeros.
ghost use Rattle.std.specs.Prelude.{◌≡◌, ◌≢◌, ◌<◌, ◌^◌, ℕ, IfSome, IsNone};
ghost use Rattle.std.specs.Fmt.{decimal};
ghost use Rattle.tmr_base.specs.Numbers.{number_of};

use std::str;

/// The number below 2^64 that these bytes write. `None` comes exactly where they are no such number.
#[tactic(auto, using(crate::proofs::NumberLaws::long_texts))]
pub fn read_u64(bytes: &[u8]) -> Option<u64>
    ensures exact { result ≡ number_of 64 bytes.now }
    ensures some { IfSome result (λ n. bytes.now ≡ decimal n) }
    ensures none { IsNone result → (n : ℕ) → n < 2 ^ 64 → bytes.now ≢ decimal n }
{
    parse_u64(bytes)
}

/// The number, or none where these bytes are no number that fits.
fn parse_u64(bytes: &[u8]) -> Option<u64>
    ensures { result ≡ number_of 64 bytes.now }
{
    match bytes.first() {
        None => None,
        Some(first) => {
            if *first == b'0' {
                return if bytes.len() == 1 { Some(0) } else { None };
            }
            if *first == b'+' {
                return None;
            }
            match str::from_utf8(bytes) {
                Ok(text) => match text.parse() {
                    Ok(number) => Some(number),
                    Err(_) => None,
                },
                Err(_) => None,
            }
        }
    }
}

/// The number below 2^32 that these bytes write. `None` comes exactly where they are no such number.
#[tactic(auto, using(crate::proofs::NumberLaws::narrow, crate::proofs::NumberLaws::texts))]
pub fn read_u32(bytes: &[u8]) -> Option<u32>
    ensures exact { result ≡ number_of 32 bytes.now }
    ensures some { IfSome result (λ n. bytes.now ≡ decimal n) }
    ensures none { IsNone result → (n : ℕ) → n < 2 ^ 32 → bytes.now ≢ decimal n }
{
    match parse_u64(bytes) {
        None => None,
        Some(number) => {
            if number <= u32::MAX as u64 {
                Some(number as u32)
            } else {
                None
            }
        }
    }
}
