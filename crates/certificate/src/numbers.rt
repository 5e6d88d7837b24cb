//! The numbers in lines.
ghost use Rattle.std.specs.Prelude.{◌≡◌};
ghost use Rattle.certificate.specs.Gives.{Gives};
ghost use Rattle.certificate.specs.Lines.{number_at};

use crate::CertFault;
use tmr_base::read_u32;

/// A number, in the line with this number.
#[tactic(auto, unfolding(crate::specs::Lines::number_at))]
pub fn number(bytes: &[u8], line: u64) -> Result<u32, CertFault>
    ensures { Gives (λ n. n) result (number_at bytes.now line) }
{
    match read_u32(bytes) {
        Some(number) => Ok(number),
        None => Err(CertFault::Line(line)),
    }
}
