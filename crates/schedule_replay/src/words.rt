//! Words of 64 bits, of which each run has one.
ghost use Rattle.std.specs.Prelude.{◌≡◌, ◌<◌, ◌&&◌, ◌||◌, ℕ, nat_eq};
ghost use Rattle.table_cover.specs.Words.{word_bit};

/// The word in which run j alone has its bit.
#[tactic(auto, using(crate::proofs::RunWords::run_words))]
pub fn run_word(j: usize) -> u64
    requires { j < 64 }
    ensures { (i : ℕ) → i < 64 → word_bit i result ≡ nat_eq i j }
{
    1 << j
}

/// The bit of run j.
#[tactic(auto, using(crate::proofs::RunWords::shifted_words))]
pub fn bit_of_run(word: u64, j: usize) -> bool
    requires { j < 64 }
    ensures { result ≡ word_bit j word }
{
    (word >> j) % 2 == 1
}

/// The same bit in the runs of the mask.
#[tactic(auto, using(table_cover::proofs::WordLaws::word_bits))]
pub fn value_word(mask: u64, bit: bool) -> u64
    ensures { (i : ℕ) → i < 64 → word_bit i result ≡ (bit && word_bit i mask) }
{
    if bit { mask } else { 0 }
}

/// The word, in which run j has its bit too, if it is set.
#[tactic(auto, using(crate::proofs::RunWords::added_bits))]
pub fn with_bit(word: u64, j: usize, bit: bool) -> u64
    requires { j < 64 }
    ensures { (i : ℕ) → i < 64 → word_bit i result ≡ (word_bit i word || (bit && nat_eq i j)) }
{
    word | value_word(run_word(j), bit)
}
