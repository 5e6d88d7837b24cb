//! What makes a text step by step.
ghost use Rattle.std.specs.Prelude.{◌≡◌, ◌<◌, ◌≤◌, ◌+◌, ◌++◌, ℕ, [], OnOk};
ghost use Rattle.text_pieces.specs.Steps.{TextInSteps};

use std::alloc::AllocError;

/// Makes a text step by step.
pub trait Steps {
    /// What is left of the text at each step, and how many steps there are.
    ghost in_steps: { Self → TextInSteps };

    /// How many steps there are. Behind the last one nothing is left.
    fn count(&self) -> u64
        ensures count { result ≡ (in_steps self.now).count }
        ensures end { (k : ℕ) → result ≤ k → (in_steps self.now).rest k ≡ [] };

    /// Puts what comes at this step. The text stays the same.
    fn put_step(&mut self, out: &mut Vec<u8>, step: u64) -> Result<(), AllocError>
        requires { step < (in_steps self.old).count }
        ensures put { OnOk result (out.new.items ++ (in_steps self.old).rest (step + 1) ≡ out.old.items ++ (in_steps self.old).rest step) }
        ensures same { in_steps self.new ≡ in_steps self.old };
}
