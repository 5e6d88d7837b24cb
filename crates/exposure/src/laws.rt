//! What the words of an exposure mean.
ghost use Rattle.std.specs.Prelude.{◌≡◌, ◌↔◌, ◌*◌, ℕ, List, Some, None};
ghost use Rattle.tmr_base.specs.declared.copies.CopyNo.{CopyNo};
ghost use Rattle.tmr_base.specs.declared.ids.Upset.{Upset};
ghost use Rattle.certificate.specs.Cert.{PlainCert, IsCert};
ghost use Rattle.certificate.specs.Schedules.{Allowed};
ghost use Rattle.exposure.specs.Counts.{copy_count, near_total};
ghost use Rattle.exposure.specs.NearPairs.{AreSoMany, AreNear};
ghost use Rattle.exposure.specs.Nets.{HasNets};
ghost use Rattle.exposure.specs.TooNear.{NoneTooNear};

/// The law: a certificate allows a schedule of upsets exactly where no two of them are too near.
pub fn allowed_where_none_too_near()
    ensures { (s : List Upset) (k : PlainCert) → Allowed s k ↔ NoneTooNear s k }
{}

/// The law: as many nets belong to a partition and a copy as are counted for them. Where the hardened design has three inputs for each
/// one, each copy of the inputs has as many nets as there are inputs.
pub fn counts_are_of_nets()
    ensures nodes { (k : PlainCert) (p : ℕ) (c : CopyNo) → HasNets k (Some p) c (copy_count k p c) }
    ensures inputs { (k : PlainCert) (c : CopyNo) → IsCert k → k.hardened_inputs ≡ 3 * k.original_inputs → HasNets k None c k.original_inputs }
{}

/// The law: the last number of an exposure counts the pairs of strikes that are too near, where the hardened design has three inputs
/// for each one. Two strikes are one pair, whichever is named first, and the same pair in later cycles.
pub fn near_counts_strikes()
    ensures { (k : PlainCert) → IsCert k → k.hardened_inputs ≡ 3 * k.original_inputs → AreSoMany (AreNear k) (near_total k) }
{}
