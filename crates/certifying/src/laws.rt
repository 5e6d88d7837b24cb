//! What the finest certificate is good for.
ghost use Rattle.std.specs.Prelude.{ℕ, Bool, List};
ghost use Rattle.flat_net.specs.Net.{Net};
ghost use Rattle.certificate.specs.Cert.{PlainCert};
ghost use Rattle.certifying.specs.Certified.{IsAccepted};
ghost use Rattle.certifying.specs.Finest.{SameRoles, IsFinest, AllowsMore};

/// The law: each schedule of upsets that some accepted certificate with the same roles allows, the finest allows.
pub fn certify_allows_more()
    ensures { (n h : Net) (f g : List Bool) (version : ℕ) (k m : PlainCert) → IsAccepted n f h g version k → IsFinest n f h g k → IsAccepted n f h g k.version m → SameRoles k m → AllowsMore k m }
{}
