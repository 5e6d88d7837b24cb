//! The upsets of a cycle, and the last ones of each partition.
ghost use Rattle.std.specs.Prelude.{◌≡◌, ◌+◌, ◌<◌, ◌≤◌, ◌||◌, ℕ, All, OnOk, IfOk, length, nat_eq, nat_le};
ghost use Rattle.net_meaning.specs.Meaning.{upset_at};
ghost use Rattle.certificate.specs.Cert.{role_of};
ghost use Rattle.schedule_replay.specs.Starts.{forced_to};
ghost use Rattle.schedule_replay.specs.Outcome.{part_of_role};
ghost use Rattle.schedule_replay.specs.Striking.{IsTaken, AreLatest, with_strike};

use crate::allowing::struck_part;
use certificate::Certificate;
use schedules::Schedule;
use tmr_base::{NetId, OutOfMemory};

/// The partition of a net, if it is a node, was struck in cycle t.
fn strike(c: &Certificate, h: NetId, t: u32, lasts: &mut [u32])
    requires h { h.0 < c.now.hardened_inputs + length c.now.roles }
    requires t { t < 4294967295 }
    requires lasts { length lasts.old ≡ length c.now.depth }
    ensures { lasts.new ≡ with_strike (part_of_role c.now (role_of c.now h.0)) (t + 1) lasts.old }
{
    match struck_part(c, h) {
        None => {}
        Some(p) => lasts[p.0 as usize] = t + 1,
    }
}

/// Takes the upsets of cycle t, which begin at `from`; gives where those of the next cycle begin.
pub fn take_upsets(
    s: &Schedule,
    c: &Certificate,
    t: u32,
    from: u32,
    struck: &mut Vec<(NetId, bool)>,
    lasts: &mut [u32],
) -> Result<u32, OutOfMemory>
    requires high { All (λ u. u.net.0 < c.now.hardened_inputs + length c.now.roles) s.now.upsets }
    requires from { from ≤ length s.now.upsets }
    requires taken { IsTaken s.now.upsets t from }
    requires lasts { length lasts.old ≡ length c.now.depth }
    requires latest { AreLatest c.now s.now.upsets from lasts.old }
    ensures within { IfOk result (λ next. next ≤ length s.now.upsets) }
    ensures taken { IfOk result (λ next. IsTaken s.now.upsets (t + 1) next) }
    ensures struck { OnOk result ((x : ℕ) → forced_to struck.new.items x ≡ upset_at s.now.upsets t x) }
    ensures nets { OnOk result (All (λ f. f.0.0 < c.now.hardened_inputs + length c.now.roles) struck.new.items) }
    ensures latest { IfOk result (λ next. AreLatest c.now s.now.upsets next lasts.new) }
{
    let _known = (s.cycles(), c.parts());
    struck.clear();
    let mut next = from;
    for j in from..s.upset_count() {
        let u = s.upset(j);
        if u.cycle != t {
            break;
        }
        struck.push((u.net, u.value))?;
        strike(c, u.net, t, lasts);
        next = j + 1;
    }
    Ok(next)
}

/// The partition is quiet in cycle t.
pub fn is_quiet(last: u32, depth: u32, t: u32) -> bool
    ensures { result ≡ (nat_eq last 0 || nat_le (last + depth) t) }
{
    last == 0 || u64::from(last) + u64::from(depth) <= u64::from(t)
}
