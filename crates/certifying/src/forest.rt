//! A forest over numbers, which joins them to sets. The root of a set is its least number.
ghost use Rattle.std.specs.Prelude.{◌≡◌, ◌<◌, ◌≤◌, ℕ, Option, length, slice_index, IfOk};
ghost use Rattle.certifying.specs.Private.Forests.{IsForest, GoesAlong};

use std::alloc::Global;
use tmr_base::OutOfMemory;

/// So many numbers, each in a set of its own.
pub fn apart(alloc: Global, count: u32) -> Result<Vec<u32>, OutOfMemory>
    ensures long { IfOk result (λ up. length up.items ≡ count) }
    ensures forest { IfOk result (λ up. IsForest up.items) }
    ensures along { IfOk result (λ up. (f : ℕ → Option ℕ) → GoesAlong f up.items) }
{
    let mut up = Vec::with_capacity(alloc, count as usize)?;
    for i in 0..count {
        up.push(i)?;
    }
    Ok(up)
}

/// The parent of number x.
fn parent_of(up: &Vec<u32>, x: u32) -> u32
    requires { x < length up.now.items }
    ensures { result ≡ slice_index up.now.items x }
{
    up[x as usize]
}

/// The root of number a. Each second parent on the way is passed over from then on.
fn root(up: &mut Vec<u32>, a: u32) -> u32
    requires forest { IsForest up.old.items }
    requires within { a < length up.old.items }
    ensures long { length up.new.items ≡ length up.old.items }
    ensures forest { IsForest up.new.items }
    ensures within { result ≤ a }
    ensures root { slice_index up.new.items result ≡ result }
    ensures same { (f : ℕ → Option ℕ) → GoesAlong f up.old.items → f result ≡ f a }
    ensures along { (f : ℕ → Option ℕ) → GoesAlong f up.old.items → GoesAlong f up.new.items }
{
    let mut x = a;
    while parent_of(up, x) != x {
        let parent = parent_of(up, x);
        let next = parent_of(up, parent);
        up[x as usize] = next;
        x = next;
    }
    x
}

/// Root b gets the parent a, which is less.
fn link(up: &mut Vec<u32>, a: u32, b: u32)
    requires forest { IsForest up.old.items }
    requires order { a ≤ b }
    requires within { b < length up.old.items }
    ensures long { length up.new.items ≡ length up.old.items }
    ensures forest { IsForest up.new.items }
    ensures along { (f : ℕ → Option ℕ) → GoesAlong f up.old.items → f a ≡ f b → GoesAlong f up.new.items }
{
    up[b as usize] = a;
}

/// Joins the sets of two numbers.
pub fn join(up: &mut Vec<u32>, a: u32, b: u32)
    requires forest { IsForest up.old.items }
    requires first { a < length up.old.items }
    requires second { b < length up.old.items }
    ensures long { length up.new.items ≡ length up.old.items }
    ensures forest { IsForest up.new.items }
    ensures along { (f : ℕ → Option ℕ) → GoesAlong f up.old.items → f a ≡ f b → GoesAlong f up.new.items }
{
    let x = root(up, a);
    let y = root(up, b);
    if x < y {
        link(up, x, y);
    } else {
        link(up, y, x);
    }
}
