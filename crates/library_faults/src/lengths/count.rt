//! What the flat text of a model costs, wherever it is placed.
//!
//! It is counted once for a model, however often the model is placed: bytes, nets whose text begins with
//! the model's own path, and how often each of its formals stands, which goes by what it is bound to.
ghost use Rattle.std.specs.Prelude.{◌≡◌, ◌≤◌, ◌<◌, ◌+◌, ◌*◌, ℕ, List, Some, [], ◌∷◌, ◌++◌, length, map, sum_by, All, IfOk, OnOk};
ghost use Rattle.limits.specs.Most.{widest_text};
ghost use Rattle.blif_text.specs.Kind.{is_among};
ghost use Rattle.blif_text.specs.Views.{plain_element, plain_model};
ghost use Rattle.blif_text.specs.Models.{Table};
ghost use Rattle.library_faults.specs.Graph.{number_named};
ghost use Rattle.library_faults.specs.FlatText.{capped, rows_length as length_of_rows};
ghost use Rattle.library_faults.specs.Private.Counts.{Use, Formal, Own, use_of, placed_use, control_names, control_fixed, limited, used, IsShaped, IsCount, Adds, IsGrown, IsTold, IsAdded, IsOutcome, AreApart, KeepsFormals, IsEmptyCount, number_after, fixed_with, uses_with, times_of, sum_of, bound_of};
ghost use Rattle.library_faults.specs.Private.Entries.{entry_named};

use crate::lengths::entries::entry_of;
use crate::lengths::flat_text::{rows_length, spaced_name, step_text};
use blif_text::{BlifModel, Element};
use indexmap::IndexSet;
use limits::Limits;
use std::alloc::{AllocError, Global};
use table_cover::Cover;
use tmr_base::{Edge, Name};

/// The formals of a model, how often each of them stands, the bytes beside them (without the path of the
/// placed model), how many nets begin with that path, how often formals stand in all, and the bytes of
/// their names. A number that no text within a limit can have may be less than it should.
#[derive(Drop)]
pub struct Count {
    pub formals: IndexSet<Name>,
    pub uses: Vec<u64>,
    pub bytes: u64,
    pub places: u64,
    pub passed: u64,
    pub passed_bytes: u64,
}

/// The length of a name, as far as a text within a limit can have it.
fn limited_length(name: &Name) -> u64
    ensures { result ≡ limited (length name.now) }
{
    let length = name.bytes().len() as u64;
    let most = Limits::Large.hardened();
    if length <= most { length } else { most + 1 }
}

/// How often the formal stands.
#[tactic(auto, unfolding(crate::specs::Graph::number_named))]
pub fn times_used(count: &Count, name: &Name) -> u64
    ensures { result ≡ used count.now name.now }
{
    match count.formals.get_index_of(name) {
        Some(k) => match count.uses.get(k) {
            Some(times) => *times,
            None => 0,
        },
        None => 0,
    }
}

/// The formal with this number stands so many times more.
#[tactic(auto, using(crate::proofs::Additions::adding_laws))]
fn add_formal(count: &mut Count, k: usize, name: &Name, times: u64)
    requires formal { number_named count.old.formals.keys name.now ≡ Some k }
    requires shaped { IsShaped count.old }
    ensures { Adds count.old count.new 0 (times_of times (Formal name.now)) }
{
    count.uses[k] = count.uses[k].saturating_add(times);
    count.passed = count.passed.saturating_add(times);
    count.passed_bytes = count
        .passed_bytes
        .saturating_add(times.saturating_mul(limited_length(name)));
}

/// A net of the model's own stands so many times more.
#[tactic(auto, using(crate::proofs::Additions::adding_laws))]
fn add_own(count: &mut Count, name: &Name, times: u64)
    ensures { Adds count.old count.new 0 (times_of times (Own name.now)) }
{
    count.places = count.places.saturating_add(times);
    count.bytes = count
        .bytes
        .saturating_add(times.saturating_mul(spaced_name(name)));
}

/// The net of a name stands so many times more.
#[tactic(auto, unfolding(crate::specs::Graph::number_named))]
fn add_net(count: &mut Count, name: &Name, times: u64)
    requires { IsShaped count.old }
    ensures { Adds count.old count.new 0 (times_of times (use_of (is_among count.old.formals.keys) name.now)) }
{
    match count.formals.get_index_of(name) {
        Some(k) => add_formal(count, k, name, times),
        None => add_own(count, name, times),
    }
}

/// The nets of these names stand once more.
fn add_nets(count: &mut Count, names: &[Name])
    requires { IsShaped count.old }
    ensures { Adds count.old count.new 0 (sum_of (map (use_of (is_among count.old.formals.keys)) names.now)) }
{
    for name in names {
        add_net(count, name, 1);
    }
}

/// The bytes beside nets.
fn add_fixed(count: &mut Count, bytes: u64)
    ensures { Adds count.old count.new bytes (sum_of []) }
{
    count.bytes = count.bytes.saturating_add(bytes);
}

/// The net of a clock stands once more.
fn add_control(count: &mut Count, control: &Option<(Edge, Name)>)
    requires { IsShaped count.old }
    ensures { Adds count.old count.new (control_fixed control.now) (sum_of (map (use_of (is_among count.old.formals.keys)) (control_names control.now))) }
{
    if let Some((_, clock)) = control {
        add_net(count, clock, 1);
        add_fixed(count, 3);
    }
}

/// The lines of a table.
fn add_table(count: &mut Count, pins: &[Name], out: &Name, cover: &Cover)
    requires { IsShaped count.old }
    ensures { Adds count.old count.new (7 + length_of_rows cover.now) (sum_of (map (use_of (is_among count.old.formals.keys)) (pins.now ++ out.now ∷ []))) }
{
    add_nets(count, pins);
    add_net(count, out, 1);
    add_fixed(count, rows_length(cover).saturating_add(7));
}

/// The line of a register.
fn add_latch(count: &mut Count, pin: &Name, out: &Name, control: &Option<(Edge, Name)>)
    requires { IsShaped count.old }
    ensures { Adds count.old count.new (9 + control_fixed control.now) (sum_of (map (use_of (is_among count.old.formals.keys)) (pin.now ∷ out.now ∷ control_names control.now))) }
{
    add_net(count, pin, 1);
    add_net(count, out, 1);
    add_control(count, control);
    add_fixed(count, 9);
}

/// What is bound to the formals of a placed model stands as often as they do there. The answers are how
/// often formals stand that are bound, and the bytes of their names.
fn bind_formals(count: &mut Count, placed: &Count, bindings: &[(Name, Name)]) -> (u64, u64)
    requires { IsShaped count.old }
    ensures adds { Adds count.old count.new 0 (bound_of (is_among count.old.formals.keys) placed.now bindings.now) }
    ensures moved { result.0 ≡ capped (sum_by (λ b. used placed.now b.0) bindings.now) }
    ensures bytes { result.1 ≡ capped (sum_by (λ b. used placed.now b.0 * limited (length b.0)) bindings.now) }
{
    let mut moved: u64 = 0;
    let mut bytes: u64 = 0;
    for (formal, actual) in bindings {
        let times = times_used(placed, formal);
        add_net(count, actual, times);
        moved = moved.saturating_add(times);
        bytes = bytes.saturating_add(times.saturating_mul(limited_length(formal)));
    }
    (moved, bytes)
}

/// Nets of the model's own and bytes beside formals.
fn add_places(count: &mut Count, places: u64, bytes: u64)
    ensures { IsGrown count.old count.new places bytes }
{
    count.places = count.places.saturating_add(places);
    count.bytes = count.bytes.saturating_add(bytes);
}

/// The nets and the bytes of a model that the statement with this number places.
fn add_placed(
    alloc: Global,
    count: &mut Count,
    placed: &Count,
    number: usize,
    bindings: &[(Name, Name)],
) -> Result<(), AllocError>
    requires { IsShaped count.old }
    ensures kept { OnOk result (KeepsFormals count.old count.new) }
    ensures adds { OnOk result (AreApart bindings.now → (fixed : ℕ) (uses : List Use) → IsCount placed.now fixed uses → Adds count.old count.new fixed (sum_of (map (placed_use (is_among count.old.formals.keys) number bindings.now) uses))) }
{
    let text = step_text(alloc, number)?;
    let (moved, moved_bytes) = bind_formals(count, placed, bindings);
    let unbound = placed.passed.saturating_sub(moved);
    let unbound_bytes = placed.passed_bytes.saturating_sub(moved_bytes);
    let nets = placed.places.saturating_add(unbound);
    let paths = (text.as_bytes().len() as u64).saturating_mul(nets);
    let bytes = placed
        .bytes
        .saturating_add(unbound)
        .saturating_add(unbound_bytes);
    add_places(count, nets, paths.saturating_add(bytes));
    Ok(())
}

/// The nets and the bytes of the flat elements of a statement, of which a `.subckt` has this number. The
/// answer is false where a model is placed whose text is longer than the limit.
fn add_element(
    alloc: Global,
    names: &IndexSet<Name>,
    positions: &[usize],
    counts: &[Option<Count>],
    count: &mut Count,
    element: &Element,
    number: usize,
) -> Result<bool, AllocError>
    requires { IsShaped count.old }
    ensures kept { OnOk result (KeepsFormals count.old count.new) }
    ensures adds { IfOk result (λ fit. (limit : ℕ) (fixed : List ℕ → ℕ) (uses : List ℕ → List Use) → IsTold limit (entry_named names.now.keys positions.now counts.now) fixed uses (plain_element element.now) → IsAdded limit fit count.old count.new (fixed_with fixed (plain_element element.now ∷ [])) (uses_with (is_among count.old.formals.keys) uses number (plain_element element.now ∷ []))) }
{
    match element {
        Element::Table { pins, out, cover } => {
            add_table(count, pins, out, cover);
            Ok(true)
        }
        Element::Latch {
            pin,
            out,
            control,
            ..
        } => {
            add_latch(count, pin, out, control);
            Ok(true)
        }
        Element::Instance { model, bindings } => {
            match entry_of(names, positions, counts, model) {
                Some(placed) => {
                    add_placed(alloc, count, placed, number, bindings)?;
                    Ok(true)
                }
                None => Ok(false),
            }
        }
    }
}

/// The number of the next `.subckt` behind a statement.
fn next_number(element: &Element, number: usize) -> usize
    requires { number < 18446744073709551615 }
    ensures { result ≡ number_after number (plain_element element.now) }
{
    match element {
        Element::Instance { .. } => number + 1,
        Element::Table { .. } | Element::Latch { .. } => number,
    }
}

/// The nets and the bytes of the flat elements of a model's statements. The answer is false where a model
/// is placed whose text is longer than the limit.
fn add_elements(
    alloc: Global,
    names: &IndexSet<Name>,
    positions: &[usize],
    counts: &[Option<Count>],
    count: &mut Count,
    elements: &[Element],
) -> Result<bool, AllocError>
    requires { IsShaped count.old }
    ensures { IfOk result (λ fit. (limit : ℕ) (fixed : List ℕ → ℕ) (uses : List ℕ → List Use) → All (IsTold limit (entry_named names.now.keys positions.now counts.now) fixed uses) (map plain_element elements.now) → IsAdded limit fit count.old count.new (fixed_with fixed (map plain_element elements.now)) (uses_with (is_among count.old.formals.keys) uses 0 (map plain_element elements.now))) }
{
    let mut number = 0;
    for element in elements {
        if !add_element(alloc, names, positions, counts, count, element, number)? {
            return Ok(false);
        }
        number = next_number(element, number);
    }
    Ok(true)
}

/// A count in which nothing stands.
fn empty_count(alloc: Global, formals: IndexSet<Name>) -> Result<Count, AllocError>
    ensures { IfOk result (λ count. IsEmptyCount count formals.keys) }
{
    let uses = vec![in alloc; 0; formals.len()]?;
    Ok(Count {
        formals,
        uses,
        bytes: 0,
        places: 0,
        passed: 0,
        passed_bytes: 0,
    })
}

/// The count of a model with these formals, or none where its text is longer than the limit wherever it is
/// placed. Where the bytes of formals' names are more than 64 bits count, the answer is want of memory.
pub(crate) fn count_model(
    alloc: Global,
    names: &IndexSet<Name>,
    positions: &[usize],
    counts: &[Option<Count>],
    model: &BlifModel,
    formals: IndexSet<Name>,
    limit: u64,
) -> Result<Option<Count>, AllocError>
    requires { limit ≤ widest_text }
    ensures { IfOk result (λ found. (fixed : List ℕ → ℕ) (uses : List ℕ → List Use) → All (IsTold limit (entry_named names.now.keys positions.now counts.now) fixed uses) (plain_model model.now).elements → IsOutcome limit found (fixed_with fixed (plain_model model.now).elements) (uses_with (is_among formals.keys) uses 0 (plain_model model.now).elements)) }
{
    let mut count = empty_count(alloc, formals)?;
    if !add_elements(alloc, names, positions, counts, &mut count, &model.elements)? {
        return Ok(None);
    }
    if count.bytes.saturating_add(count.passed) > limit {
        return Ok(None);
    }
    if count.passed_bytes < u64::MAX {
        Ok(Some(count))
    } else {
        Err(AllocError)
    }
}
