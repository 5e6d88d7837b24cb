//! The tokens after `.latch`.
ghost use Rattle.std.specs.Prelude.{◌≡◌, ◌∷◌, [], codes};
ghost use Rattle.blif_text.specs.Private.Answers.{Answers, plain};
ghost use Rattle.blif_text.specs.Private.Latches.{clock_kind, start_kind, clock_of, start_of};
ghost use Rattle.blif_text.specs.Kind.{◌or_else◌, type_kind, ends_kind, latch_kind};
ghost use Rattle.blif_text.specs.Models.{Register, edge, register};
ghost use Rattle.blif_text.specs.Views.{plain_element};

use crate::fault::{Refusal, TextKind};
use crate::library::{Element, Init};
use crate::statements::name_lists::read_name;
use std::alloc::Global;
use tmr_base::{Edge, Name};

#[tactic(auto, unfolding(crate::specs::Kind::type_kind))]
fn read_type(token: &[u8]) -> Result<Edge, Refusal>
    ensures { Answers result (type_kind token.now) (λ e. e ≡ edge token.now) }
{
    if token == b"re".as_slice() {
        Ok(Edge::Rising)
    } else if token == b"fe".as_slice() {
        Ok(Edge::Falling)
    } else if token == b"ah".as_slice() || token == b"al".as_slice() || token == b"as".as_slice() {
        Err(Refusal::Bad(TextKind::Unsupported))
    } else {
        Err(Refusal::Bad(TextKind::BadLatch))
    }
}

/// The initial value, which is unknown where none is given.
#[tactic(auto, unfolding(crate::specs::Kind::init_kind))]
fn read_init(start: Option<&[u8]>) -> Result<Init, Refusal>
    ensures { Answers result (start_kind start.entry) (λ i. i ≡ start_of start.entry) }
{
    let Some(token) = start else {
        return Ok(Init::Unknown);
    };
    if token == b"0".as_slice() {
        Ok(Init::Zero)
    } else if token == b"1".as_slice() {
        Ok(Init::One)
    } else if token == b"2".as_slice() {
        Ok(Init::Free)
    } else if token == b"3".as_slice() {
        Ok(Init::Unknown)
    } else {
        Err(Refusal::Bad(TextKind::BadLatch))
    }
}

/// The edge and the control, of which there is none where none is given or it is `NIL`.
#[tactic(auto, unfolding(crate::specs::Kind::control_kind))]
fn read_control(
    alloc: Global,
    clock: Option<(&[u8], &[u8])>,
) -> Result<Option<(Edge, Name)>, Refusal>
    ensures { Answers result (clock_kind clock.entry) (λ c. c ≡ clock_of clock.entry) }
{
    let Some((edge, token)) = clock else {
        return Ok(None);
    };
    let edge = read_type(edge)?;
    let name = read_name(alloc, token)?;
    if token == b"NIL".as_slice() {
        Ok(None)
    } else {
        Ok(Some((edge, name)))
    }
}

/// The latch of D and Q, and of what else is given.
#[tactic(auto, unfolding(crate::specs::Kind::ends_kind))]
fn latch(
    alloc: Global,
    pin: &[u8],
    out: &[u8],
    clock: Option<(&[u8], &[u8])>,
    start: Option<&[u8]>,
) -> Result<Element, Refusal>
    ensures { Answers result (ends_kind pin.now out.now or_else clock_kind clock.entry or_else start_kind start.entry)
        (λ e. plain_element e ≡ Register pin.now out.now (clock_of clock.entry) (start_of start.entry)) }
{
    let pin = read_name(alloc, pin)?;
    let out = read_name(alloc, out)?;
    let control = read_control(alloc, clock)?;
    let init = read_init(start)?;
    let control = Box::new(alloc, control)?;
    Ok(Element::Latch {
        pin,
        out,
        control,
        init,
    })
}

#[tactic(auto, using(crate::proofs::Refusals::nothing_more), unfolding(crate::specs::Kind::latch_kind, crate::specs::Models::register))]
pub(crate) fn read_latch(alloc: Global, tokens: &[&[u8]]) -> Result<Element, Refusal>
    ensures { Answers result (latch_kind (plain tokens.now)) (λ e. register (plain tokens.now) ≡ plain_element e ∷ []) }
{
    match tokens {
        [pin, out] => latch(alloc, pin, out, None, None),
        [pin, out, init] => latch(alloc, pin, out, None, Some(init)),
        [pin, out, edge, clock] => latch(alloc, pin, out, Some((edge, clock)), None),
        [pin, out, edge, clock, init] => latch(alloc, pin, out, Some((edge, clock)), Some(init)),
        _ => Err(Refusal::Bad(TextKind::Arguments)),
    }
}
