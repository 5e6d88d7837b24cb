//! The tokens after `.subckt`.
ghost use Rattle.std.specs.Prelude.{◌≡◌, ◌++◌, ◌∷◌, [], IfSome, is_some, position, map};
ghost use Rattle.blif_text.specs.Private.Answers.{Answers, plain};
ghost use Rattle.blif_text.specs.Kind.{is_equals, formal, actual, binding_kind, bindings_kind, instance_kind};
ghost use Rattle.blif_text.specs.Models.{binding, instance};
ghost use Rattle.blif_text.specs.Views.{plain_element};

use crate::fault::{Refusal, TextKind};
use crate::library::Element;
use crate::statements::name_lists::{read_name, read_name_or};
use std::alloc::Global;
use tmr_base::Name;

/// Where the first `=` stands.
fn equals(token: &[u8]) -> Option<usize>
    ensures { result ≡ position is_equals token.now }
{
    token.iter().position(|b| *b == b'=')
}

/// The formal and the actual.
fn split(token: &[u8]) -> Option<(&[u8], &[u8])>
    ensures formal { IfSome result (λ r. r.0.now ≡ formal token.now) }
    ensures actual { IfSome result (λ r. r.1.now ≡ actual token.now) }
    ensures found { is_some result ≡ is_some (position is_equals token.now) }
{
    match equals(token) {
        Some(at) => Some((&token[..at], &token[at + 1..])),
        None => None,
    }
}

#[tactic(auto, unfolding(crate::specs::Kind::binding_kind))]
fn read_binding(alloc: Global, token: &[u8]) -> Result<(Name, Name), Refusal>
    ensures { Answers result (binding_kind token.now) (λ b. b ≡ binding token.now) }
{
    match split(token) {
        Some((formal, actual)) => {
            let formal = read_name_or(alloc, formal, TextKind::BadBinding)?;
            let actual = read_name_or(alloc, actual, TextKind::BadBinding)?;
            Ok((formal, actual))
        }
        None => Err(Refusal::Bad(TextKind::BadBinding)),
    }
}

#[tactic(auto, unfolding(crate::specs::Kind::bindings_kind))]
fn read_bindings(alloc: Global, tokens: &[&[u8]]) -> Result<Vec<(Name, Name)>, Refusal>
    ensures { Answers result (bindings_kind (plain tokens.now)) (λ bs. bs.items ≡ map binding (plain tokens.now)) }
{
    let mut bindings = Vec::with_capacity(alloc, tokens.len())?;
    for token in tokens {
        let binding = read_binding(alloc, token)?;
        bindings.push(binding)?;
    }
    Ok(bindings)
}

#[tactic(auto, unfolding(crate::specs::Kind::instance_kind, crate::specs::Models::instance))]
pub(crate) fn read_instance(alloc: Global, tokens: &[&[u8]]) -> Result<Element, Refusal>
    ensures { Answers result (instance_kind (plain tokens.now)) (λ e. instance (plain tokens.now) ≡ plain_element e ∷ []) }
{
    match tokens {
        [] => Err(Refusal::Bad(TextKind::Arguments)),
        [model, bindings @ ..] => {
            let model = read_name(alloc, model)?;
            let bindings = read_bindings(alloc, bindings)?;
            Ok(Element::Instance { model, bindings })
        }
    }
}
