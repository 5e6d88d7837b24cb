//! Which variables are defined, and which are read.
ghost use Rattle.std.specs.Prelude.{◌≡◌, ◌++◌, ◌∷◌, [], ℕ, Bool, false, true, not, ◌||◌, nat_eq, map, OnOk, IfOk, IfErr};
ghost use Rattle.std.specs.List.{flat_map};
ghost use Rattle.flat_net.specs.First.{HasNone, IsFirst};
ghost use Rattle.aag_text.specs.Variables.{defined, is_among, read_variables, is_undefined, IsDefinedOnce, IsDefined};
ghost use Rattle.aag_text.specs.Aig.{plain_aig};
ghost use Rattle.aag_reader.specs.Private.Found.{IsTwice, IsDoubledIn, IsUndefinedIn, gate_reads};

use crate::GraphFault;
use aag_text::{Aig, Gate, Latch, Literal};
use indexmap::IndexSet;
use std::alloc::{AllocError, Global};

fn push_latches(variables: &mut Vec<u32>, latches: &[Latch]) -> Result<(), AllocError>
    ensures { OnOk result (variables.new.items ≡ variables.old.items ++ map (λ l. l.variable) latches.now) }
{
    for latch in latches {
        variables.push(latch.variable)?;
    }
    Ok(())
}

fn push_gates(variables: &mut Vec<u32>, gates: &[Gate]) -> Result<(), AllocError>
    ensures { OnOk result (variables.new.items ≡ variables.old.items ++ map (λ g. g.variable) gates.now) }
{
    for gate in gates {
        variables.push(gate.variable)?;
    }
    Ok(())
}

/// The variables of inputs, latches and gates, in the order of the file.
fn definitions(alloc: Global, a: &Aig) -> Result<Vec<u32>, AllocError>
    ensures { IfOk result (λ variables. variables.items ≡ defined (plain_aig a.now)) }
{
    let mut variables = Vec::new(alloc);
    variables.extend_from_slice(&a.inputs)?;
    push_latches(&mut variables, &a.latches)?;
    push_gates(&mut variables, &a.gates)?;
    Ok(variables)
}

/// Adds a variable, which is not defined yet.
fn define(variables: &mut IndexSet<u32>, variable: u32) -> Result<(), GraphFault>
    ensures ok { OnOk result (variables.new.keys ≡ variables.old.keys ++ variable ∷ []) }
    ensures new { OnOk result (is_among variables.old.keys variable ≡ false) }
    ensures fault { IfErr result (IsTwice variables.old.keys variable) }
{
    match variables.insert(variable) {
        Ok(true) => Ok(()),
        Ok(false) => Err(GraphFault::Doubled(variable)),
        Err(_) => Err(GraphFault::Memory),
    }
}

/// Each of these variables once, in order.
#[tactic(auto, using(crate::proofs::VariableLaws::doubled_here))]
fn defined_once(alloc: Global, all: &[u32]) -> Result<IndexSet<u32>, GraphFault>
    ensures keys { IfOk result (λ variables. variables.keys ≡ all.now) }
    ensures once { IfOk result (λ _. HasNone is_among all.now) }
    ensures fault { IfErr result (IsDoubledIn all.now) }
{
    let mut variables = IndexSet::new(alloc);
    for variable in all {
        define(&mut variables, *variable)?;
    }
    Ok(variables)
}

/// The variables that are defined, in the order of the file: each once.
pub fn defined(alloc: Global, a: &Aig) -> Result<IndexSet<u32>, GraphFault>
    ensures keys { IfOk result (λ variables. variables.keys ≡ defined (plain_aig a.now)) }
    ensures once { IfOk result (λ _. IsDefinedOnce (plain_aig a.now)) }
    ensures fault { IfErr result (IsDoubledIn (defined (plain_aig a.now))) }
{
    let all = definitions(alloc, a)?;
    let variables = defined_once(alloc, &all)?;
    Ok(variables)
}

fn push_nexts(variables: &mut Vec<u32>, latches: &[Latch]) -> Result<(), AllocError>
    ensures { OnOk result (variables.new.items ≡ variables.old.items ++ map (λ l. l.next.variable) latches.now) }
{
    for latch in latches {
        variables.push(latch.next.variable)?;
    }
    Ok(())
}

fn push_literals(variables: &mut Vec<u32>, literals: &[Literal]) -> Result<(), AllocError>
    ensures { OnOk result (variables.new.items ≡ variables.old.items ++ map (λ l. l.variable) literals.now) }
{
    for literal in literals {
        variables.push(literal.variable)?;
    }
    Ok(())
}

fn push_reads(variables: &mut Vec<u32>, gates: &[Gate]) -> Result<(), AllocError>
    ensures { OnOk result (variables.new.items ≡ variables.old.items ++ flat_map gate_reads gates.now) }
{
    for gate in gates {
        variables.push(gate.left.variable)?;
        variables.push(gate.right.variable)?;
    }
    Ok(())
}

/// The variables of next, output and gate literals, in the order of the file.
fn reads(alloc: Global, a: &Aig) -> Result<Vec<u32>, AllocError>
    ensures { IfOk result (λ variables. variables.items ≡ read_variables (plain_aig a.now)) }
{
    let mut variables = Vec::new(alloc);
    push_nexts(&mut variables, &a.latches)?;
    push_literals(&mut variables, &a.outputs)?;
    push_reads(&mut variables, &a.gates)?;
    Ok(variables)
}

/// Whether a variable is neither 0 nor one of these.
fn is_unknown(variables: &IndexSet<u32>, variable: u32) -> bool
    ensures { result ≡ not (nat_eq variable 0 || is_among variables.now.keys variable) }
{
    !(variable == 0 || variables.contains(&variable))
}

/// The first variable that is neither 0 nor one of these.
fn check_known(variables: &IndexSet<u32>, all: &[u32]) -> Result<(), GraphFault>
    ensures known { OnOk result (HasNone (λ before v. not (nat_eq v 0 || is_among variables.now.keys v)) all.now) }
    ensures fault { IfErr result (IsUndefinedIn variables.now.keys all.now) }
{
    for variable in all {
        if is_unknown(variables, *variable) {
            return Err(GraphFault::Undefined(*variable));
        }
    }
    Ok(())
}

/// Each variable that is read is 0 or defined.
pub fn check_reads(alloc: Global, a: &Aig, variables: &IndexSet<u32>) -> Result<(), GraphFault>
    requires { variables.now.keys ≡ defined (plain_aig a.now) }
    ensures known { OnOk result (IsDefined (plain_aig a.now)) }
    ensures fault { IfErr result (IsUndefinedIn (defined (plain_aig a.now)) (read_variables (plain_aig a.now))) }
{
    let all = reads(alloc, a)?;
    check_known(variables, &all)
}
