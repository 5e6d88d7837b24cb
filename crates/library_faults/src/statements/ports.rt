//! The inputs and outputs of a model, to be asked for by name.
ghost use Rattle.std.specs.Prelude.{◌≡◌, ◌||◌, map, All, IfOk};
ghost use Rattle.library_faults.specs.Ports.{ports_of as interface};
ghost use Rattle.blif_text.specs.Kind.{is_among};
ghost use Rattle.blif_text.specs.Library.{IsModel};
ghost use Rattle.blif_text.specs.Views.{plain_model};

use crate::statements::names::{Names, is_among, list_of, names_of};
use blif_text::BlifModel;
use std::alloc::Global;
use std::marker::Model;
use tmr_base::{Name, OutOfMemory};

/// A model's inputs and outputs.
#[derive(Drop)]
pub(crate) struct Ports {
    inputs: Names,
    outputs: Names,
}

impl Model for Ports {
    ghost use Rattle.library_faults.specs.Ports.{PlainPorts};
    ghost use Rattle.library_faults.specs.Private.Names.{names_in};

    ghost Value = { PlainPorts };

    ghost view = { λ p. record { inputs = names_in p.inputs; outputs = names_in p.outputs } };
}

impl Ports {
    /// The name is an input or an output.
    pub(crate) fn has(&self, name: &Name) -> bool
        ensures { result ≡ (is_among self.now.inputs name.now || is_among self.now.outputs name.now) }
    {
        is_among(&self.inputs, name) || is_among(&self.outputs, name)
    }

    /// The name is an output.
    pub(crate) fn has_output(&self, name: &Name) -> bool
        ensures { result ≡ is_among self.now.outputs name.now }
    {
        is_among(&self.outputs, name)
    }

    /// The inputs in their order.
    pub(crate) fn inputs(&self) -> &[Name]
        ensures { result.now ≡ self.now.inputs }
    {
        list_of(&self.inputs)
    }
}

/// The inputs and outputs of the model.
fn ports_of(alloc: Global, model: &BlifModel) -> Result<Ports, OutOfMemory>
    requires { IsModel (plain_model model.now) }
    ensures { IfOk result (λ ports. ports ≡ interface (plain_model model.now)) }
{
    let inputs = names_of(alloc, &model.inputs)?;
    let outputs = names_of(alloc, &model.outputs)?;
    Ok(Ports { inputs, outputs })
}

/// The inputs and outputs of all models.
pub(crate) fn all_ports(alloc: Global, models: &[BlifModel]) -> Result<Vec<Ports>, OutOfMemory>
    requires { All IsModel (map plain_model models.now) }
    ensures { IfOk result (λ ports. ports.items ≡ map interface (map plain_model models.now)) }
{
    let mut ports = Vec::with_capacity(alloc, models.len())?;
    for model in models {
        ports.push(ports_of(alloc, model)?)?;
    }
    Ok(ports)
}
