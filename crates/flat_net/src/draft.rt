//! A draft of a design: ports and elements by name, as a reader finds them.
ghost use Rattle.std.specs.Prelude.{◌≡◌, ◌++◌, [], ◌∷◌, length, IfOk, OnOk, OnErr};
ghost use Rattle.flat_net.specs.Draft.{PlainDraft, TableOf, LatchOf, IsControl};
ghost use Rattle.std.specs.Option.{option_copied, option_map};

use std::alloc::Global;
use std::marker::Model;
use table_cover::Cover;
use tmr_base::{Edge, Name, OutOfMemory};

/// A table or a latch, by name. A latch's control lies apart, since a draft has room for the largest element at each.
#[derive(Drop)]
pub enum DraftElement {
    TableElement {
        pins: Vec<Name>,
        out: Name,
        cover: Cover,
    },
    LatchElement {
        pin: Name,
        out: Name,
        control: Box<Option<(Edge, Name)>>,
        init: bool,
    },
}

/// A model's name, its inputs, its outputs and its elements, each by name and in order. A table has as
/// many pins as its cover is wide.
#[derive(Drop)]
pub struct Draft {
    pub(crate) model: Name,
    pub(crate) inputs: Vec<Name>,
    pub(crate) outputs: Vec<Name>,
    pub(crate) elements: Vec<DraftElement>,
}

impl Model for Draft {
    ghost use Rattle.flat_net.specs.Draft.{PlainDraft, IsDraft};

    ghost Value = { PlainDraft };

    ghost use Rattle.flat_net.specs.DraftView.{draft_of};

    ghost view = { draft_of };

    ghost invariant = { λ d. IsDraft (draft_of d) };
}

/// The net of a control.
pub fn control_name(control: &Option<(Edge, Name)>) -> Option<&Name>
    ensures name { option_copied result ≡ option_map (λ c. c.1) control.now }
    ensures legal { IsControl control.now }
{
    match control {
        Some((_, name)) => {
            let _name = name.bytes();
            Some(name)
        }
        None => None,
    }
}

impl Draft {
    /// A draft without ports and elements.
    pub fn new(alloc: Global, model: Name) -> Draft
        ensures { result ≡ record { model = model; inputs = []; outputs = []; elements = [] } }
    {
        let _model = model.bytes();
        Draft {
            model,
            inputs: Vec::new(alloc),
            outputs: Vec::new(alloc),
            elements: Vec::new(alloc),
        }
    }

    /// The same, with room for so many inputs, outputs and elements.
    pub fn with_room(
        alloc: Global,
        model: Name,
        inputs: usize,
        outputs: usize,
        elements: usize,
    ) -> Result<Draft, OutOfMemory>
        ensures { IfOk result (λ draft. draft ≡ record { model = model; inputs = []; outputs = []; elements = [] }) }
    {
        let _model = model.bytes();
        let inputs = Vec::with_capacity(alloc, inputs)?;
        let outputs = Vec::with_capacity(alloc, outputs)?;
        let elements = Vec::with_capacity(alloc, elements)?;
        Ok(Draft {
            model,
            inputs,
            outputs,
            elements,
        })
    }

    /// Adds an input behind the others. After want of memory the draft is unchanged.
    pub fn push_input(&mut self, name: Name) -> Result<(), OutOfMemory>
        ensures ok { OnOk result (self.new ≡ record self.old { inputs = self.old.inputs ++ name ∷ [] }) }
        ensures err { OnErr result (self.new ≡ self.old) }
    {
        let _name = name.bytes();
        self.inputs.push(name)?;
        Ok(())
    }

    /// Adds an output behind the others. After want of memory the draft is unchanged.
    pub fn push_output(&mut self, name: Name) -> Result<(), OutOfMemory>
        ensures ok { OnOk result (self.new ≡ record self.old { outputs = self.old.outputs ++ name ∷ [] }) }
        ensures err { OnErr result (self.new ≡ self.old) }
    {
        self.outputs.push(name)?;
        Ok(())
    }

    /// Adds a table behind the other elements. After want of memory the draft is unchanged.
    pub fn push_table(
        &mut self,
        pins: Vec<Name>,
        out: Name,
        cover: Cover,
    ) -> Result<(), OutOfMemory>
        requires { length pins.items ≡ cover.width }
        ensures ok { OnOk result (self.new ≡ record self.old { elements = self.old.elements ++ TableOf pins.items out cover ∷ [] }) }
        ensures err { OnErr result (self.new ≡ self.old) }
    {
        let _out = out.bytes();
        let _width = cover.width();
        self.elements
            .push(DraftElement::TableElement { pins, out, cover })?;
        Ok(())
    }

    /// Adds a latch behind the other elements. After want of memory the draft is unchanged.
    pub fn push_latch(
        &mut self,
        pin: Name,
        out: Name,
        control: Option<(Edge, Name)>,
        init: bool,
    ) -> Result<(), OutOfMemory>
        ensures ok { OnOk result (self.new ≡ record self.old { elements = self.old.elements ++ LatchOf pin out control init ∷ [] }) }
        ensures err { OnErr result (self.new ≡ self.old) }
    {
        let _out = out.bytes();
        let _control = control_name(&control);
        let control = Box::new(*self.elements.allocator(), control)?;
        self.elements.push(DraftElement::LatchElement {
            pin,
            out,
            control,
            init,
        })?;
        Ok(())
    }
}
