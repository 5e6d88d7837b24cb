//! What a text spells: models with their inputs, outputs and elements.

ghost use Rattle.std.specs.Prelude.{◌≡◌, map};
ghost use Rattle.blif_text.specs.Views.{plain_model};
ghost use Rattle.blif_text.specs.Library.{IsLibrary};

use std::marker::Model;
use table_cover::Cover;
use tmr_base::{Edge, Name};

/// The initial value of a latch.
#[derive(Clone, Copy, Debug, PartialEq, Eq)]
pub enum Init {
    /// `0`
    Zero,
    /// `1`
    One,
    /// `2`: any value does.
    Free,
    /// `3`, or none given.
    Unknown,
}

/// What stands in a model.
#[derive(Debug, Drop)]
pub enum Element {
    /// `.names` with its rows. The cover is as wide as there are pins.
    Table {
        pins: Vec<Name>,
        out: Name,
        cover: Cover,
    },
    /// `.latch`. A control `NIL` is none. It lies apart, since a model has room for the largest element at each.
    Latch {
        pin: Name,
        out: Name,
        control: Box<Option<(Edge, Name)>>,
        init: Init,
    },
    /// `.subckt`: the placed model, and its formals with their actuals in the order of the text.
    Instance {
        model: Name,
        bindings: Vec<(Name, Name)>,
    },
}

/// A model: its inputs are the names of `.inputs` and `.clock`, each once, in the order of first
/// appearance; its elements stand in the order of the text.
#[derive(Debug, Drop)]
pub struct BlifModel {
    pub name: Name,
    pub inputs: Vec<Name>,
    pub outputs: Vec<Name>,
    pub elements: Vec<Element>,
}

/// The models of a text, in its order. The first is the main one.
///
/// There is a model, there are fewer than 2^32, the models' names differ, and in each model the inputs differ, the outputs
/// differ, and each cover is as wide as its table has pins.
#[derive(Debug, Drop)]
pub struct Library {
    models: Vec<BlifModel>,
}

impl Model for Library {
    ghost use Rattle.std.specs.Prelude.{List, map};
    ghost use Rattle.blif_text.specs.Models.{PlainModel};
    ghost use Rattle.blif_text.specs.Views.{plain_model};
    ghost use Rattle.blif_text.specs.Library.{IsLibrary};

    ghost Value = { List PlainModel };

    ghost view = { λ l. map plain_model l.models.items };

    ghost invariant = { λ l. IsLibrary (map plain_model l.models.items) };
}

impl Library {
    pub(crate) fn new(models: Vec<BlifModel>) -> Library
        requires { IsLibrary (map plain_model models.items) }
        ensures { result ≡ map plain_model models.items }
    {
        Library { models }
    }

    /// The models. This takes no memory.
    pub fn models(&self) -> &[BlifModel]
        ensures models { map plain_model result.now ≡ self.now }
        ensures kept { IsLibrary self.now }
    {
        &self.models
    }

    /// The models, for one who takes them apart.
    pub fn into_models(self) -> Vec<BlifModel>
        ensures models { map plain_model result.items ≡ self }
        ensures kept { IsLibrary self }
    {
        let Library { models } = self;
        models
    }
}
