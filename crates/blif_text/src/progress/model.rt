//! The open model: what its statements have given so far.
ghost use Rattle.std.specs.Prelude.{◌≡◌, ◌≢◌, ◌∷◌, map, OnOk, IfOk, is_ok, None, true, List, ℕ, option_map};
ghost use Rattle.blif_text.specs.declared.statements.word.Word.TheVariants.{Row};
ghost use Rattle.blif_text.specs.Private.Answers.{Answers, plain};
ghost use Rattle.blif_text.specs.Kind.{kind_here, row_kind};
ghost use Rattle.blif_text.specs.Private.Progress.{fresh, here_in, more_of, with_table, without_table, ended_model, all_elements, shape_of, with_row};
ghost use Rattle.blif_text.specs.Text.{statement_by};
ghost use Rattle.blif_text.specs.Word.{is_inner};
ghost use Rattle.blif_text.specs.Views.{plain_element, plain_model};

use crate::fault::{Refusal, TextKind};
use crate::library::{BlifModel, Element};
use crate::statements::instance::read_instance;
use crate::statements::latch::read_latch;
use crate::statements::name_lists::{list_inputs, list_names};
use crate::statements::table::OpenTable;
use crate::statements::word::Word;
use indexmap::IndexSet;
use std::alloc::{AllocError, Global};
use std::marker::Model;
use std::mem::replace;
use table_cover::Covers;
use tmr_base::Name;

#[derive(Drop)]
pub(crate) struct OpenModel {
    name: Name,
    inputs: IndexSet<Name>,
    clocks: IndexSet<Name>,
    ports: IndexSet<Name>,
    outputs: IndexSet<Name>,
    elements: Vec<Element>,
    table: Option<OpenTable>,
}

impl Model for OpenModel {
    ghost use Rattle.std.specs.Prelude.{map};
    ghost use Rattle.blif_text.specs.Private.Progress.{OpenModel};
    ghost use Rattle.blif_text.specs.Word.{is_inner};
    ghost use Rattle.blif_text.specs.Views.{plain_element};

    ghost Value = { OpenModel };

    ghost view = { λ m. record {
      name = m.name;
      inputs = m.inputs.keys;
      clocks = m.clocks.keys;
      ports = m.ports.keys;
      outputs = m.outputs.keys;
      elements = map plain_element m.elements.items;
      table = m.table;
    } };
}

/// Ends the table, if there is one. Its cover takes the rows of one that was met, where that is the same.
fn end_table(
    elements: &mut Vec<Element>,
    table: Option<OpenTable>,
    covers: &mut Covers,
) -> Result<(), AllocError>
    ensures { OnOk result (map plain_element elements.new.items ≡ with_table (map plain_element elements.old.items) table) }
{
    match table {
        Some(table) => Ok(elements.push(table.ended(covers))?),
        None => Ok(()),
    }
}

impl OpenModel {
    pub fn new(alloc: Global, name: Name) -> OpenModel
        ensures { result ≡ fresh name }
    {
        OpenModel {
            name,
            inputs: IndexSet::new(alloc),
            clocks: IndexSet::new(alloc),
            ports: IndexSet::new(alloc),
            outputs: IndexSet::new(alloc),
            elements: Vec::new(alloc),
            table: None,
        }
    }

    /// Ends the table whose rows are being read, if there is one.
    fn end_rows(&mut self, covers: &mut Covers) -> Result<(), AllocError>
        ensures { OnOk result (self.new ≡ without_table self.old) }
    {
        let table = self.table.take();
        end_table(&mut self.elements, table, covers)
    }

    /// Takes a row.
    #[tactic(auto, unfolding(crate::specs::Kind::row_kind))]
    fn take_row(&mut self, first: &[u8], arguments: &[&[u8]]) -> Result<(), Refusal>
        ensures { Answers result (row_kind (option_map shape_of self.old.table) (first.now ∷ plain arguments.now)) (λ _. self.new ≡ record {
          name = self.old.name;
          inputs = self.old.inputs;
          clocks = self.old.clocks;
          ports = self.old.ports;
          outputs = self.old.outputs;
          elements = self.old.elements;
          table = option_map (with_row (first.now ∷ plain arguments.now)) self.old.table;
        }) }
    {
        match &mut self.table {
            Some(table) => table.push_row(first, arguments),
            None => Err(Refusal::Bad(TextKind::RowOutside)),
        }
    }

    /// Takes a statement that is no row, where no table has rows to come.
    fn take_arguments(
        &mut self,
        alloc: Global,
        word: Word,
        arguments: &[&[u8]],
    ) -> Result<(), Refusal>
        requires inner { is_inner word ≡ true }
        requires no_row { word ≢ Row }
        requires no_table { self.old.table ≡ None }
        ensures { (line : ℕ) (first : List ℕ) (models : List (List ℕ)) → Answers result (kind_here word models (here_in self.old) (statement_by line word first (plain arguments.now)))
            (λ _. self.new ≡ more_of word (statement_by line word first (plain arguments.now)) self.old) }
    {
        match word {
            Word::Inputs => list_inputs(alloc, &mut self.inputs, &mut self.ports, arguments),
            Word::Clock => list_inputs(alloc, &mut self.clocks, &mut self.ports, arguments),
            Word::Outputs => list_names(alloc, &mut self.outputs, arguments),
            Word::Names => match OpenTable::read(alloc, arguments) {
                Ok(table) => {
                    self.table = Some(table);
                    Ok(())
                }
                Err(refusal) => Err(refusal),
            },
            Word::Latch => match read_latch(alloc, arguments) {
                Ok(latch) => Ok(self.elements.push(latch)?),
                Err(refusal) => Err(refusal),
            },
            Word::Subckt => match read_instance(alloc, arguments) {
                Ok(instance) => Ok(self.elements.push(instance)?),
                Err(refusal) => Err(refusal),
            },
            Word::Unknown | Word::Model | Word::End | Word::Row => {
                Err(Refusal::Bad(TextKind::Unsupported))
            }
        }
    }

    /// Takes a statement in the model.
    pub fn take(
        &mut self,
        alloc: Global,
        covers: &mut Covers,
        word: Word,
        first: &[u8],
        arguments: &[&[u8]],
    ) -> Result<(), Refusal>
        requires inner { is_inner word ≡ true }
        ensures { (line : ℕ) (models : List (List ℕ)) → Answers result (kind_here word models (here_in self.old) (statement_by line word first.now (plain arguments.now)))
            (λ _. self.new ≡ more_of word (statement_by line word first.now (plain arguments.now)) self.old) }
    {
        match word {
            Word::Row => self.take_row(first, arguments),
            word => {
                self.end_rows(covers)?;
                self.take_arguments(alloc, word, arguments)
            }
        }
    }

    /// The inputs and the outputs in their order, where no more statements come.
    fn end_lists(
        &mut self,
        alloc: Global,
        covers: &mut Covers,
    ) -> Result<(Vec<Name>, Vec<Name>), AllocError>
        ensures lists { IfOk result (λ lists. (lists.0.items ≡ self.old.ports) × (lists.1.items ≡ self.old.outputs)) }
        ensures name { OnOk result (self.new.name ≡ self.old.name) }
        ensures elements { OnOk result (self.new.elements ≡ all_elements self.old) }
    {
        self.end_rows(covers)?;
        self.elements.shrink_to_fit();
        let inputs = in_order(alloc, replace(&mut self.ports, IndexSet::new(alloc)))?;
        let outputs = in_order(alloc, replace(&mut self.outputs, IndexSet::new(alloc)))?;
        Ok((inputs, outputs))
    }

    /// The model, where no more statements come.
    pub fn ended(mut self, alloc: Global, covers: &mut Covers) -> Result<BlifModel, AllocError>
        ensures { IfOk result (λ m. plain_model m ≡ ended_model self) }
    {
        let lists = self.end_lists(alloc, covers);
        let (name, elements) = self.into_parts();
        whole_model(name, elements, lists)
    }

    /// The name and the elements.
    fn into_parts(self) -> (Name, Vec<Element>)
        ensures name { result.0 ≡ self.name }
        ensures elements { map plain_element result.1.items ≡ self.elements }
    {
        (self.name, self.elements)
    }
}

/// The model of this name with these inputs, outputs and elements.
fn whole_model(
    name: Name,
    elements: Vec<Element>,
    lists: Result<(Vec<Name>, Vec<Name>), AllocError>,
) -> Result<BlifModel, AllocError>
    ensures model { IfOk result (λ m. IfOk lists (λ l. plain_model m ≡ record { name = name; inputs = l.0.items; outputs = l.1.items; elements = map plain_element elements.items })) }
    ensures ok { is_ok result ≡ is_ok lists }
{
    match lists {
        Ok((inputs, outputs)) => Ok(BlifModel {
            name,
            inputs,
            outputs,
            elements,
        }),
        Err(e) => Err(e),
    }
}

/// The names of a set in their order, in a vector without room for more.
fn in_order(alloc: Global, names: IndexSet<Name>) -> Result<Vec<Name>, AllocError>
    ensures { IfOk result (λ v. v.items ≡ names.keys) }
{
    let mut names: Vec<Name> = names.into_iter().collect(alloc)?;
    names.shrink_to_fit();
    Ok(names)
}
