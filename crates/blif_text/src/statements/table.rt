//! A table whose rows are being read.
ghost use Rattle.std.specs.Prelude.{◌≡◌, ◌∷◌, ◌++◌, [], None, length};
ghost use Rattle.blif_text.specs.Private.Answers.{Answers, plain};
ghost use Rattle.blif_text.specs.Kind.{◌or_else◌, name_kind, names_kind, table_kind, row_kind};
ghost use Rattle.blif_text.specs.Models.{table};
ghost use Rattle.blif_text.specs.Private.Progress.{shape_of, with_row};
ghost use Rattle.blif_text.specs.Views.{plain_element};

use crate::fault::{Refusal, TextKind};
use crate::library::Element;
use crate::statements::name_lists::{read_name, read_names};
use crate::statements::row::put_row;
use std::alloc::Global;
use std::marker::Model;
use table_cover::{Cover, Covers};
use tmr_base::Name;

#[derive(Drop)]
pub(crate) struct OpenTable {
    pins: Vec<Name>,
    out: Name,
    cover: Cover,
}

impl Model for OpenTable {
    ghost use Rattle.std.specs.Prelude.{◌≡◌, true, length};
    ghost use Rattle.blif_text.specs.Private.Progress.{OpenTable, table_view};

    ghost Value = { OpenTable };

    ghost view = { λ t. table_view t.pins.items t.out t.cover };

    ghost invariant = { λ t. t.cover.width ≡ length t.pins.items };
}

/// The width of a table of that many pins, where a number of 32 bits counts them.
fn width_of(pins: usize) -> Result<u32, Refusal>
    ensures { Answers result None (λ width. width ≡ pins) }
{
    if pins > u32::MAX as usize {
        return Err(Refusal::Memory);
    }
    Ok(pins as u32)
}

impl OpenTable {
    /// The table of these pins and this output, with no rows.
    fn read_parts(alloc: Global, pins: &[&[u8]], out: &[u8]) -> Result<OpenTable, Refusal>
        ensures { Answers result (names_kind (plain pins.now) or_else name_kind out.now) (λ t. t ≡ record { tokens = plain pins.now ++ out.now ∷ []; rows = [] }) }
    {
        let pins = read_names(alloc, pins)?;
        let out = read_name(alloc, out)?;
        let width = width_of(pins.len())?;
        let cover = Cover::new(alloc, width);
        Ok(OpenTable { pins, out, cover })
    }

    /// The table of the tokens after `.names`, with no rows.
    #[tactic(auto, using(crate::proofs::Tables::table_parts), unfolding(crate::specs::Kind::table_kind))]
    pub fn read(alloc: Global, tokens: &[&[u8]]) -> Result<OpenTable, Refusal>
        ensures { Answers result (table_kind (plain tokens.now)) (λ t. t ≡ record { tokens = plain tokens.now; rows = [] }) }
    {
        match tokens.split_last() {
            Some((out, pins)) => OpenTable::read_parts(alloc, pins, out),
            None => Err(Refusal::Bad(TextKind::Arguments)),
        }
    }

    /// Takes a row.
    pub fn push_row(&mut self, first: &[u8], arguments: &[&[u8]]) -> Result<(), Refusal>
        ensures { Answers result (row_kind (Some (shape_of self.old)) (first.now ∷ plain arguments.now)) (λ _. self.new ≡ with_row (first.now ∷ plain arguments.now) self.old) }
    {
        let width = self.pins.len();
        put_row(&mut self.cover, width, first, arguments)
    }

    /// The table, where no more rows come. Its cover takes the rows of one that was met, where that is the same.
    pub fn ended(self, covers: &mut Covers) -> Element
        ensures { plain_element result ≡ table self.tokens self.rows }
    {
        let _width = self.cover.width();
        Element::Table {
            pins: self.pins,
            out: self.out,
            cover: covers.share(self.cover),
        }
    }
}
