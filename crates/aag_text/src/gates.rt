//! And-gates, added one after the other, and the gates of one table.
ghost use Rattle.std.specs.Prelude.{true, false, is_some, ◌≡◌, ◌+◌, ◌*◌, ◌<◌, ◌≤◌, ℕ, Bool, not, ◌&&◌, ◌||◌, [], ◌∷◌, ◌++◌, map, length, OnOk, IfOk, All};
ghost use Rattle.table_cover.specs.Cover.{mark_fits, cover_value};
ghost use Rattle.aag_text.specs.Aig.{literal_value, literal_number, IsGreaterFirst};
ghost use Rattle.aag_text.specs.Taken.{is_given, row_gates, cover_gates};
ghost use Rattle.aag_text.specs.Private.Gates.{next_of, AreMet, AreStacked, Grows, all_value, any_value, IsBelow, AreBelow, row_value, rows_value, joins};

use crate::aig::literal_number;
use crate::{Gate, Literal};
use std::alloc::{AllocError, Global};
use std::marker::Model;
use table_cover::Cover;

/// And-gates whose variables are numbered in order. Each reads lesser variables alone, and its greater literal stands first.
#[derive(Drop)]
pub struct Gates {
    first: u32,
    list: Vec<Gate>,
}

impl Model for Gates {
    ghost use Rattle.aag_text.specs.Private.Gates.{PlainGates, AreStacked};

    ghost Value = { PlainGates };

    ghost view = { λ g. record { first = g.first; list = g.list.items } };

    ghost invariant = { λ g. AreStacked g.first g.list.items };
}

/// The same literal, negated once more.
pub fn negated(l: Literal) -> Literal
    ensures value { (values : ℕ → Bool) → literal_value values result ≡ not (literal_value values l) }
    ensures variable { result.variable ≡ l.variable }
{
    Literal {
        variable: l.variable,
        negated: !l.negated,
    }
}

impl Gates {
    /// No gates. The first one will have this variable.
    #[tactic(auto, unfolding(crate::specs::Private::Gates::AreStacked))]
    pub fn new(alloc: Global, first: u32) -> Gates
        ensures { result ≡ record { first = first; list = [] } }
    {
        Gates {
            first,
            list: Vec::new(alloc),
        }
    }

    /// How many gates there are.
    pub fn len(&self) -> usize
        ensures { result ≡ length self.now.list }
    {
        self.list.len()
    }

    /// The variable of the next gate.
    pub fn next(&self) -> u64
        ensures { result ≡ next_of self.now }
    {
        self.first as u64 + self.list.len() as u64
    }

    /// The gates, in the order of their variables.
    pub fn into_list(self) -> Vec<Gate>
        ensures list { result.items ≡ self.list }
        ensures stacked { AreStacked self.first self.list }
    {
        let Gates { first: _, list } = self;
        list
    }

    /// Adds the gate of these literals behind the others, and gives its own.
    #[tactic(auto, using(crate::proofs::Stacks::stacked_append))]
    fn push(&mut self, left: Literal, right: Literal) -> Result<Literal, AllocError>
        requires left { left.variable < next_of self.old }
        requires right { right.variable < next_of self.old }
        requires greater { literal_number right ≤ literal_number left }
        requires room { next_of self.old < 2147483648 }
        ensures gates { OnOk result (self.new ≡ record { first = self.old.first; list = self.old.list ++ record { variable = next_of self.old; left = left; right = right } ∷ [] }) }
        ensures own { IfOk result (λ l. l ≡ record { variable = next_of self.old; negated = false }) }
    {
        let variable = self.first + self.list.len() as u32;
        self.list.push(Gate {
            variable,
            left,
            right,
        })?;
        Ok(Literal {
            variable,
            negated: false,
        })
    }

    /// The conjunction of two literals: one gate more. The literal with the greater number comes first.
    #[tactic(auto, using(crate::proofs::Stacks::grown, crate::proofs::Stacks::one_longer, crate::proofs::Stacks::conjoined, crate::proofs::Stacks::conjoined_back))]
    pub fn and(&mut self, a: Literal, b: Literal) -> Result<Literal, AllocError>
        requires left { a.variable < next_of self.old }
        requires right { b.variable < next_of self.old }
        requires room { next_of self.old < 2147483648 }
        ensures grows { OnOk result (Grows 1 self.old self.new) }
        ensures count { OnOk result (length self.new.list ≡ length self.old.list + 1) }
        ensures below { IfOk result (λ l. l.variable < next_of self.new) }
        ensures value { IfOk result (λ l. (values : ℕ → Bool) → AreMet values self.new.list → literal_value values l ≡ (literal_value values a && literal_value values b)) }
    {
        if literal_number(a) < literal_number(b) {
            self.push(b, a)
        } else {
            self.push(a, b)
        }
    }
}

/// The conjunction so far, with one literal more.
#[tactic(auto, using(crate::proofs::Stacks::grows_none))]
fn with_literal(gates: &mut Gates, all: Option<Literal>, l: Literal) -> Result<Literal, AllocError>
    requires all { IsBelow (next_of gates.old) all }
    requires literal { l.variable < next_of gates.old }
    requires room { next_of gates.old < 2147483648 }
    ensures grows { OnOk result (Grows 1 gates.old gates.new) }
    ensures count { OnOk result (length gates.new.list ≡ length gates.old.list + joins all true) }
    ensures below { IfOk result (λ r. r.variable < next_of gates.new) }
    ensures value { IfOk result (λ r. (values : ℕ → Bool) → AreMet values gates.new.list → literal_value values r ≡ (all_value values all && literal_value values l)) }
{
    match all {
        None => Ok(l),
        Some(all) => gates.and(all, l),
    }
}

/// The conjunction so far, with what one more mark says of its pin.
#[tactic(auto, using(crate::proofs::Stacks::grows_none))]
fn with_mark(
    gates: &mut Gates,
    all: Option<Literal>,
    mark: u8,
    pin: Literal,
) -> Result<Option<Literal>, AllocError>
    requires all { IsBelow (next_of gates.old) all }
    requires pin { pin.variable < next_of gates.old }
    requires room { next_of gates.old < 2147483648 }
    ensures grows { OnOk result (Grows 1 gates.old gates.new) }
    ensures count { OnOk result (length gates.new.list ≡ length gates.old.list + joins all (is_given mark)) }
    ensures some { IfOk result (λ r. is_some r ≡ (is_some all || is_given mark)) }
    ensures below { IfOk result (λ r. IsBelow (next_of gates.new) r) }
    ensures value { IfOk result (λ r. (values : ℕ → Bool) → AreMet values gates.new.list → all_value values r ≡ (all_value values all && mark_fits mark (literal_value values pin))) }
{
    match mark {
        b'0' => Ok(Some(with_literal(gates, all, negated(pin))?)),
        b'1' => Ok(Some(with_literal(gates, all, pin)?)),
        _ => Ok(all),
    }
}

/// The literal that is 1 exactly where the row matches the pins. A row without `0` and `1` gives 1.
fn row_literal(gates: &mut Gates, row: &[u8], pins: &[Literal]) -> Result<Literal, AllocError>
    requires wide { length row.now ≡ length pins.now }
    requires pins { AreBelow (next_of gates.old) pins.now }
    requires zero { 0 < next_of gates.old }
    requires room { next_of gates.old + length row.now ≤ 2147483648 }
    ensures grows { OnOk result (Grows (length row.now) gates.old gates.new) }
    ensures count { OnOk result (length gates.new.list ≡ length gates.old.list + row_gates row.now) }
    ensures below { IfOk result (λ r. r.variable < next_of gates.new) }
    ensures value { IfOk result (λ r. (values : ℕ → Bool) → values 0 ≡ false → AreMet values gates.new.list → literal_value values r ≡ row_value values row.now pins.now) }
{
    let mut all = None;
    for j in 0..row.len() {
        all = with_mark(gates, all, row[j], pins[j])?;
    }
    match all {
        Some(all) => Ok(all),
        None => Ok(Literal {
            variable: 0,
            negated: true,
        }),
    }
}

/// The disjunction so far, with one literal more.
#[tactic(auto, using(crate::proofs::Stacks::grows_none))]
fn with_row(gates: &mut Gates, any: Option<Literal>, row: Literal) -> Result<Literal, AllocError>
    requires any { IsBelow (next_of gates.old) any }
    requires row { row.variable < next_of gates.old }
    requires room { next_of gates.old < 2147483648 }
    ensures grows { OnOk result (Grows 1 gates.old gates.new) }
    ensures count { OnOk result (length gates.new.list ≡ length gates.old.list + joins any true) }
    ensures below { IfOk result (λ r. r.variable < next_of gates.new) }
    ensures value { IfOk result (λ r. (values : ℕ → Bool) → AreMet values gates.new.list → literal_value values r ≡ (any_value values any || literal_value values row)) }
{
    match any {
        None => Ok(row),
        Some(any) => Ok(negated(gates.and(negated(any), negated(row))?)),
    }
}

/// The literal that is 1 exactly where some row matches the pins. Without rows it is 0.
fn rows_literal(gates: &mut Gates, cover: &Cover, pins: &[Literal]) -> Result<Literal, AllocError>
    requires wide { cover.now.width ≡ length pins.now }
    requires pins { AreBelow (next_of gates.old) pins.now }
    requires zero { 0 < next_of gates.old }
    requires room { next_of gates.old + length cover.now.rows * (cover.now.width + 1) ≤ 2147483648 }
    ensures grows { OnOk result (Grows (length cover.now.rows * (cover.now.width + 1)) gates.old gates.new) }
    ensures count { OnOk result (length gates.new.list ≡ length gates.old.list + cover_gates cover.now) }
    ensures below { IfOk result (λ r. r.variable < next_of gates.new) }
    ensures value { IfOk result (λ r. (values : ℕ → Bool) → values 0 ≡ false → AreMet values gates.new.list → literal_value values r ≡ rows_value values cover.now.rows pins.now) }
{
    let mut any = None;
    for i in 0..cover.row_count() {
        let row = row_literal(gates, cover.row(i), pins)?;
        any = Some(with_row(gates, any, row)?);
    }
    match any {
        Some(any) => Ok(any),
        None => Ok(Literal {
            variable: 0,
            negated: false,
        }),
    }
}

/// The literal with the value of the table on its pins: a chain of gates for each row, and one for the
/// rows, negated where the rows tell where the table is 0.
#[tactic(auto, unfolding(table_cover::specs::Cover::cover_value, crate::specs::Private::Gates::rows_value))]
pub fn table_literal(
    gates: &mut Gates,
    cover: &Cover,
    pins: &[Literal],
) -> Result<Literal, AllocError>
    requires wide { cover.now.width ≡ length pins.now }
    requires pins { AreBelow (next_of gates.old) pins.now }
    requires zero { 0 < next_of gates.old }
    requires room { next_of gates.old + length cover.now.rows * (cover.now.width + 1) ≤ 2147483648 }
    ensures grows { OnOk result (Grows (length cover.now.rows * (cover.now.width + 1)) gates.old gates.new) }
    ensures count { OnOk result (length gates.new.list ≡ length gates.old.list + cover_gates cover.now) }
    ensures below { IfOk result (λ r. r.variable < next_of gates.new) }
    ensures value { IfOk result (λ r. (values : ℕ → Bool) → values 0 ≡ false → AreMet values gates.new.list → literal_value values r ≡ cover_value cover.now (map (literal_value values) pins.now)) }
{
    let literal = rows_literal(gates, cover, pins)?;
    if cover.is_on() {
        Ok(literal)
    } else {
        Ok(negated(literal))
    }
}
