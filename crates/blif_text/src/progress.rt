//! The models so far, and the open one.
ghost use Rattle.std.specs.Prelude.{◌≡◌, ◌++◌, ◌∷◌, [], ◌==◌, List, ℕ, Some, None, true, map, OnOk, IfOk, length};
ghost use Rattle.blif_text.specs.Private.Answers.{Answers, plain};
ghost use Rattle.blif_text.specs.Private.Progress.{nothing, with_model, kind_in, after, all_models, ended};
ghost use Rattle.blif_text.specs.Kind.{model_kind};
ghost use Rattle.blif_text.specs.Text.{statement, statement_by};
ghost use Rattle.blif_text.specs.Word.{is_inner};
ghost use Rattle.blif_text.specs.declared.statements.word.Word.TheVariants.{End};
ghost use Rattle.blif_text.specs.Views.{plain_model};

mod model;

use crate::fault::{Refusal, TextKind};
use crate::library::BlifModel;
use crate::progress::model::OpenModel;
use crate::statements::name_lists::read_name;
use crate::statements::word::{Word, word_of};
use indexmap::IndexSet;
use std::alloc::{AllocError, Global};
use std::marker::Model;
use std::mem::replace;
use table_cover::Covers;
use tmr_base::Name;

#[derive(Drop)]
pub(crate) struct Progress {
    models: Vec<BlifModel>,
    names: IndexSet<Name>,
    open_model: Option<OpenModel>,
    covers: Covers,
}

impl Model for Progress {
    ghost use Rattle.std.specs.Prelude.{map};
    ghost use Rattle.blif_text.specs.Private.Progress.{Progress};
    ghost use Rattle.blif_text.specs.Views.{plain_model};

    ghost Value = { Progress };

    ghost view = { λ p. record { models = map plain_model p.models.items; names = p.names.keys; open_model = p.open_model } };
}

/// Ends a model, if there is one.
fn end_open(
    alloc: Global,
    models: &mut Vec<BlifModel>,
    open_model: Option<OpenModel>,
    covers: &mut Covers,
) -> Result<(), AllocError>
    ensures { OnOk result (map plain_model models.new.items ≡ map plain_model models.old.items ++ ended open_model) }
{
    match open_model {
        Some(model) => Ok(models.push(model.ended(alloc, covers)?)?),
        None => Ok(()),
    }
}

/// Adds the name of a model, unless there is one of this name.
#[tactic(auto, unfolding(crate::specs::Kind::model_kind))]
fn list_model(alloc: Global, names: &mut IndexSet<Name>, token: &[u8]) -> Result<Name, Refusal>
    ensures { Answers result (model_kind names.old.keys (token.now ∷ []))
        (λ name. (name ≡ token.now) × (names.new.keys ≡ names.old.keys ++ token.now ∷ [])) }
{
    let name = read_name(alloc, token)?;
    let listed = name.copy(alloc)?;
    if names.insert(listed)? {
        Ok(name)
    } else {
        Err(Refusal::Bad(TextKind::DuplicateModel))
    }
}

impl Progress {
    pub fn new(alloc: Global) -> Progress
        ensures { result ≡ nothing }
    {
        Progress {
            models: Vec::new(alloc),
            names: IndexSet::new(alloc),
            open_model: None,
            covers: Covers::new(alloc),
        }
    }

    pub fn is_empty(&self) -> bool
        ensures { result ≡ (length self.now.names == 0) }
    {
        self.names.is_empty()
    }

    /// Ends the open model, if there is one.
    fn end_model(&mut self, alloc: Global) -> Result<(), AllocError>
        ensures { OnOk result (self.new ≡ record { models = all_models self.old; names = self.old.names; open_model = None }) }
    {
        let open_model = self.open_model.take();
        end_open(alloc, &mut self.models, open_model, &mut self.covers)
    }

    /// Begins the model that the tokens after `.model` name.
    #[tactic(auto, unfolding(crate::specs::Kind::model_kind))]
    fn begin_model(&mut self, alloc: Global, tokens: &[&[u8]]) -> Result<(), Refusal>
        ensures { Answers result (model_kind self.old.names (plain tokens.now)) (λ _. self.new ≡ with_model self.old (plain tokens.now)) }
    {
        match tokens {
            [token] => self.begin_named(alloc, token),
            _ => Err(Refusal::Bad(TextKind::Arguments)),
        }
    }

    fn begin_named(&mut self, alloc: Global, token: &[u8]) -> Result<(), Refusal>
        ensures { Answers result (model_kind self.old.names (token.now ∷ [])) (λ _. self.new ≡ with_model self.old (token.now ∷ [])) }
    {
        match list_model(alloc, &mut self.names, token) {
            Ok(name) => {
                let open_model = self.open_model.replace(OpenModel::new(alloc, name));
                Ok(end_open(alloc, &mut self.models, open_model, &mut self.covers)?)
            }
            Err(refusal) => Err(refusal),
        }
    }

    /// Takes an `.end`.
    #[tactic(auto, unfolding(crate::specs::Kind::kind_at))]
    fn take_end(&mut self, alloc: Global, tokens: &[&[u8]]) -> Result<(), Refusal>
        ensures { (line : ℕ) (first : List ℕ) → Answers result (kind_in self.old (statement_by line End first (plain tokens.now)))
            (λ _. self.new ≡ after self.old (statement_by line End first (plain tokens.now))) }
    {
        if self.open_model.is_none() {
            return Err(Refusal::Bad(TextKind::NoModel));
        }
        if !tokens.is_empty() {
            return Err(Refusal::Bad(TextKind::Arguments));
        }
        Ok(self.end_model(alloc)?)
    }

    /// Takes a statement that neither begins nor ends a model.
    #[tactic(auto, unfolding(crate::specs::Kind::kind_at))]
    fn take_inner(
        &mut self,
        alloc: Global,
        word: Word,
        first: &[u8],
        arguments: &[&[u8]],
    ) -> Result<(), Refusal>
        requires inner { is_inner word ≡ true }
        ensures { (line : ℕ) → Answers result (kind_in self.old (statement_by line word first.now (plain arguments.now)))
            (λ _. self.new ≡ after self.old (statement_by line word first.now (plain arguments.now))) }
    {
        match &mut self.open_model {
            Some(model) => model.take(alloc, &mut self.covers, word, first, arguments),
            None => Err(Refusal::Bad(TextKind::NoModel)),
        }
    }

    /// Takes a statement.
    #[tactic(auto, unfolding(crate::specs::Kind::kind_at))]
    pub fn take(&mut self, alloc: Global, first: &[u8], arguments: &[&[u8]]) -> Result<(), Refusal>
        ensures { (line : ℕ) → Answers result (kind_in self.old (statement line first.now (plain arguments.now)))
            (λ _. self.new ≡ after self.old (statement line first.now (plain arguments.now))) }
    {
        match word_of(first) {
            Word::Model => self.begin_model(alloc, arguments),
            Word::End => self.take_end(alloc, arguments),
            word => self.take_inner(alloc, word, first, arguments),
        }
    }

    /// All models, where no more statements come.
    pub fn ended(&mut self, alloc: Global) -> Result<Vec<BlifModel>, AllocError>
        ensures { IfOk result (λ models. map plain_model models.items ≡ all_models self.old) }
    {
        self.end_model(alloc)?;
        Ok(replace(&mut self.models, Vec::new(alloc)))
    }
}
