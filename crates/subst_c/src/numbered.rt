//! Templates that are expanded with rows of pairs.

ghost use Rattle.std.specs.Prelude.{◌≡◌, ◌++◌, ℕ, List, IfErr, IfOk, IfSome, OnOk};
ghost use Rattle.subst_error.specs.ErrorFault.{expand_fault};
ghost use Rattle.subst_language.specs.Language.Answer.{Answers, Gives, Refuses};
ghost use Rattle.subst_language.specs.Language.Sentence.{ByTree, IsSentence};
ghost use Rattle.subst_c.specs.Pairs.{pair_value};
ghost use Rattle.subst_c.specs.RowValues.{bytes_of, names_at};

use crate::pairs::Pair;
use crate::row_values::{Names, RowValues};
use std::alloc::{AllocError, Global};
use subst_error::ExpandError;
use subst_indexed::IndexedTemplate;
use subst_indexed::expand::expand;

/// A template, with its names by number.
#[derive(Drop)]
pub struct NumberedTemplate<'s> {
    pub template: IndexedTemplate<'s>,
    names: Names<'s>,
    ghost named: { ByTree template (λ t. bytes_of names.list.items ≡ names_at t) },
}

impl<'s> NumberedTemplate<'s> {
    /// Reads the names of a template.
    ///
    /// # Errors
    ///
    /// If allocation fails.
    pub fn new(alloc: Global, template: IndexedTemplate<'s>) -> Result<Self, AllocError>
        requires { IsSentence template }
        ensures { IfOk result (λ numbered. numbered.template ≡ template.entry) }
    {
        let names = Names::new(alloc, &template)?;
        Ok(NumberedTemplate { template, names })
    }

    /// Appends the output of the template with a row of pairs.
    ///
    /// # Errors
    ///
    /// `NoSuchVariable` for the first needed name without a value, and `OutOfMemory` if allocation fails.
    pub fn append<'r>(
        &self,
        alloc: Global,
        pairs: &[Pair<'r>],
        row: &mut RowValues<'r>,
        output: &mut Vec<u8>,
    ) -> Result<(), ExpandError>
        ensures ok { OnOk result ((x : List ℕ)
            × Answers self.now.template (pair_value pairs.now) (Gives x)
            × (output.new.items ≡ output.old.items ++ x)) }
        ensures err { IfErr result (λ e. IfSome (expand_fault e)
            (λ f. Answers self.now.template (pair_value pairs.now) (Refuses f))) }
    {
        self.names.find_values(pairs, row)?;
        let template = &self.template;
        match expand(template.cells(), template.source(), &row.values, output) {
            Ok(()) => Ok(()),
            Err(_) => {
                // Expands anew for an error that owns the name of a missing variable.
                let bytes = template.expand(alloc, &row.values)?;
                output.extend_from_slice(&bytes)?;
                Ok(())
            }
        }
    }
}
