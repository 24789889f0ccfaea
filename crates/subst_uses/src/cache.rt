//! A cache of a template's output. The output is reused until a variable of the template changes.

ghost use Rattle.std.specs.Prelude.{◌≡◌, ◌↔◌, IsTrue, IfOk, OnErr};
ghost use Rattle.std.specs.List.{All};
ghost use Rattle.subst.specs.Language.Sentence.{ByTree};
ghost use Rattle.subst.specs.Language.Value.{value};
ghost use Rattle.subst.specs.Calls.Outcome.{Expands};
ghost use Rattle.subst_uses.specs.CommandLine.{texts_of};

use std::alloc::Global;
use std::collections::BTreeMap;
use std::marker::Model;
use subst::error::ExpandError;
use subst::{ByteTemplate, Variable, laws};

/// A template and its latest output. Contracts see a `Cached` as this pair.
#[derive(Drop)]
pub struct Cached<'t> {
    template: ByteTemplate<'t>,
    /// The variables of the template.
    needed: Vec<Variable<'t>>,
    /// The variables with which the template was expanded to `output`.
    variables: BTreeMap<String, String>,
    output: Vec<u8>,
}

impl<'t> Model for Cached<'t> {
    ghost use Rattle.std.specs.Prelude.{◌≡◌, ℕ, List, map};
    ghost use Rattle.subst.specs.Language.Sentence.{ByTree};
    ghost use Rattle.subst.specs.Language.Value.{Bytes, value};
    ghost use Rattle.subst.specs.Language.Variables.{variables_of};
    ghost use Rattle.subst.specs.Calls.Variables.{variable_of};
    ghost use Rattle.subst_uses.specs.CommandLine.{texts_of};

    ghost Value = { List ℕ × List ℕ };

    ghost view = { λ c. (c.template, c.output.items) };

    ghost invariant = { λ c. ByTree c.template (λ t.
        (map variable_of c.needed.items ≡ variables_of 0 t)
        × (value 0 t (texts_of c.variables) ≡ Bytes c.output.items)) };
}

impl<'t> Cached<'t> {
    /// Creates a cache, with a first expansion of the template.
    ///
    /// # Errors
    ///
    /// As `expand`.
    pub fn new(
        alloc: Global,
        template: ByteTemplate<'t>,
        variables: BTreeMap<String, String>,
    ) -> Result<Self, ExpandError>
        ensures template { IfOk result (λ cached. cached.0 ≡ template.entry) }
        ensures value { ByTree template.entry (λ t.
            Expands (λ cached. cached.1) result (value 0 t (texts_of variables))) }
    {
        let needed = template.variables(alloc)?;
        let output = template.expand(alloc, &variables)?;
        Ok(Cached {
            template,
            needed,
            variables,
            output,
        })
    }

    /// Returns the latest output.
    pub fn output(&self) -> &[u8]
        ensures { result.now ≡ self.now.1 }
    {
        &self.output
    }

    /// Expands the template with `variables`. Reuses the latest output if no variable of the template has
    /// changed since that output. Variables in defaults are compared too.
    ///
    /// # Errors
    ///
    /// As `expand`. The output is then unchanged.
    pub fn fill(
        &mut self,
        alloc: Global,
        variables: BTreeMap<String, String>,
    ) -> Result<(), ExpandError>
        ensures value { ByTree self.old.0 (λ t.
            Expands (λ _. self.new.1) result (value 0 t (texts_of variables))) }
        ensures template { self.new.0 ≡ self.old.0 }
        ensures kept { OnErr result (self.new ≡ self.old) }
    {
        laws::law_4();
        laws::missing_lists_are_whole();
        if agree(&self.needed, &self.variables, &variables) {
            return Ok(());
        }
        self.output = self.template.expand(alloc, &variables)?;
        self.variables = variables;
        Ok(())
    }
}

/// Returns whether two maps agree on each of the variables: equal values, or unset in both.
fn agree(variables: &[Variable], a: &BTreeMap<String, String>, b: &BTreeMap<String, String>) -> bool
    ensures { IsTrue result
        ↔ All (λ v. texts_of a.now v.name.now ≡ texts_of b.now v.name.now) variables.now }
{
    for variable in variables {
        if !has_same(variable.name, a, b) {
            return false;
        }
    }
    true
}

/// Returns whether a name has the same value in two maps, or is unset in both.
fn has_same(name: &str, a: &BTreeMap<String, String>, b: &BTreeMap<String, String>) -> bool
    ensures { IsTrue result ↔ (texts_of a.now name.now ≡ texts_of b.now name.now) }
{
    match (a.get(name), b.get(name)) {
        (Some(x), Some(y)) => x.as_str() == y.as_str(),
        (None, None) => true,
        _ => false,
    }
}
