//! The choice of the names that are variables.

ghost use Rattle.std.specs.Prelude.{◌≡◌, ◌↔◌, ◌++◌, ◌∷◌, ℕ, Bool, List, IfOk, IfSome, IfNone, IsTrue, []};
ghost use Rattle.subst_language.specs.Language.Name.{IsName};
ghost use Rattle.subst_foreign.specs.Foreign.{IsListed};

use std::alloc::{AllocError, Global};
use std::collections::BTreeSet;
use subst_language::VariableMap;

/// A choice of the names that are variables. Implementations define two ghost members. `all` states whether
/// every name is chosen. `counts` states which names are chosen if an operator follows them, and which are
/// chosen if none does.
pub trait Names {
    ghost all: { Self → Bool };

    ghost counts: { Self → Bool → List ℕ → Type 0 };

    /// Returns whether every name is chosen.
    fn are_all(&self) -> bool
        ensures every { result ≡ all self.now };

    /// Returns whether a name is chosen, given whether an operator follows it.
    fn has(&self, name: &[u8], operated: bool) -> bool
        requires named { IsName name.now }
        ensures chosen { IsTrue result ↔ counts self.now operated name.now };
}

/// The choice of all names.
#[derive(Clone, Copy)]
pub struct AllNames;

impl Names for AllNames {
    ghost use Rattle.std.specs.Prelude.{true};

    ghost all = { λ names. true };

    ghost counts = { λ names operated name. Unit {0} };

    fn are_all(&self) -> bool {
        true
    }

    fn has(&self, _name: &[u8], _operated: bool) -> bool {
        true
    }
}

/// A choice of listed names: a set that is built once and used for many texts.
#[derive(Drop)]
pub struct OnlyNames<'a> {
    names: BTreeSet<&'a [u8]>,
}

impl<'a> OnlyNames<'a> {
    /// Builds the set of the listed names.
    ///
    /// # Errors
    ///
    /// If allocation fails.
    pub fn new(alloc: Global, names: &[&'a str]) -> Result<OnlyNames<'a>, AllocError>
        ensures listed { IfOk result (λ only. (operated : Bool) (name : List ℕ)
            → (⟦<OnlyNames<'a> as Names>⟧.counts only operated name ↔ IsListed names.now name)) }
    {
        let mut set = BTreeSet::new(alloc);
        for name in names {
            set.insert(name.as_bytes())?;
        }
        Ok(OnlyNames { names: set })
    }
}

impl Names for OnlyNames<'_> {
    ghost use Rattle.std.specs.Prelude.{false};
    ghost use Rattle.subst_foreign.specs.Foreign.{IsListed};

    ghost all = { λ only. false };

    ghost counts = { λ only operated. IsListed only.names.keys };

    fn are_all(&self) -> bool {
        false
    }

    fn has(&self, name: &[u8], _operated: bool) -> bool {
        self.names.contains(name)
    }
}

/// The choice of the names that a map has a value for. Before an operator, every name is chosen.
#[derive_where(Clone, Copy)]
pub struct KnownNames<'a, M> {
    pub map: &'a M,
}

impl<'a, M: VariableMap<'a>> Names for KnownNames<'a, M>
where
    M::Value: Drop,
{
    ghost use Rattle.std.specs.Prelude.{false};
    ghost use Rattle.subst_foreign.specs.Foreign.{IsKnown};

    ghost all = { λ known. false };

    ghost counts = { λ known. IsKnown (M.look_up known.map.now) };

    fn are_all(&self) -> bool {
        false
    }

    fn has(&self, name: &[u8], operated: bool) -> bool {
        if operated {
            return true;
        }
        match str::from_utf8(name) {
            Ok(name) => self.map.get(name).is_some(),
            Err(_) => false,
        }
    }
}
