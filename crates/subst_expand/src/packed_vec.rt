//! The list to which the parser appends packed parts, generic in the type of their offsets and indexes.
//! Contracts see it as the list of its unpacked parts.

ghost use Rattle.std.specs.Prelude.{◌≡◌, ◌<◌, ◌^◌, [], ◌∷◌, ◌++◌, length, slice_set, IfOk, OnErr, OnOk};
ghost use Rattle.subst_language.specs.Parts.Sink.{FitsBelow};
ghost use Rattle.subst_expand.specs.Packed.{unpacked_parts};

use crate::packed_part::{Offset, PackedPart};
use std::alloc::{AllocError, Global};
use std::marker::Model;
use subst_language::{Part, Sink, Span};

/// A growable list of packed parts, with offsets and indexes of type `O`. Contracts see it as the list of its
/// unpacked parts.
#[derive(Drop)]
pub struct PackedVec<O: Offset> {
    list: Vec<PackedPart<O>>,
}

impl<O: Offset> Model for PackedVec<O> {
    ghost use Rattle.std.specs.Prelude.{List};
    ghost use Rattle.subst_language.specs.declared.part.Part.{Part};

    ghost Value = { List Part };

    ghost use Rattle.subst_expand.specs.Packed.{unpacked_parts};

    ghost view = { λ parts. unpacked_parts O.value parts.list.items };
}

impl<O: Offset> PackedVec<O> {
    /// Creates an empty list.
    pub fn new(alloc: Global) -> Self
        ensures { result ≡ [] }
    {
        PackedVec {
            list: Vec::new(alloc),
        }
    }

    /// Copies a slice of packed parts into a list.
    pub(crate) fn from_slice(alloc: Global, parts: &[PackedPart<O>]) -> Result<Self, AllocError>
        ensures { IfOk result (λ list. list ≡ unpacked_parts O.value parts.now) }
    {
        let list = Vec::from_slice(alloc, parts)?;
        Ok(PackedVec { list })
    }

    /// Borrows the packed parts.
    pub(crate) fn as_slice(&self) -> &[PackedPart<O>]
        ensures { unpacked_parts O.value result.now ≡ self.now }
    {
        &self.list
    }

    /// Returns the number of parts.
    #[inline(always)]
    pub fn len(&self) -> usize
        ensures len { result ≡ length self.now }
        ensures small { result < 2 ^ 63 }
    {
        self.list.len()
    }

    /// Reserves capacity for `additional` more parts.
    pub fn reserve(&mut self, additional: usize) -> Result<(), AllocError>
        ensures { self.new ≡ self.old }
    {
        self.list.reserve(additional)
    }

    /// Appends a part.
    #[inline(always)]
    pub fn push(&mut self, part: Part) -> Result<(), AllocError>
        requires { FitsBelow O.limit part }
        ensures pushed { OnOk result (self.new ≡ self.old ++ part ∷ []) }
        ensures kept { OnErr result (self.new ≡ self.old) }
    {
        self.list.push(PackedPart::pack(part))?;
        Ok(())
    }

    /// Replaces the part at an index.
    #[tactic(auto, using(crate::proofs::PackedLemmas::set_unpacked))]
    pub fn set(&mut self, index: usize, part: Part)
        requires inside { index < length self.old }
        requires fits { FitsBelow O.limit part }
        ensures { self.new ≡ slice_set self.old index part }
    {
        self.list[index] = PackedPart::pack(part);
    }
}

impl<O: Offset> Sink for PackedVec<O> {
    ghost use Rattle.std.specs.Prelude.{◌≡◌};

    ghost First = { Unit {0} };

    ghost holds = { λ list _ parts. list ≡ parts };

    ghost source = { λ _ _. Unit {0} };

    ghost limit = { O.limit };

    ghost asks = { Unit {0} };

    #[inline(always)]
    fn take(&mut self, part: Part) -> Result<(), AllocError> {
        self.push(part)
    }

    #[inline(always)]
    fn take_optional(&mut self, name: Span) -> Result<(), AllocError> {
        let next = self.len() + 1;
        self.push(Part::Default { name, next })
    }

    #[inline(always)]
    fn open(&mut self, name: Span) -> Result<usize, AllocError> {
        let index = self.len();
        self.push(Part::Default { name, next: 0 })?;
        Ok(index)
    }

    #[inline(always)]
    fn close(&mut self, index: usize, name: Span) {
        let next = self.len();
        self.set(index, Part::Default { name, next });
    }
}

impl<O: Offset> Clone for PackedVec<O> {
    ghost is_clone = { λ parts copy. copy ≡ parts };

    fn clone(&self) -> Result<PackedVec<O>, AllocError> {
        PackedVec::from_slice(*self.list.allocator(), &self.list)
    }
}
