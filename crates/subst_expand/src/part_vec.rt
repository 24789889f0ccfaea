//! Lists of packed parts: a borrowed list, an owned list, and a list that is borrowed or owned. The offsets
//! and indexes in a list have 32 or 64 bits. Contracts see each list as the list of its parts.

ghost use Rattle.std.specs.Prelude.{◌≡◌, IfOk};

use crate::packed_part::PackedPart;
use crate::packed_vec::PackedVec;
use std::alloc::{AllocError, Global};
use std::marker::Model;

/// A borrowed list of packed parts, narrow or wide.
#[derive(Clone, Copy)]
pub(crate) enum PartSlice<'p> {
    Narrow(&'p [PackedPart<u32>]),
    Wide(&'p [PackedPart<usize>]),
}

/// An owned list of parts. Contracts see it as the list of its parts.
///
/// A part takes 16 bytes if offsets and indexes fit in 32 bits, and 32 bytes otherwise. They fit for a source
/// of less than 4 GiB.
#[derive(Drop)]
pub struct PartVec {
    list: EitherVec,
}

/// The packed parts, with offsets and indexes of 32 bits or of 64.
#[derive(Drop)]
enum EitherVec {
    Narrow(PackedVec<u32>),
    Wide(PackedVec<usize>),
}

impl Model for PartVec {
    ghost use Rattle.std.specs.Prelude.{List};
    ghost use Rattle.subst_language.specs.declared.part.Part.{Part};

    ghost Value = { List Part };

    ghost use Rattle.subst_expand.specs.PartLists.{vec_parts};

    ghost view = { λ parts. vec_parts parts.list };
}

impl PartVec {
    ghost use Rattle.subst_expand.specs.PartLists.{slice_parts};

    /// Copies a borrowed list.
    pub(crate) fn from_slice(alloc: Global, parts: PartSlice<'_>) -> Result<Self, AllocError>
        ensures { IfOk result (λ list. list ≡ slice_parts parts.entry) }
    {
        let list = match parts {
            PartSlice::Narrow(list) => EitherVec::Narrow(PackedVec::from_slice(alloc, list)?),
            PartSlice::Wide(list) => EitherVec::Wide(PackedVec::from_slice(alloc, list)?),
        };
        Ok(PartVec { list })
    }

    /// Borrows the parts.
    pub(crate) fn as_slice(&self) -> PartSlice<'_>
        ensures { slice_parts result ≡ self.now }
    {
        match &self.list {
            EitherVec::Narrow(list) => PartSlice::Narrow(list.as_slice()),
            EitherVec::Wide(list) => PartSlice::Wide(list.as_slice()),
        }
    }
}

impl From<PackedVec<u32>> for PartVec {
    ghost from_gives = { λ packed parts. parts ≡ packed };

    fn from(packed: PackedVec<u32>) -> PartVec {
        PartVec {
            list: EitherVec::Narrow(packed),
        }
    }
}

impl From<PackedVec<usize>> for PartVec {
    ghost from_gives = { λ packed parts. parts ≡ packed };

    fn from(packed: PackedVec<usize>) -> PartVec {
        PartVec {
            list: EitherVec::Wide(packed),
        }
    }
}

impl Clone for PartVec {
    ghost is_clone = { λ parts copy. copy ≡ parts };

    fn clone(&self) -> Result<PartVec, AllocError> {
        let list = match &self.list {
            EitherVec::Narrow(list) => EitherVec::Narrow(list.clone()?),
            EitherVec::Wide(list) => EitherVec::Wide(list.clone()?),
        };
        Ok(PartVec { list })
    }
}

/// A borrowed or owned list of parts. Contracts see it as the list of its parts.
#[derive(Drop)]
pub struct CowParts<'a> {
    list: CowList<'a>,
}

/// The packed parts, borrowed or owned.
#[derive(Drop)]
enum CowList<'a> {
    Borrowed(PartSlice<'a>),
    Owned(PartVec),
}

impl<'a> Model for CowParts<'a> {
    ghost use Rattle.std.specs.Prelude.{List};
    ghost use Rattle.subst_language.specs.declared.part.Part.{Part};

    ghost Value = { List Part };

    ghost use Rattle.subst_expand.specs.PartLists.{cow_parts};

    ghost view = { λ parts. cow_parts parts.list };
}

impl<'a> CowParts<'a> {
    ghost use Rattle.subst_expand.specs.PartLists.{slice_parts};

    /// Borrows an owned list.
    pub fn borrowed(parts: &'a PartVec) -> CowParts<'a>
        ensures { result ≡ parts.now }
    {
        CowParts {
            list: CowList::Borrowed(parts.as_slice()),
        }
    }

    /// Copies the parts into an owned list.
    pub fn to_vec(&self, alloc: Global) -> Result<PartVec, AllocError>
        ensures { IfOk result (λ parts. parts ≡ self.now) }
    {
        PartVec::from_slice(alloc, self.as_slice())
    }

    /// Borrows the parts.
    pub(crate) fn as_slice(&self) -> PartSlice<'_>
        ensures { slice_parts result ≡ self.now }
    {
        match &self.list {
            CowList::Borrowed(parts) => *parts,
            CowList::Owned(parts) => parts.as_slice(),
        }
    }

    /// Converts into an owned list of the same parts. Allocates only if the parts are borrowed.
    pub fn into_vec(self, alloc: Global) -> Result<PartVec, AllocError>
        ensures { IfOk result (λ parts. parts ≡ self.entry) }
    {
        let CowParts { list } = self;
        match list {
            CowList::Borrowed(parts) => PartVec::from_slice(alloc, parts),
            CowList::Owned(parts) => Ok(parts),
        }
    }
}

impl<'a> From<PartVec> for CowParts<'a> {
    ghost from_gives = { λ parts cow. cow ≡ parts };

    fn from(parts: PartVec) -> CowParts<'a> {
        CowParts {
            list: CowList::Owned(parts),
        }
    }
}

impl<'a> Clone for CowParts<'a> {
    ghost is_clone = { λ parts copy. copy ≡ parts };

    fn clone(&self) -> Result<CowParts<'a>, AllocError> {
        let list = match &self.list {
            CowList::Borrowed(parts) => CowList::Borrowed(*parts),
            CowList::Owned(parts) => CowList::Owned(parts.clone()?),
        };
        Ok(CowParts { list })
    }
}
