//! The distinct names of a template, in the order of first use.

ghost use Rattle.std.specs.Prelude.{◌≡◌, ◌+◌, ◌<◌, ◌^◌, ◌++◌, [], ◌∷◌, List, None, Some, false, length, map, slice_index, take, IfOk, IfSome, OnErr, OnOk};
ghost use Rattle.std.proofs.Props.{props};
ghost use Rattle.std.specs.List.{All};
ghost use Rattle.subst_language.specs.Parts.Span.{IsSpan, span_bytes};
ghost use Rattle.subst_indexed.specs.Names.{AddsName, AllNamed, AreDistinct, AreMarked, HasNumbers, KeepsNumbers, bucket_of, name_bytes, uses_of};
ghost use Rattle.subst_indexed.specs.Numbering.{number_of, with_use};
ghost use Rattle.subst_indexed.specs.Template.{use_cell};

use crate::cell::{Cell, NAME};
use crate::number_map::{NumberMap, insert, map_of, number_in};
use std::alloc::{AllocError, Global};
use subst_language::Span;

/// The initial capacity of the list of names, so that the lists of most templates are allocated once.
const FIRST_NAMES: usize = 16;

/// A name, with the byte offset of its first use in the source.
#[derive(Clone, Copy)]
pub(crate) struct Name<'s> {
    pub start: u32,
    pub bytes: &'s [u8],
}

impl<'s> Name<'s> {
    ghost use Rattle.subst_indexed.specs.Names.{use_of};

    /// Returns the cell that keeps the first use of the name.
    fn to_cell(self) -> Cell
        requires { self.start + length self.bytes.now < 2 ^ 32 }
        ensures { result ≡ use_cell (use_of self.entry) }
    {
        Cell {
            kind: NAME,
            first: self.start,
            second: self.start + self.bytes.len() as u32,
            number: 0,
        }
    }
}

/// The highest number of names for which comparing them one after the other is no slower than a map.
const FEW_NAMES: usize = 64;

/// The number of buckets.
const BUCKETS: usize = 64;

/// The distinct names of a template, in the order of first use. The number of a name is its index.
///
/// A lookup takes the name's bucket: 0 if the list has no name of the bucket, else 1 more than the index of
/// one of them. If that is another name, the name is looked up in a map. If the names are few, there is no
/// map, and the names are compared one after the other.
#[derive(Drop)]
pub(crate) struct Names<'s> {
    pub list: Vec<Name<'s>>,
    numbers: Option<NumberMap<'s>>,
    buckets: [u32; BUCKETS],
    ghost distinct: { AreDistinct (name_bytes list.items) },
    ghost marked: { AreMarked (name_bytes list.items) buckets },
    ghost numbered: { IfSome numbers (λ map. HasNumbers map (name_bytes list.items)) } by { Prim.hlevel props },
}

impl<'s> Names<'s> {
    /// Creates an empty list.
    ///
    /// # Errors
    ///
    /// If allocation fails.
    pub fn new(alloc: Global) -> Result<Self, AllocError>
        ensures { IfOk result (λ names. names.list.items ≡ []) }
    {
        let list = Vec::with_capacity(alloc, FIRST_NAMES)?;
        Ok(Names {
            list,
            numbers: None,
            buckets: [0; BUCKETS],
        })
    }

    /// Returns the number of the name in the span of the source. Adds the name if it is new.
    ///
    /// # Errors
    ///
    /// If allocation fails. The names are then unchanged.
    pub fn number(&mut self, source: &'s [u8], span: Span) -> Result<u32, AllocError>
        requires inside { IsSpan source.now span }
        requires fits { span.start < 2 ^ 32 }
        requires named { AllNamed source.now self.old.list.items }
        ensures number { IfOk result (λ number.
            number_of (name_bytes self.new.list.items) (span_bytes span source.now) ≡ Some number) }
        ensures keeps { OnOk result
            (KeepsNumbers (name_bytes self.old.list.items) (name_bytes self.new.list.items)) }
        ensures uses { OnOk result (uses_of self.new.list.items
            ≡ with_use (uses_of self.old.list.items)
            (record { position = span.start; name = span_bytes span source.now })) }
        ensures front { take (length self.old.list.items) self.new.list.items
            ≡ self.old.list.items }
        ensures named { AllNamed source.now self.new.list.items }
        ensures err { OnErr result (self.new.list.items ≡ self.old.list.items) }
    {
        let bytes = &source[span.start..span.end];
        let bucket = bucket_of(bytes);
        match self.find(bytes, bucket) {
            Some(index) => {
                let number = index_as_u32(index)?;
                self.buckets[bucket] = number.saturating_add(1);
                Ok(number)
            }
            None => self.add(span.start as u32, bytes, bucket),
        }
    }

    /// Returns the index of a name, which is in this bucket, or `None` if it is new.
    #[inline(always)]
    fn find(&self, bytes: &[u8], bucket: usize) -> Option<usize>
        requires { bucket ≡ bucket_of bytes.now }
        ensures { result ≡ number_of (name_bytes self.now.list.items) bytes.now }
    {
        let recent = self.buckets[bucket] as usize;
        if recent == 0 {
            return None;
        }
        if let Some(name) = self.list.get(recent - 1) {
            if name.bytes == bytes {
                return Some(recent - 1);
            }
        }
        self.search(bytes)
    }

    /// Returns the index of a name, or `None` if it is new. Looks it up in the map, or, if there is none,
    /// compares the names one after the other.
    #[inline(never)]
    fn search(&self, bytes: &[u8]) -> Option<usize>
        ensures { result ≡ number_of (name_bytes self.now.list.items) bytes.now }
    {
        match &self.numbers {
            Some(map) => number_in(map, bytes),
            None => find(&self.list, bytes),
        }
    }

    /// Adds a new name, which is in this bucket, and returns its number.
    ///
    /// # Errors
    ///
    /// If allocation fails. The names are then unchanged.
    fn add(&mut self, start: u32, bytes: &'s [u8], bucket: usize) -> Result<u32, AllocError>
        requires bucket { bucket ≡ bucket_of bytes.now }
        requires new { number_of (name_bytes self.old.list.items) bytes.now ≡ None }
        ensures ok { IfOk result (λ number. (number ≡ length self.old.list.items)
            × AddsName start bytes.now self.old.list.items self.new.list.items) }
        ensures err { OnErr result (self.new.list.items ≡ self.old.list.items) }
    {
        if self.needs_map() {
            return self.add_to_map(start, bytes, bucket);
        }
        let number = index_as_u32(self.list.len())?;
        self.buckets[bucket] = number.saturating_add(1);
        self.list.push(Name { start, bytes })?;
        Ok(number)
    }

    /// Returns whether there is a map, or a new name needs one.
    #[inline(always)]
    fn needs_map(&self) -> bool
        ensures { result ≡ false → self.now.numbers ≡ None }
    {
        self.numbers.is_some() || self.list.len() >= FEW_NAMES
    }

    /// Adds a new name, which is in this bucket, to the list and to the map, and returns its number.
    ///
    /// # Errors
    ///
    /// If allocation fails. The names are then unchanged, but may have no map.
    #[inline(never)]
    fn add_to_map(&mut self, start: u32, bytes: &'s [u8], bucket: usize) -> Result<u32, AllocError>
        requires bucket { bucket ≡ bucket_of bytes.now }
        requires new { number_of (name_bytes self.old.list.items) bytes.now ≡ None }
        ensures ok { IfOk result (λ number. (number ≡ length self.old.list.items)
            × AddsName start bytes.now self.old.list.items self.new.list.items) }
        ensures err { OnErr result (self.new.list.items ≡ self.old.list.items) }
    {
        let number = index_as_u32(self.list.len())?;
        let mut map = self.take_map()?;
        insert(&mut map, bytes, number)?;
        self.buckets[bucket] = number.saturating_add(1);
        self.list.push(Name { start, bytes })?;
        self.numbers = Some(map);
        Ok(number)
    }

    /// Takes the map of the names, or creates it if there is none.
    ///
    /// # Errors
    ///
    /// If allocation fails.
    fn take_map(&mut self) -> Result<NumberMap<'s>, AllocError>
        ensures list { self.new.list.items ≡ self.old.list.items }
        ensures buckets { self.new.buckets ≡ self.old.buckets }
        ensures numbers { IfOk result
            (λ map. HasNumbers map (name_bytes self.old.list.items)) }
    {
        match self.numbers.take() {
            Some(map) => Ok(map),
            None => map_of(*self.list.allocator(), &self.list),
        }
    }

    /// Appends the cells that keep the first uses of the names.
    ///
    /// # Errors
    ///
    /// If allocation fails. Some of the cells may be appended then.
    pub fn append_to(&self, cells: &mut Vec<Cell>) -> Result<(), AllocError>
        requires { All (λ name. name.start + length name.bytes.now < 2 ^ 32) self.now.list.items }
        ensures { OnOk result (cells.new.items
            ≡ cells.old.items ++ map use_cell (uses_of self.now.list.items)) }
    {
        for name in &self.list {
            cells.push(name.to_cell())?;
        }
        Ok(())
    }

    /// Removes all names but the first `len`. The map is removed too, and is created again when a name needs
    /// it.
    #[cold]
    pub fn truncate(&mut self, len: usize)
        ensures { self.new.list.items ≡ take len self.old.list.items }
    {
        self.numbers = None;
        self.list.truncate(len);
    }
}

/// Converts an index into a `u32`.
///
/// # Errors
///
/// If the index is too large, as if allocation had failed.
pub(crate) fn index_as_u32(index: usize) -> Result<u32, AllocError>
    ensures { IfOk result (λ number. number ≡ index) }
{
    u32::try_from(index).map_err(|_| AllocError)
}

/// Returns the bucket of a name.
#[inline(always)]
fn bucket_of(name: &[u8]) -> usize
    ensures bucket { result ≡ bucket_of name.now }
    ensures bound { result < 64 }
{
    let len = name.len();
    let first = usize::from(byte_at(name, 0));
    let before_last = usize::from(byte_at(name, len.saturating_sub(2)));
    let last = usize::from(byte_at(name, len.saturating_sub(1)));
    (len + first + 5 * before_last + 11 * last) % BUCKETS
}

/// Returns the byte at an index, or 0 past the end.
#[inline(always)]
fn byte_at(bytes: &[u8], index: usize) -> u8
    ensures { result ≡ slice_index bytes.now index }
{
    match bytes.get(index) {
        Some(byte) => *byte,
        None => 0,
    }
}

/// Returns the index of the first of the names with these bytes, or `None` if there is none.
fn find(names: &[Name], bytes: &[u8]) -> Option<usize>
    ensures { result ≡ number_of (name_bytes names.now) bytes.now }
{
    for (index, name) in names.iter().enumerate() {
        if name.bytes == bytes {
            return Some(index);
        }
    }
    None
}
