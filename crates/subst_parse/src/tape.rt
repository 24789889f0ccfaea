//! The functions by which the parser sees the source: the byte at an offset, three searches, and the
//! character at an offset. The contract of each of these functions states the number of reads, and the result
//! in terms of the rest of the source.

ghost use Rattle.std.specs.Prelude.{◌≡◌, ◌+◌, ◌-◌, ◌<◌, ◌≤◌, [], ◌∷◌, length, drop, min, IsSome, IsTrue, ◌↔◌, MatchOption};
ghost use Rattle.subst_language.specs.Language.Bytes.{IsPlain};
ghost use Rattle.subst_language.specs.Language.Name.{IsNameByte, BeginsWithNo};
ghost use Rattle.subst_language.specs.Language.Character.{IsFrontCharacter};
ghost use Rattle.subst_parse.specs.ByteRun.{IsRun};
ghost use Rattle.subst_parse.specs.Cost.{FindsEnd};
ghost use Rattle.subst_parse.specs.Inner.{IsInner};

use crate::byte_class::{ByteClass, InnerBytes, NameBytes, PlainBytes};
use crate::character::front_character;
use crate::reads::Reads;
use crate::search::{SearchedClass, rest};
use subst_error::CharOrByte;

/// A source that is read or searched, with the counter of its reads. The parser has no other access to the
/// source and no other counter, so each byte that it looks at is counted.
#[derive(Drop)]
pub(crate) struct Tape<'s> {
    source: &'s [u8],
    reads: Reads,
}

impl<'s> Tape<'s> {
    pub fn new(source: &'s [u8], reads: Reads) -> Self
        ensures source { result.source.now ≡ source.now }
        ensures reads { result.reads ≡ reads }
    {
        Tape { source, reads }
    }

    /// Returns the counter of reads.
    pub fn into_reads(self) -> Reads
        ensures { result ≡ self.entry.reads }
    {
        let Tape { reads, .. } = self;
        reads
    }

    /// Returns whether there is a byte at `at`. Reads nothing.
    #[inline(always)]
    pub fn has(&self, at: usize) -> bool
        ensures { IsTrue result ↔ (at < length self.now.source.now) }
    {
        at < self.source.len()
    }

    /// Returns the byte at `at`, or `None` at the end of the source.
    #[inline(always)]
    pub fn byte_at(&mut self, at: usize) -> Option<u8>
        ensures byte { MatchOption result (drop at self.old.source.now ≡ [])
            (λ b. drop at self.old.source.now ≡ b ∷ drop (at + 1) self.old.source.now) }
        ensures within { IsSome result → at < length self.old.source.now }
        ensures same { self.new.source ≡ self.old.source }
        ensures cost { self.new.reads ≡ self.old.reads + 1 }
    {
        self.reads.add(1);
        self.source.get(at).copied()
    }

    /// Returns the offset of the first `$` or `\` from `from` on, or the end of the source.
    #[inline(always)]
    pub fn find_special(&mut self, from: usize) -> usize
        requires { from < length self.old.source.now }
        ensures { FindsEnd IsPlain self.old from result self.new }
    {
        self.find_outside::<PlainBytes>(from)
    }

    /// Returns the offset of the first byte from `from` on that is no name byte, or the end of the source.
    #[inline(always)]
    pub fn name_end(&mut self, from: usize) -> usize
        requires { from ≤ length self.old.source.now }
        ensures { FindsEnd IsNameByte self.old from result self.new }
    {
        self.first_outside::<NameBytes>(from)
    }

    /// Returns the offset of the first `\`, `$` or brace from `from` on, or the end of the source.
    #[inline(always)]
    pub fn find_inner(&mut self, from: usize) -> usize
        requires { from < length self.old.source.now }
        ensures { FindsEnd IsInner self.old from result self.new }
    {
        self.find_outside::<InnerBytes>(from)
    }

    /// Returns the offset of the first byte from `from` on that isn't in the class, or the end of the source.
    /// After an escape or a placeholder, that byte is often one of the first two, so those are tested first.
    #[inline(always)]
    fn find_outside<C: SearchedClass>(&mut self, from: usize) -> usize
        requires { from < length self.old.source.now }
        ensures { FindsEnd C.is_in self.old from result self.new }
    {
        if !self.is_at::<C>(from) {
            return from;
        }
        let next = from + 1;
        if !self.has(next) || !self.is_at::<C>(next) {
            return next;
        }
        self.search::<C>(next + 1)
    }

    /// Searches for the first byte from `from` on that isn't in the class. Returns its offset, or the
    /// source's end.
    #[inline(never)]
    fn search<C: SearchedClass>(&mut self, from: usize) -> usize
        requires { from ≤ length self.old.source.now }
        ensures { FindsEnd C.is_in self.old from result self.new }
    {
        let end = C::find_outside(self.source, from);
        self.reads.add((end + 1).min(self.source.len()) - from);
        end
    }

    /// Returns the offset of the first byte from `from` on that isn't in the class, or the end of the source.
    /// The loop tests two bytes a turn to save instructions.
    #[inline(always)]
    fn first_outside<C: ByteClass>(&mut self, from: usize) -> usize
        requires { from ≤ length self.old.source.now }
        ensures { FindsEnd C.is_in self.old from result self.new }
    {
        let mut at = from;
        while self.has(at + 1) {
            if !self.is_at::<C>(at) {
                return at;
            }
            if !self.is_at::<C>(at + 1) {
                return at + 1;
            }
            at += 2;
        }
        if self.has(at) && self.is_at::<C>(at) {
            at += 1;
        }
        at
    }

    /// Returns whether the byte at `at` is in the class.
    #[inline(always)]
    fn is_at<C: ByteClass>(&mut self, at: usize) -> bool
        requires { at < length self.old.source.now }
        ensures run { IsTrue result → IsRun C.is_in self.old.source.now at (at + 1) }
        ensures end { ¬ (IsTrue result) → BeginsWithNo C.is_in (drop at self.old.source.now) }
        ensures same { self.new.source ≡ self.old.source }
        ensures cost { self.new.reads ≡ self.old.reads + 1 }
    {
        self.reads.add(1);
        C::has(self.source[at])
    }

    /// Returns the character at `at`, or the byte there if no character begins at it. Reads up to four bytes.
    #[cold]
    #[inline(never)]
    pub fn character_at(&mut self, at: usize) -> CharOrByte
        requires { at < length self.old.source.now }
        ensures answer { IsFrontCharacter (drop at self.old.source.now) result }
        ensures same { self.new.source ≡ self.old.source }
        ensures cost { self.new.reads ≡ self.old.reads + min 4 (length self.old.source.now - at) }
    {
        let rest = rest(self.source, at);
        self.reads.add(rest.len().min(4));
        front_character(rest)
    }
}
