//! Errors of the calls that append to a caller's buffer. The name of an unset variable is borrowed from the
//! source, so creating an error never allocates.

ghost use Rattle.std.specs.Prelude.{◌≡◌, None, Some, IfSome, IfOk};
ghost use Rattle.subst_error.specs.ErrorFault.{error_fault, expand_fault, expand_into_fault};
ghost use Rattle.subst_error.specs.ErrorFault.{parse_fault, substitute_into_fault};
ghost use Rattle.subst_error.specs.Fault as fault;
ghost use Rattle.subst_error.specs.declared.Error.TheVariants as substituting;
ghost use Rattle.subst_error.specs.declared.borrowed.ExpandIntoError.TheVariants as expanding_into;
ghost use Rattle.subst_error.specs.declared.borrowed.SubstituteIntoError.TheVariants as substituting_into;

use crate::{Error, ExpandError, NoSuchVariable, ParseError};
use std::alloc::{AllocError, Global};

/// An unset variable without a default: a [`NoSuchVariable`] whose name is borrowed from the source.
#[derive(Clone, Copy, Debug, PartialEq, Eq)]
pub struct NoSuchVariableRef<'s> {
    /// The byte offset of the name.
    pub position: usize,
    /// The name of the variable.
    pub name: &'s str,
}

impl<'s> NoSuchVariableRef<'s> {
    /// Converts into a [`NoSuchVariable`], which owns the variable's name.
    ///
    /// # Errors
    ///
    /// If allocation fails.
    pub fn into_owned(self, alloc: Global) -> Result<NoSuchVariable, AllocError>
        ensures fault { IfOk result (λ e. error_fault (substituting.NoSuchVariable e)
            ≡ Some (fault.NoSuchVariable self.entry.position self.entry.name.now)) }
    {
        Ok(NoSuchVariable {
            position: self.position,
            name: String::from_str(alloc, self.name)?,
        })
    }
}

/// An error of expanding a template into a caller's buffer.
#[derive(Clone, Copy, Debug, PartialEq, Eq)]
pub enum ExpandIntoError<'s> {
    /// An unset variable without a default.
    NoSuchVariable(NoSuchVariableRef<'s>),
    /// The buffer is too small for the output, and it couldn't grow.
    OutOfMemory(AllocError),
}

impl<'s> ExpandIntoError<'s> {
    /// Converts into an error that owns the variable's name, or `OutOfMemory` if allocation fails. Allocates
    /// only if the error names a variable.
    pub fn into_owned(self, alloc: Global) -> ExpandError
        ensures fault { IfSome (expand_fault result) (λ f. expand_into_fault self.entry ≡ Some f) }
        ensures out_of_memory { expand_into_fault self.entry ≡ None → expand_fault result ≡ None }
    {
        match self {
            ExpandIntoError::NoSuchVariable(missing) => match missing.into_owned(alloc) {
                Ok(missing) => missing.into(),
                Err(e) => e.into(),
            },
            ExpandIntoError::OutOfMemory(e) => e.into(),
        }
    }
}

impl<'s> From<AllocError> for ExpandIntoError<'s> {
    ghost from_gives = { λ e error. error ≡ expanding_into.OutOfMemory e };

    fn from(e: AllocError) -> ExpandIntoError<'s> {
        ExpandIntoError::OutOfMemory(e)
    }
}

/// An error of parsing a source, or of expanding it into a caller's buffer.
#[derive(Clone, Copy, Debug, PartialEq, Eq)]
pub enum SubstituteIntoError<'s> {
    /// The source couldn't be parsed.
    Parse(ParseError),
    /// The parsed template couldn't be expanded.
    Expand(ExpandIntoError<'s>),
}

impl<'s> SubstituteIntoError<'s> {
    /// Converts into an [`Error`] that owns the variable's name, or into `OutOfMemory` if allocation fails.
    /// Allocates only if the error names a variable.
    ///
    /// The result has [`Error::source_line`], [`Error::source_position`] and [`Error::source_highlighting`].
    /// [`SubstituteIntoError::source_range`] needs no conversion.
    pub fn into_owned(self, alloc: Global) -> Error
        ensures fault { IfSome (error_fault result)
            (λ f. substitute_into_fault self.entry ≡ Some f) }
        ensures parsing { (e : _) → self.entry ≡ substituting_into.Parse e
            → error_fault result ≡ parse_fault e }
        ensures out_of_memory { substitute_into_fault self.entry ≡ None
            → error_fault result ≡ None }
    {
        match self {
            SubstituteIntoError::Parse(e) => e.into(),
            SubstituteIntoError::Expand(e) => e.into_owned(alloc).into(),
        }
    }
}

impl<'s> From<ParseError> for SubstituteIntoError<'s> {
    ghost from_gives = { λ e error. error ≡ substituting_into.Parse e };

    fn from(e: ParseError) -> SubstituteIntoError<'s> {
        SubstituteIntoError::Parse(e)
    }
}

impl<'s> From<ExpandIntoError<'s>> for SubstituteIntoError<'s> {
    ghost from_gives = { λ e error. error ≡ substituting_into.Expand e };

    fn from(e: ExpandIntoError<'s>) -> SubstituteIntoError<'s> {
        SubstituteIntoError::Expand(e)
    }
}
