//! The error of a run of the filter, its text, and the exit status of the program.

ghost use Rattle.std.specs.Prelude.{◌≡◌};

use crate::status::{DEVICE_FAILED, OUT_OF_MEMORY, REFUSED};
use std::alloc::AllocError;
use std::fmt;
use subst::Error;

/// An error that ends a run of the filter.
#[derive(Drop)]
pub enum RunError {
    /// The input failed.
    Read,
    /// The output failed.
    Write,
    /// The source isn't UTF-8, in a run over text.
    NotUtf8,
    /// The source is refused with this error. The `String` is the highlighting of the fault: the source line
    /// in which the fault begins, and carets below it. The `String` is empty if that line is too wide, or in
    /// a run over bytes.
    Subst(Error, String),
    /// Memory ran out.
    OutOfMemory,
}

impl RunError {
    ghost use Rattle.subst_filter_lib.specs.RunError.{error_status};

    /// Returns the exit status of the program: [`REFUSED`] if the source is refused or isn't UTF-8,
    /// [`DEVICE_FAILED`] if the input or the output failed, and [`OUT_OF_MEMORY`] if memory ran out.
    pub fn status(&self) -> u8
        ensures status { result ≡ error_status self.now }
    {
        match self {
            RunError::Subst(_, _) | RunError::NotUtf8 => REFUSED,
            RunError::Read | RunError::Write => DEVICE_FAILED,
            RunError::OutOfMemory => OUT_OF_MEMORY,
        }
    }
}

/// Writes the message, without a line end after it. For a refused source, the message is that of the
/// library's error, without the highlighting.
impl fmt::Display for RunError {
    ghost use Rattle.std.specs.Fmt.{DisplaysOnOk};
    ghost use Rattle.subst.specs.Writing.{WritesSome};
    ghost use Rattle.subst_filter_lib.specs.RunError.{display_of_run, IsDisplayOfRun};

    ghost output = { display_of_run };

    fn fmt<W: fmt::Write>(&self, f: &mut fmt::Formatter<W>) -> fmt::Result
        ensures writes { DisplaysOnOk W.write_str_gives f.old result
            (display_of_run self.now) f.new }
        ensures text { WritesSome W.write_str_gives f.old result (IsDisplayOfRun self.now) f.new }
    {
        match self {
            RunError::Read => f.write_str("read failed"),
            RunError::Write => f.write_str("write failed"),
            RunError::NotUtf8 => f.write_str("input is not UTF-8"),
            RunError::Subst(e, _) => e.fmt(f),
            RunError::OutOfMemory => f.write_str("out of memory"),
        }
    }
}

impl From<AllocError> for RunError {
    ghost use Rattle.subst_filter_lib.specs.declared.run_error.RunError.TheVariants as run;

    ghost from_gives = { λ _ error. error ≡ run.OutOfMemory };

    fn from(_e: AllocError) -> RunError {
        RunError::OutOfMemory
    }
}
