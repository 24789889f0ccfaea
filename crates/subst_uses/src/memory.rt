//! The error of a call that can fail only if memory runs out.

ghost use Rattle.std.specs.Prelude.{◌≡◌, None};
ghost use Rattle.subst.specs.ErrorFault.{error_fault, expand_fault};

use std::alloc::AllocError;
use subst::Error;
use subst::error::ExpandError;

/// Returns the allocation error in `e`, the error of a substitution. `e` must not state a fault.
pub fn of_substituting(e: Error) -> AllocError
    requires { error_fault e ≡ None }
{
    match e {
        Error::OutOfMemory(e) => e,
        _ => unreachable!(),
    }
}

/// Returns the allocation error in `e`, the error of an expansion. `e` must not state a fault.
pub fn of_expanding(e: ExpandError) -> AllocError
    requires { expand_fault e ≡ None }
{
    match e {
        ExpandError::OutOfMemory(e) => e,
        _ => unreachable!(),
    }
}
