//! Calls that clone errors, and that highlight an error or a range in a source.

ghost use Rattle.std.specs.Prelude.{◌≡◌, Some};
ghost use Rattle.subst.specs.ErrorFault.{error_fault};
ghost use Rattle.subst.specs.Fault as fault;

use crate::calls::{Show, again, clone};
use std::alloc::{AllocError, Global};
use subst::Error;
use subst::error::{ExpandError, MissingVariableName, NoSuchVariable, underline};

/// Returns the fault of a missing variable.
pub fn absent(alloc: Global) -> Result<NoSuchVariable, AllocError> {
    let name = String::from_str(alloc, "absent")?;
    Ok(NoSuchVariable { position: 3, name })
}

/// A source with a fault in its second line.
const SOURCE: &str = "one\nHi $!";

/// Returns the fault of `SOURCE`.
pub fn no_name() -> Error
    ensures { error_fault result ≡ Some (fault.MissingVariableName 7 1) }
{
    Error::from(MissingVariableName {
        position: 7,
        len: 1,
    })
}

fn underlined(alloc: Global) -> Result<String, AllocError> {
    no_name().source_highlighting(alloc, SOURCE)
}

pub fn calls(rt: &HostRuntime) -> Result<(), AllocError> {
    let alloc = rt.alloc();
    clone(rt, "NoSuchVariable::clone", absent(alloc)?);
    let fault = ExpandError::from(absent(alloc)?);
    clone(rt, "ExpandError::clone of a missing variable", fault);
    let fault = Error::from(absent(alloc)?);
    clone(rt, "Error::clone of a missing variable", fault);
    let fault = no_name();
    again!(rt, "Error::source_highlighting", [fault], Err(_) => underlined(alloc));
    again!(rt, "underline", [SOURCE], Err(_) => underline(alloc, SOURCE, 4..6));
    Ok(())
}
