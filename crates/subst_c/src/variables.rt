//! The records that report variables to C.

ghost use Rattle.std.specs.Prelude.{◌≡◌, ◌≢◌, length, map};
ghost use Rattle.subst_language.specs.Calls.Variables.{kind_of};
ghost use Rattle.subst_c.specs.Buffer.{FillsBuffer};
ghost use Rattle.subst_c.specs.Records.{kind_number};
ghost use Rattle.subst_c.specs.declared.outcome.TheConstants.{DONE, ROOM_TOO_SMALL};
ghost use Rattle.subst_c.specs.declared.variables.VariableRecord.{VariableRecord};

use crate::outcome::{DONE, ROOM_TOO_SMALL};
use subst_error::NoSuchVariable;
use subst_language::{Variable, VariableKind};

/// `$name` or `${name}`: a fault if the variable is unset.
pub const REQUIRED: u32 = 0;

/// `${name?}`: expands to nothing if the variable is unset.
pub const OPTIONAL: u32 = 1;

/// `${name:default}`: expands to the default if the variable is unset.
pub const WITH_DEFAULT: u32 = 2;

/// The number of a variable's kind, and the byte offset of its name and the name's length in bytes.
#[repr(C)]
#[derive(Clone, Copy)]
pub struct VariableRecord {
    pub kind: u32,
    pub position: usize,
    pub length: usize,
}

impl VariableRecord {
    /// Returns the record of a variable: the number of its kind, and the offset and length of its name.
    fn new(kind: u32, position: usize, name: &str) -> Self
        ensures { result ≡ record { kind = kind; position = position; length = length name.now } }
    {
        VariableRecord {
            kind,
            position,
            length: name.len(),
        }
    }
}

/// Returns the number of a kind of variable.
fn number_of(kind: VariableKind) -> u32
    ensures { result ≡ kind_number (kind_of kind) }
{
    match kind {
        VariableKind::Required => REQUIRED,
        VariableKind::Optional => OPTIONAL,
        VariableKind::WithDefault => WITH_DEFAULT,
    }
}

/// A variable that is reported to C by a record.
pub trait Recorded {
    /// The record of this variable.
    ghost recorded: { Self → VariableRecord };

    /// Returns the record of this variable.
    fn record(&self) -> VariableRecord
        ensures { result ≡ recorded self.now };
}

impl Recorded for Variable<'_> {
    ghost use Rattle.subst_language.specs.Calls.Variables.{variable_of};
    ghost use Rattle.subst_c.specs.Records.{variable_record};

    ghost recorded = { λ variable. variable_record (variable_of variable) };

    fn record(&self) -> VariableRecord {
        VariableRecord::new(number_of(self.kind), self.position, self.name)
    }
}

impl Recorded for NoSuchVariable {
    ghost use Rattle.subst_language.specs.Calls.Variables.{missing_variable};
    ghost use Rattle.subst_c.specs.Records.{variable_record};

    ghost recorded = { λ e. variable_record (missing_variable e) };

    fn record(&self) -> VariableRecord {
        VariableRecord::new(REQUIRED, self.position, &self.name)
    }
}

/// Writes the records of the items of `list` to the front of the buffer, and their number to `needed`. If the
/// buffer is too small, it is unchanged.
pub fn deliver<T: Recorded>(list: &[T], buffer: &mut [VariableRecord], needed: &mut usize) -> u32
    ensures buffer { FillsBuffer (λ records. records ≡ map T.recorded list.now)
        result needed.old needed.new buffer.old buffer.new }
    ensures others { result ≢ DONE → result ≡ ROOM_TOO_SMALL }
{
    *needed = list.len();
    if buffer.len() < list.len() {
        return ROOM_TOO_SMALL;
    }
    for (i, item) in list.iter().enumerate() {
        buffer[i] = item.record();
    }
    DONE
}
