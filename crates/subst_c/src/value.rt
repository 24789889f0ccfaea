//! The values of variables by number, as C passes them.

use subst_indexed::slot::{AsSlot, Slot};

/// A variable without a value.
pub const UNSET: u32 = 0;

/// A variable with a value. The bytes are read only with this number.
pub const SET: u32 = 1;

/// A variable whose value hasn't been asked for.
pub const NOT_ASKED: u32 = 2;

/// The value of a variable, as far as it is known. With a number other than [`SET`] and [`NOT_ASKED`], such
/// as 0, there is none.
#[repr(C)]
#[derive(Clone, Copy)]
pub struct Value<'a> {
    pub bytes: &'a [u8],
    pub given: u32,
}

/// The values for one of several outputs of a template.
#[repr(C)]
#[derive(Clone, Copy)]
pub struct ValueRow<'a> {
    pub values: &'a [Value<'a>],
}

impl AsSlot for Value<'_> {
    ghost use Rattle.subst_c.specs.Values.{value_known};

    ghost known = { value_known };

    #[inline(always)]
    fn slot(&self) -> Slot<'_> {
        match self.given {
            SET => Slot::Set(self.bytes),
            NOT_ASKED => Slot::Unasked,
            _ => Slot::Unset,
        }
    }
}
