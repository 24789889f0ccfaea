//! The values of an expansion, by number.

ghost use Rattle.std.specs.Prelude.{◌≡◌, ℕ, List, Option, Some};
ghost use Rattle.std.specs.Option.{option_map};
ghost use Rattle.subst_indexed.specs.Slot.{known_at, slot_value};

/// The value of a variable, as far as it is known.
#[derive(Clone, Copy)]
pub enum Slot<'v> {
    /// The value hasn't been asked for.
    Unasked,
    /// The variable has no value.
    Unset,
    /// The bytes of the value.
    Set(&'v [u8]),
}

/// A value of a variable, as far as it is known.
///
/// Contracts see it as `known`: the value, which may be none, or `None` if it hasn't been asked for.
pub trait AsSlot {
    ghost known: { Self → Option (Option (List ℕ)) };

    /// Returns the value as far as it is known.
    fn slot(&self) -> Slot<'_>
        ensures slot { slot_value result ≡ known self.now };
}

/// A value, or none. It is always known.
impl<'v> AsSlot for Option<&'v [u8]> {
    ghost known = { λ value. Some (option_map (λ bytes. bytes.now) value) };

    #[inline(always)]
    fn slot(&self) -> Slot<'_> {
        match *self {
            Some(bytes) => Slot::Set(bytes),
            None => Slot::Unset,
        }
    }
}

/// A slot.
impl<'v> AsSlot for Slot<'v> {
    ghost known = { slot_value };

    #[inline(always)]
    fn slot(&self) -> Slot<'_> {
        *self
    }
}

/// Returns the value with a number, as far as it is known. Past the end of the slice, there are no values.
#[inline(always)]
pub(crate) fn slot_at<V: AsSlot>(values: &[V], number: u32) -> Slot<'_>
    ensures { slot_value result ≡ known_at V.known values.now number }
{
    match values.get(number as usize) {
        Some(value) => value.slot(),
        None => Slot::Unset,
    }
}
