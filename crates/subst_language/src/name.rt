//! Names of variables, and their bytes.

ghost use Rattle.std.specs.Prelude.{◌≡◌, ◌↔◌, ◌≤◌, IsTrue, drop, length, take};
ghost use Rattle.std.specs.List.{list_all, AllByRecursion};
ghost use Rattle.subst_language.specs.Language.Name as name;
ghost use Rattle.subst_language.specs.Language.Name.{BeginsWithNo, IsName, IsNameByte};

/// Returns whether `bytes` is a name: one or more ASCII letters, digits and underscores.
pub fn is_name(bytes: &[u8]) -> bool
    ensures name { IsTrue result ↔ IsName bytes.now }
{
    !bytes.is_empty() && are_name_bytes(bytes)
}

/// Returns whether every byte is an ASCII letter, an ASCII digit or an underscore.
fn are_name_bytes(bytes: &[u8]) -> bool
    ensures { result ≡ list_all name.is_name_byte bytes.now }
{
    bytes.iter().all(|byte| is_name_byte(*byte))
}

/// Returns the length of the longest name at the start of `bytes`, or 0 if they begin with no name.
pub fn name_len(bytes: &[u8]) -> usize
    ensures run { AllByRecursion IsNameByte (take result bytes.now) }
    ensures end { BeginsWithNo IsNameByte (drop result bytes.now) }
    ensures within { result ≤ length bytes.now }
{
    let end = bytes.iter().position(|byte| !is_name_byte(*byte));
    end.unwrap_or(bytes.len())
}

/// Returns whether `byte` may be in a name.
fn is_name_byte(byte: u8) -> bool
    ensures { result ≡ name.is_name_byte byte }
{
    byte.is_ascii_alphanumeric() || byte == b'_'
}
