//! The character at the front of bytes, as `IsFrontCharacter` defines it.

ghost use Rattle.std.specs.Prelude.{◌≡◌, ◌<◌, [], ◌++◌, ℕ, List, length};
ghost use Rattle.subst_language.specs.Language.Character.{IsFrontCharacter, BeginsWithChar};

use std::str;
use subst_error::CharOrByte;

/// Returns the character that the bytes begin with, or their first byte if they begin with no character.
pub(crate) fn front_character(bytes: &[u8]) -> CharOrByte
    requires { 0 < length bytes.now }
    ensures { IsFrontCharacter bytes.now result }
{
    match front_text(bytes).chars().next() {
        Some(character) => CharOrByte::Char(character),
        None => CharOrByte::Byte(bytes[0]),
    }
}

/// Returns the longest UTF-8 prefix of the first four bytes. No character is longer than four bytes.
fn front_text(bytes: &[u8]) -> &str
    ensures front { (rest : List ℕ) × (bytes.now ≡ result.now ++ rest) }
    ensures empty { result.now ≡ [] → (c : ℕ) → ¬ (BeginsWithChar bytes.now c) }
{
    let front = &bytes[..bytes.len().min(4)];
    match str::from_utf8(front) {
        Ok(text) => text,
        Err(e) => str::from_utf8(&front[..e.valid_up_to()]).unwrap_or(""),
    }
}
