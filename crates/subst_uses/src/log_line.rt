//! Lines of a log. The log's capacity is reserved in advance, so that appending a line never allocates.

ghost use Rattle.std.specs.Prelude.{◌≡◌, ◌↔◌, ◌≤◌, ◌+◌, ◌++◌, length, max, codes, IfSome, IsSome, IsTrue, IsFalse, vec_capacity, vec_len};
ghost use Rattle.subst_uses.specs.declared.log_line.TheConstants.{LONGEST};

use subst::{ByteTemplate, VariableMap};

/// The source of a line: the level, a space, the message and a line feed.
pub const LINE: &[u8] = b"$level $message\n";

/// The maximum length of a field in bytes.
pub const LONGEST: usize = 200;

/// A capacity that suffices for any line: the length of `LINE` plus twice `LONGEST`.
pub const ROOM: usize = LINE.len() + 2 * LONGEST;

/// A map with the variables `level` and `message`, whose values have at most `LONGEST` bytes each.
#[derive(Drop)]
pub struct Fields<'f> {
    pub level: &'f str,
    pub message: &'f str,
    pub ghost short: { max (length level.now) (length message.now) ≤ LONGEST },
}

impl<'f> Fields<'f> {
    /// Returns the fields of a line, or `None` if a field is longer than `LONGEST`.
    pub fn new(level: &'f str, message: &'f str) -> Option<Fields<'f>>
        ensures short { IsSome result ↔ (max (length level.now) (length message.now) ≤ LONGEST) }
        ensures given { IfSome result (λ f. (f.level ≡ level.entry) × (f.message ≡ message.entry)) }
    {
        if level.len() > LONGEST || message.len() > LONGEST {
            return None;
        }
        Some(Fields { level, message })
    }
}

impl<'a> VariableMap<'a> for Fields<'a> {
    ghost use Rattle.std.specs.Prelude.{ℕ, List, Some, None, if◌then◌else◌, bytes_eq};

    type Value = &'a str;

    ghost Seen = { List ℕ };

    ghost see = { λ v. v.now };

    ghost look_up = { λ self key. if bytes_eq key (codes "level") then Some self.level.now
        else (if bytes_eq key (codes "message") then Some self.message.now else None) };

    fn get(&'a self, key: &str) -> Option<&'a str> {
        match key {
            "level" => Some(self.level),
            "message" => Some(self.message),
            _ => None,
        }
    }
}

/// Appends a line to a log: the level, a space, the message and a line feed. Returns `false`, and leaves the
/// log unchanged, exactly if fewer than `ROOM` bytes of the log's capacity are free.
pub fn append_line(line: &ByteTemplate<'_>, fields: &Fields<'_>, log: &mut Vec<u8>) -> bool
    requires { line.now ≡ LINE.now }
    ensures room { IsTrue result ↔ (vec_len log.old + ROOM ≤ vec_capacity log.old) }
    ensures line { IsTrue result → log.new.items ≡ log.old.items
        ++ (fields.now.level.now ++ (codes " " ++ (fields.now.message.now ++ codes "\n"))) }
    ensures kept { IsFalse result → log.new.items ≡ log.old.items }
    ensures capacity { vec_capacity log.old ≤ vec_capacity log.new }
{
    log.capacity() - log.len() >= ROOM && line.expand_into(log, fields).is_ok()
}
