//! Tests whether the rest of a source closes all open braces, after a fault inside a default.

ghost use Rattle.std.specs.Prelude.{◌≡◌, ◌+◌, ◌-◌, ◌≤◌, ◌↔◌, IsTrue, drop, length};
ghost use Rattle.subst_language.specs.Lemmas.Closing.{ClosesAll};
ghost use Rattle.subst_parse.specs.Cost.{GrowsBetween};

use crate::tape::Tape;

/// Returns whether the source from the offset `from` on closes `count` open braces.
pub(crate) fn closes_all(tape: &mut Tape<'_>, from: usize, count: usize) -> bool
    requires inside { from ≤ length tape.old.source.now }
    requires shallow { count ≤ from }
    ensures answer { IsTrue result ↔ ClosesAll count (drop from tape.old.source.now) }
    ensures same { tape.new.source ≡ tape.old.source }
    ensures cost { GrowsBetween 0 (length tape.old.source.now - from + 1)
        tape.old.reads tape.new.reads }
{
    let mut unclosed = count;
    let mut at = from;
    while unclosed > 0 {
        match tape.byte_at(at) {
            None => return false,
            Some(b'\\') => at += 2,
            Some(b'{') => {
                unclosed += 1;
                at += 1;
            }
            Some(b'}') => {
                unclosed -= 1;
                at += 1;
            }
            Some(_) => at += 1,
        }
    }
    true
}
