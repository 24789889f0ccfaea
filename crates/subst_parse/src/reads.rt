//! The counter of a parse's reads. It exists only in contracts and takes no memory.

ghost use Rattle.std.specs.Prelude.{◌≡◌, ◌+◌};

use std::marker::Model;
use subst_language::Counter;

/// The number of reads of a parse.
///
/// One read is one look at a byte of the source, or at the end of the source. The parser looks by offset or
/// in a search.
#[derive(Drop)]
pub struct Reads {
    counter: Counter,
}

impl Model for Reads {
    ghost use Rattle.std.specs.Prelude.{ℕ};

    ghost Value = { ℕ };

    ghost view = { λ reads. reads.counter };
}

impl Reads {
    /// Returns a counter at 0.
    pub fn new() -> Self
        ensures start { result ≡ 0 }
    {
        Reads {
            counter: Counter::new(),
        }
    }

    /// Adds `count` reads.
    pub(crate) fn add(&mut self, count: usize)
        ensures { self.new ≡ self.old + count }
    {
        self.counter.add(count);
    }
}
