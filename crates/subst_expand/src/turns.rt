//! The counter of an expansion's turns. It exists only in contracts and takes no memory.

ghost use Rattle.std.specs.Prelude.{◌≡◌, ◌+◌};

use std::marker::Model;
use subst_language::Counter;

/// The number of turns of an expansion.
///
/// A turn is one pass of the expansion's loop: one visited part.
#[derive(Drop)]
pub struct Turns {
    counter: Counter,
}

impl Model for Turns {
    ghost use Rattle.std.specs.Prelude.{ℕ};

    ghost Value = { ℕ };

    ghost view = { λ turns. turns.counter };
}

impl Turns {
    /// Returns a counter at 0.
    pub fn new() -> Self
        ensures start { result ≡ 0 }
    {
        Turns {
            counter: Counter::new(),
        }
    }

    /// Adds one turn.
    pub(crate) fn add_one(&mut self)
        ensures { self.new ≡ self.old + 1 }
    {
        self.counter.add(1);
    }
}
