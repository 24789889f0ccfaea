//! A counter that only proofs read.

ghost use Rattle.std.specs.Prelude.{◌≡◌, ◌+◌, ℕ};

use std::marker::Model;

/// A number that only proofs read. Only `add` changes it, and it takes no memory.
#[derive(Drop)]
pub struct Counter {
    ghost count: { ℕ },
}

impl Model for Counter {
    ghost use Rattle.std.specs.Prelude.{ℕ};
    ghost use Rattle.std.specs.Borrow.{ftrue};

    ghost Value = { ℕ };

    ghost view = { λ counter. counter.count };

    // A counter owns no memory. This has to be stated because its ghost field holds a number.
    ghost also_owns = { λ _. ftrue };
}

impl Counter {
    /// Returns a counter at 0.
    pub fn new() -> Self
        ensures { result ≡ 0 }
    {
        Counter {}
    }

    /// Adds `n` to the counter.
    pub fn add(&mut self, n: usize)
        ensures { self.new ≡ self.old + n }
    {
        let _ = n;
    }
}
