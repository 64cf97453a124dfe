//! The one counter of a store, from which transaction numbers, generations and serials are drawn.
ghost use Rattle.std.specs.Prelude.{◌≡◌, ◌+◌, ◌<◌, ◌^◌, ℕ};

use std::marker::Model;

/// The next number to be given. Numbers only rise. A contract sees that number.
#[derive(Drop)]
pub struct Counter {
    next: u64,
}

impl Model for Counter {
    ghost Value = { ℕ };

    ghost view = { λ c. c.next };
}

impl Counter {
    /// A counter whose next number is this.
    pub fn at(next: u64) -> Counter
        ensures { result ≡ next }
    {
        Counter { next }
    }

    /// The number that the next draw gives.
    pub fn next(&self) -> u64
        ensures { result ≡ self.now }
    {
        self.next
    }

    /// Draws a number.
    pub fn draw(&mut self) -> u64
        requires { self.old + 1 < 2 ^ 64 }
        ensures drawn { result ≡ self.old }
        ensures next { self.new ≡ self.old + 1 }
    {
        let drawn = self.next;
        self.next += 1;
        drawn
    }
}
