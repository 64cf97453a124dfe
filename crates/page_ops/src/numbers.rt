//! A number for each slot, where it has one.
ghost use Rattle.std.specs.Prelude.{◌≡◌, ◌<◌, None, replicate, slice_index_or, slice_set};

use std::marker::Model;

/// For each of 64 slots a number, or none. A contract sees that list. The numbers stand by themselves,
/// since a list of numbers that may be none takes twice the room.
#[derive(Drop)]
pub(crate) struct Numbers {
    given: [bool; 64],
    // The number of a slot that has one; of any other slot, whatever stood there.
    numbers: [u64; 64],
}

impl Model for Numbers {
    ghost use Rattle.std.specs.Prelude.{ℕ, List, Option, length, ◌≡◌};
    ghost use Rattle.page_ops.specs.Numbers.{numbers_in};

    ghost Value = { List (Option ℕ) };

    ghost view = { λ n. numbers_in n.given n.numbers };
}

impl Numbers {
    /// None for each slot.
    pub(crate) fn none() -> Numbers
        ensures { result ≡ replicate 64 None }
    {
        Numbers {
            given: [false; 64],
            numbers: [0; 64],
        }
    }

    /// Takes all numbers away.
    pub(crate) fn reset(&mut self)
        ensures { self.new ≡ replicate 64 None }
    {
        self.given = [false; 64];
    }

    /// The number of a slot (0 to 63), if it has one.
    pub(crate) fn get(&self, slot: u32) -> Option<u64>
        requires { slot < 64 }
        ensures { result ≡ slice_index_or self.now slot None }
    {
        if self.given[slot as usize] {
            Some(self.numbers[slot as usize])
        } else {
            None
        }
    }

    /// Gives a slot (0 to 63) a number.
    pub(crate) fn give(&mut self, slot: u32, number: u64)
        requires { slot < 64 }
        ensures { self.new ≡ slice_set self.old slot (Some number) }
    {
        self.given[slot as usize] = true;
        self.numbers[slot as usize] = number;
    }

    /// Takes the number of a slot (0 to 63) away.
    pub(crate) fn take(&mut self, slot: u32)
        requires { slot < 64 }
        ensures { self.new ≡ slice_set self.old slot None }
    {
        self.given[slot as usize] = false;
    }
}
