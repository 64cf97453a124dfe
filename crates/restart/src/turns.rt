//! What the passes over the units made of each.
ghost use Rattle.std.specs.Prelude.{◌≡◌, ◌<◌, ℕ};
ghost use Rattle.ipl_base.specs.declared.limits.TheConstants.{MOST_UNITS};
ghost use Rattle.restart.specs.Stuck.{IsHeldFault};
ghost use Rattle.restart.specs.Turns.{turn_of, is_ended, is_stuck, IsSet};
ghost use Rattle.restart.specs.declared.turns.Turn.TheVariants.{Open, Merged, Stuck};

use ipl_base::ChipFault;

/// What was made of a unit: nothing; or it was merged; or it can't be, for what the chip holds.
#[derive(Clone, Copy)]
pub(crate) enum Turn {
    Open,
    Merged,
    Stuck,
}

/// What was made of each of 1,024 units.
#[derive(Drop)]
pub(crate) struct Turns {
    pub(crate) units: [Turn; 1024],
    /// What is wrong with the unit that was stuck last. Where none is, it says nothing.
    pub(crate) fault: ChipFault,
}

impl Turns {
    /// Nothing was made of any unit.
    pub(crate) fn none() -> Turns
        ensures open { (u : ℕ) → turn_of result u ≡ Open }
        ensures held { IsHeldFault result.fault }
    {
        Turns {
            units: [Turn::Open; 1024],
            fault: ChipFault::Malformed {
                place: 0,
                sector: 0,
            },
        }
    }

    /// Whether a unit (0 to 1,023) was merged, or can't be.
    pub(crate) fn is_ended(&self, unit: u32) -> bool
        requires { unit < MOST_UNITS }
        ensures { result ≡ is_ended self.now unit }
    {
        !matches!(self.units[unit as usize], Turn::Open)
    }

    /// Whether a unit (0 to 1,023) can't be merged.
    pub(crate) fn is_stuck(&self, unit: u32) -> bool
        requires { unit < MOST_UNITS }
        ensures { result ≡ is_stuck self.now unit }
    {
        matches!(self.units[unit as usize], Turn::Stuck)
    }

    /// A unit (0 to 1,023) is merged.
    pub(crate) fn merge(&mut self, unit: u32)
        requires { unit < MOST_UNITS }
        ensures { IsSet self.old self.new unit Merged self.old.fault }
    {
        self.units[unit as usize] = Turn::Merged;
    }

    /// A unit (0 to 1,023) can't be merged, since this is wrong with it.
    pub(crate) fn stick(&mut self, unit: u32, fault: ChipFault)
        requires { unit < MOST_UNITS }
        ensures { IsSet self.old self.new unit Stuck fault }
    {
        self.units[unit as usize] = Turn::Stuck;
        self.fault = fault;
    }
}
