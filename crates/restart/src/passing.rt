//! The passes over the units, which find the numbers that a new status place keeps.
ghost use Rattle.std.specs.Prelude.{OnOk, ◌≡◌, ◌<◌, ◌+◌, ◌*◌, ◌^◌, ℕ, length, Some, true, false};
ghost use Rattle.std.specs.Bool.{OnTrue, OnFalse};
ghost use Rattle.ipl_base.specs.Calls.{IsFailedCall};
ghost use Rattle.ipl_base.specs.declared.limits.TheConstants.{MOST_UNITS};
ghost use Rattle.chip_trait.specs.Story.{Contents};
ghost use Rattle.ipl_meaning.specs.Chart.{chart_of};
ghost use Rattle.ipl_meaning.specs.Layout.{Layout};
ghost use Rattle.ipl_meaning.specs.Mirrors.{Mirrors};
ghost use Rattle.number_set.specs.Flags.{flagged};
ghost use Rattle.number_set.specs.Numbers.{AreRising};
ghost use Rattle.selective_merge.specs.Known.{KnowsPlaces};
ghost use Rattle.selective_merge.specs.Moving.{tables_of};
ghost use Rattle.unit_io.specs.Costs.{Spends};
ghost use Rattle.unit_io.specs.Unread.{ReadsNothing};
ghost use Rattle.restart.specs.Joins.{kept_of, IsExact};
ghost use Rattle.restart.specs.Leaving.{LeavesPassed, RenewalFails};
ghost use Rattle.restart.specs.Passes.{KeepsAll, HasFound, PassEnds, GoesOnTelling, KeepsInSteps};
ghost use Rattle.restart.specs.Passing.{AreLeft, Grows, HoldsStuck, HoldsUnit, JoinsUnit, MakesRoom, TakesUnit, TakesUnits, TriesPass, Walks};
ghost use Rattle.restart.specs.Stuck.{IsHeldFault};
ghost use Rattle.restart.specs.Turns.{is_ended};
ghost use Rattle.restart.specs.declared.turns.Turns.{Turns};

use crate::numbers::KeptNumbers;
use crate::turns::Turns;
use chip_trait::Chip;
use ipl_base::ChipFault;
use selective_merge::{Parts, merge};
use unit_log::read_live;

/// Whether a call of the chip failed; else the fault is of what the chip holds.
fn is_failed_call(fault: &ChipFault) -> bool
    ensures failed { OnTrue result (IsFailedCall fault.now) }
    ensures held { OnFalse result (¬ IsFailedCall fault.now) }
{
    match fault {
        ChipFault::ReadFault | ChipFault::Stopped | ChipFault::WornOut(_) => true,
        ChipFault::Damaged { .. } | ChipFault::Malformed { .. } => false,
    }
}

/// The committed numbers of a unit's live records join those that are kept. False where they would be
/// too many, and then the same are kept.
fn join_unit<C: Chip>(
    chip: &mut C,
    parts: &mut Parts,
    kept: &mut KeptNumbers,
    unit: u32,
) -> Result<bool, ChipFault>
    requires known { KnowsPlaces (C.told chip.old).places (tables_of parts.old) }
    requires unit { unit < length parts.old.directory.current }
    requires exact { IsExact (kept_of parts.old.status.numbers kept.old) }
    requires room { kept.old.room ≡ parts.old.status.most }
    ensures joins { JoinsUnit (C.told chip.old).places unit (tables_of parts.old)
        (flagged kept.old parts.old.status.numbers)
        (flagged kept.new parts.new.status.numbers) result (C.told chip.old) }
    ensures exact { IsExact (kept_of parts.new.status.numbers kept.new) }
    ensures room { kept.new.room ≡ kept.old.room }
    ensures same { tables_of parts.new ≡ tables_of parts.old }
    ensures rising { AreRising (flagged kept.old parts.old.status.numbers) }
    ensures walks { (turns : Turns) → Walks turns turns (tables_of parts.old) (tables_of parts.new)
        result (C.told chip.old) (C.told chip.new) }
    ensures still { ((C.told chip.new).contents ≡ (C.told chip.old).contents)
        × ((C.told chip.new).places ≡ (C.told chip.old).places) }
{
    let scratch = &mut parts.scratch;
    parts.status.facts();
    read_live(
        chip,
        &parts.directory,
        &parts.overflow,
        unit,
        &mut scratch.sectors,
    )?;
    Ok(kept.join(scratch.sectors.sectors(), &parts.status))
}

/// Of a unit that is stuck the numbers join those that are kept. Where they would be too many, it fails
/// with what is wrong with the one that was stuck last: before it they weren't.
fn hold_unit<C: Chip>(
    chip: &mut C,
    parts: &mut Parts,
    kept: &mut KeptNumbers,
    turns: &Turns,
    unit: u32,
) -> Result<(), ChipFault>
    requires known { KnowsPlaces (C.told chip.old).places (tables_of parts.old) }
    requires unit { unit < length parts.old.directory.current }
    requires held { IsHeldFault turns.now.fault }
    requires exact { IsExact (kept_of parts.old.status.numbers kept.old) }
    requires room { kept.old.room ≡ parts.old.status.most }
    ensures holds { HoldsUnit unit turns.now (flagged kept.old parts.old.status.numbers)
        (flagged kept.new parts.new.status.numbers) (tables_of parts.old)
        (tables_of parts.new) result (C.told chip.old) (C.told chip.new) }
    ensures exact { IsExact (kept_of parts.new.status.numbers kept.new) }
    ensures room { kept.new.room ≡ kept.old.room }
    ensures walks { Walks turns.now turns.now (tables_of parts.old) (tables_of parts.new)
        result (C.told chip.old) (C.told chip.new) }
{
    parts.directory.facts();
    if !turns.is_stuck(unit) {
        return Ok(());
    }
    if join_unit(chip, parts, kept, unit)? {
        return Ok(());
    }
    Err(turns.fault)
}

/// The numbers of all units that are stuck are kept before others.
fn hold_stuck<C: Chip>(
    chip: &mut C,
    parts: &mut Parts,
    kept: &mut KeptNumbers,
    turns: &Turns,
) -> Result<(), ChipFault>
    requires known { KnowsPlaces (C.told chip.old).places (tables_of parts.old) }
    requires held { IsHeldFault turns.now.fault }
    requires exact { IsExact (kept_of parts.old.status.numbers kept.old) }
    requires room { kept.old.room ≡ parts.old.status.most }
    ensures holds { HoldsStuck turns.now (flagged kept.old parts.old.status.numbers)
        (flagged kept.new parts.new.status.numbers) (tables_of parts.old)
        (tables_of parts.new) result (C.told chip.old) (C.told chip.new) }
    ensures exact { IsExact (kept_of parts.new.status.numbers kept.new) }
    ensures room { kept.new.room ≡ kept.old.room }
    ensures walks { Walks turns.now turns.now (tables_of parts.old) (tables_of parts.new)
        result (C.told chip.old) (C.told chip.new) }
{
    for unit in 0..parts.directory.units() {
        hold_unit(chip, parts, kept, turns, unit)?;
    }
    Ok(())
}

/// Merges a unit of which nothing was made and whose numbers don't fit. False where it can't be, for
/// what the chip holds: it is stuck then.
fn make_room<C: Chip>(
    chip: &mut C,
    parts: &mut Parts,
    turns: &mut Turns,
    unit: u32,
) -> Result<bool, ChipFault>
    requires known { KnowsPlaces (C.told chip.old).places (tables_of parts.old) }
    requires unit { unit < length parts.old.directory.current }
    requires idle { is_ended turns.old unit ≡ false }
    requires left { AreLeft parts.old.counter parts.old.directory turns.old }
    ensures makes { MakesRoom unit turns.old turns.new (tables_of parts.old)
        (tables_of parts.new) result (C.told chip.old) (C.told chip.new) }
    ensures walks { Walks turns.old turns.new (tables_of parts.old) (tables_of parts.new)
        result (C.told chip.old) (C.told chip.new) }
    ensures grows { Grows turns.old turns.new parts.old.directory result }
{
    parts.directory.facts();
    // It is tried once, whatever comes of it.
    turns.merge(unit);
    match merge(chip, parts, unit) {
        Ok(()) => Ok(true),
        Err(fault) => {
            if is_failed_call(&fault) {
                return Err(fault);
            }
            turns.stick(unit, fault);
            Ok(false)
        }
    }
}

/// Passes a unit of which nothing was made: the committed numbers of its live records join those that
/// are kept; or, where they would be too many, the unit is merged, and none of its records is of a
/// committed number then. False where it can't be, for what the chip holds.
fn take_unit<C: Chip>(
    chip: &mut C,
    parts: &mut Parts,
    kept: &mut KeptNumbers,
    turns: &mut Turns,
    unit: u32,
) -> Result<bool, ChipFault>
    requires known { KnowsPlaces (C.told chip.old).places (tables_of parts.old) }
    requires unit { unit < length parts.old.directory.current }
    requires left { AreLeft parts.old.counter parts.old.directory turns.old }
    requires exact { IsExact (kept_of parts.old.status.numbers kept.old) }
    requires room { kept.old.room ≡ parts.old.status.most }
    ensures takes { TakesUnit unit turns.old turns.new (flagged kept.old parts.old.status.numbers)
        (flagged kept.new parts.new.status.numbers) (tables_of parts.old)
        (tables_of parts.new) result (C.told chip.old) (C.told chip.new) }
    ensures exact { IsExact (kept_of parts.new.status.numbers kept.new) }
    ensures room { kept.new.room ≡ kept.old.room }
    ensures walks { Walks turns.old turns.new (tables_of parts.old) (tables_of parts.new)
        result (C.told chip.old) (C.told chip.new) }
    ensures grows { Grows turns.old turns.new parts.old.directory result }
{
    parts.directory.facts();
    if turns.is_ended(unit) {
        return Ok(true);
    }
    if join_unit(chip, parts, kept, unit)? {
        return Ok(true);
    }
    make_room(chip, parts, turns, unit)
}

/// Passes unit by unit, in rising order. False as soon as one is stuck.
fn take_units<C: Chip>(
    chip: &mut C,
    parts: &mut Parts,
    kept: &mut KeptNumbers,
    turns: &mut Turns,
) -> Result<bool, ChipFault>
    requires known { KnowsPlaces (C.told chip.old).places (tables_of parts.old) }
    requires left { AreLeft parts.old.counter parts.old.directory turns.old }
    requires exact { IsExact (kept_of parts.old.status.numbers kept.old) }
    requires room { kept.old.room ≡ parts.old.status.most }
    ensures takes { TakesUnits turns.old turns.new (flagged kept.old parts.old.status.numbers)
        (flagged kept.new parts.new.status.numbers) (tables_of parts.old)
        (tables_of parts.new) result (C.told chip.old) (C.told chip.new) }
    ensures exact { IsExact (kept_of parts.new.status.numbers kept.new) }
    ensures room { kept.new.room ≡ kept.old.room }
    ensures walks { Walks turns.old turns.new (tables_of parts.old) (tables_of parts.new)
        result (C.told chip.old) (C.told chip.new) }
    ensures grows { Grows turns.old turns.new parts.old.directory result }
{
    for unit in 0..parts.directory.units() {
        if !take_unit(chip, parts, kept, turns, unit)? {
            return Ok(false);
        }
    }
    Ok(true)
}

/// A pass: units that are stuck keep their numbers first, and then all units are passed in rising
/// order. False where one more is stuck.
fn try_pass<C: Chip>(
    chip: &mut C,
    parts: &mut Parts,
    kept: &mut KeptNumbers,
    turns: &mut Turns,
) -> Result<bool, ChipFault>
    requires known { KnowsPlaces (C.told chip.old).places (tables_of parts.old) }
    requires left { AreLeft parts.old.counter parts.old.directory turns.old }
    requires held { IsHeldFault turns.old.fault }
    requires room { kept.old.room ≡ parts.old.status.most }
    ensures tries { TriesPass turns.old turns.new (flagged kept.new parts.new.status.numbers)
        (tables_of parts.old) (tables_of parts.new) result (C.told chip.old) (C.told chip.new) }
    ensures room { kept.new.room ≡ kept.old.room }
    ensures walks { Walks turns.old turns.new (tables_of parts.old) (tables_of parts.new)
        result (C.told chip.old) (C.told chip.new) }
    ensures grows { Grows turns.old turns.new parts.old.directory result }
{
    kept.clear();
    hold_stuck(chip, parts, kept, turns)?;
    take_units(chip, parts, kept, turns)
}

/// Finds the committed numbers that live records have, no more than a new status place is given: unit by unit in rising order,
/// where one whose numbers don't fit is merged. One that can't be, for what the chip holds, keeps its
/// numbers before all others: a pass begins anew then. Where they are found already it does nothing.
pub(crate) fn find_numbers<C: Chip>(
    chip: &mut C,
    parts: &mut Parts,
    kept: &mut KeptNumbers,
    found: bool,
) -> Result<(), ChipFault>
    requires known { KnowsPlaces (C.told chip.old).places (tables_of parts.old) }
    requires left { parts.old.counter + 13 * MOST_UNITS < 2 ^ 64 }
    requires exact { found ≡ true → KeepsAll (C.told chip.old).places (tables_of parts.old)
        (flagged kept.old parts.old.status.numbers) (C.told chip.old) }
    requires room { kept.old.room ≡ parts.old.status.most }
    ensures room { kept.new.room ≡ kept.old.room }
    ensures passes { (places : ℕ) (x : Contents) (it : Layout)
        → (C.told chip.old).places ≡ places → (C.told chip.old).contents ≡ Some x
        → Mirrors places (chart_of x) it (tables_of parts.old)
        → PassEnds places (chart_of x) it (tables_of parts.old) result (C.told chip.new)
        (tables_of parts.new)
        (HasFound places (chart_of x) it (tables_of parts.old)
        (flagged kept.new parts.new.status.numbers) (C.told chip.new) (tables_of parts.new)) }
    ensures goes_on { GoesOnTelling result (C.told chip.old) (C.told chip.new) }
    ensures fails { RenewalFails (C.told chip.old).places (tables_of parts.old)
        (tables_of parts.new) result (C.told chip.old) }
    ensures steps { (places : ℕ) → (C.told chip.old).places ≡ places
        → KeepsInSteps places (tables_of parts.old) (tables_of parts.new)
        (C.told chip.old) result (C.told chip.new) }
    ensures leaves { LeavesPassed (13 * MOST_UNITS) (length parts.old.directory.current)
        (tables_of parts.old) (tables_of parts.new) result (C.told chip.old) (C.told chip.new) }
    ensures unread { OnTrue found (Spends ReadsNothing (C.told chip.old) (C.told chip.new)) }
    ensures same { OnOk result (found ≡ true → tables_of parts.new ≡ tables_of parts.old) }
{
    if found {
        parts.status.facts();
        kept.flags();
        return Ok(());
    }
    parts.directory.facts();
    let mut turns = Turns::none();
    'passes: while !try_pass(chip, parts, kept, &mut turns)? {}
    Ok(())
}
