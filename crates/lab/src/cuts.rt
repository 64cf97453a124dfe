//! Power cuts in a run: the chip after each of its events is opened, and its records are looked at.
use crate::compared::{Tried, Verdict};
use crate::ends::Ended;
use crate::runs::looked;
use anyhow::Result;
use chip_mem::{Choice, MemChip, Pick};
use chip_trait::{Chip, Event};
use sector_format::Head;
use std::alloc::Global;

/// What a cut leaves of the open sectors.
#[derive(Clone, Copy, Debug, PartialEq, Eq)]
pub enum Left {
    Old,
    Whole,
    Torn,
}

/// What is left of a sector that an event of this number programs.
fn choice(left: Left, number: usize, bytes: &[u8; 512]) -> Choice {
    match left {
        Left::Old => Choice::Old,
        Left::Whole => Choice::After(number as u64),
        Left::Torn => {
            let mut torn = [0xff; 512];
            torn[..40].copy_from_slice(&bytes[..40]);
            Choice::Bytes(torn)
        }
    }
}

/// Picks what is left of the first sectors of a place that the event of this number was to erase.
fn pick_place(picks: &mut Vec<Pick>, place: u32, number: usize, left: Left) -> Result<()> {
    for sector in 0..3 {
        picks.push(Pick {
            place,
            sector,
            choice: choice(left, number, &[0x5a; 512]),
        })?;
    }
    Ok(())
}

/// What is left of the sectors that are open after the first `at` events, and of those of worn places.
/// Of an erased place the first sectors are named, and of a worn one.
fn picks(alloc: Global, events: &[Event], at: usize, left: Left) -> Result<Vec<Pick>> {
    let mut picks = Vec::new(alloc);
    let mut worn = Vec::new(alloc);
    for (number, event) in events.iter().take(at).enumerate() {
        match event {
            Event::Barrier => picks.clear(),
            Event::Program(place, sector, bytes) => picks.push(Pick {
                place: *place,
                sector: *sector,
                choice: choice(left, number, bytes),
            })?,
            Event::Erase(place) => pick_place(&mut picks, *place, number, left)?,
            // What stands there isn't sure to last, and no barrier mends it.
            Event::Worn(place) => pick_place(&mut worn, *place, number, left)?,
            Event::Read(_, _) | Event::Said(_) => {}
        }
    }
    picks.extend_from_slice(&worn)?;
    Ok(picks)
}

/// The chip that a cut leaves after the first `at` events.
fn cut(alloc: Global, chip: &MemChip, at: usize, left: Left) -> Result<MemChip> {
    let picks = picks(alloc, chip.events(), at, left)?;
    Ok(chip.image(alloc, at as u64, &picks)?)
}

/// How many events there are up to the first one that programs a status header, and it.
fn status_end(events: &[Event]) -> usize {
    for (number, event) in events.iter().enumerate() {
        if let Event::Program(_, 0, bytes) = event {
            if bytes[4] == Head::STATUS_HEADER {
                return number.saturating_add(1);
            }
        }
    }
    0
}

/// The chip that a cut leaves of an opening, after the event that programs its status header.
fn cut_again(alloc: Global, opened: &Ended, left: Left) -> Result<MemChip> {
    let chip = opened.desk.chip();
    cut(alloc, chip, status_end(chip.events()), left)
}

/// Cuts the run after its first `at` events, with the open sectors left so, and maybe the opening of
/// what is left too.
fn cut_at(
    alloc: Global,
    tried: &Tried<'_>,
    verdict: &mut Verdict,
    at: usize,
    left: Left,
    twice: bool,
) -> Result<()> {
    let moment = format!(in alloc; "{left:?} after {at} events")?;
    let opened = looked(alloc, cut(alloc, tried.whole, at, left)?, tried.look)?;
    tried.check_left(alloc, verdict, moment.as_str(), &opened, at, left)?;
    if twice {
        let again = looked(alloc, cut_again(alloc, &opened, left)?, tried.look)?;
        let moment = format!(in alloc; "{left:?} after {at} events, and again")?;
        let records = opened.text(alloc)?;
        let again = again.text(alloc)?;
        verdict.check(alloc, moment.as_str(), again.as_str(), records.as_str())?;
    }
    Ok(())
}

/// Cuts the run after each of its events from this one on, by steps.
pub fn cuts(
    alloc: Global,
    tried: &Tried<'_>,
    first: usize,
    step: usize,
    twice: bool,
) -> Result<String> {
    let mut verdict = Verdict::new();
    tried.check_replies(alloc, &mut verdict)?;
    let first = first.max(tried.unpromised());
    for at in first..tried.events().len().saturating_add(1) {
        if !is_moment(tried.events(), first, step, at) {
            continue;
        }
        for left in [Left::Old, Left::Whole, Left::Torn] {
            cut_at(alloc, tried, &mut verdict, at, left, twice)?;
        }
        if verdict.is_over() {
            break;
        }
    }
    verdict.text(alloc)
}

/// Whether the run is cut after its first `at` events. Behind a read a cut leaves what it left before
/// it, so where each event has its turn there is no new moment.
fn is_moment(events: &[Event], first: usize, step: usize, at: usize) -> bool {
    if step > 1 {
        return matches!(at.saturating_sub(first).checked_rem(step), Some(0));
    }
    at == first || !matches!(events.get(at.saturating_sub(1)), Some(Event::Read(_, _)))
}
