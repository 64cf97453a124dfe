//! Each call of the chip in a run fails in turn.
use crate::answers::{DOWN, READ_FAILED, WRITE_FAILED};
use crate::compared::{Tried, Verdict};
use crate::cuts::Left;
use crate::ends::{end_text, said_in};
use crate::runs::{Failing, copied, looked};
use anyhow::Result;
use chip_mem::MemChip;
use chip_trait::{Chip, Event};
use std::alloc::Global;

/// The line that is noted where the call that does an event fails.
fn note_of(event: &Event) -> &'static [u8] {
    match event {
        Event::Read(_, _) => b"ipl: chip read failed\n",
        _ => b"ipl: chip write failed\n",
    }
}

/// How a run ends where the call fails that does the event of this number.
fn run_end(alloc: Global, said: &[u8], event: &Event) -> Result<String> {
    end_text(alloc, 3, said, note_of(event))
}

/// How calls of a store end there: with a read that is made once more, or with a store that is down.
fn calls_end(alloc: Global, tried: &Tried<'_>, said: &[u8], event: &Event) -> Result<String> {
    let mut lines = Vec::from_slice(alloc, said)?;
    let behind = tried.model.said().get(said.len()..).unwrap_or(&[]);
    if matches!(event, Event::Read(_, _)) {
        lines.extend_from_slice(READ_FAILED.as_bytes())?;
        lines.extend_from_slice(behind)?;
        return end_text(alloc, 0, &lines, &[]);
    }
    lines.extend_from_slice(WRITE_FAILED.as_bytes())?;
    for _ in behind.split(|byte| *byte == b'\n').skip(2) {
        lines.extend_from_slice(DOWN.as_bytes())?;
    }
    end_text(alloc, 3, &lines, &[])
}

/// How many of the first so many events are calls of the chip.
fn calls_before(events: &[Event], number: usize) -> u64 {
    let mut calls = 0_u64;
    for event in events.iter().take(number) {
        if !matches!(event, Event::Said(_)) {
            calls = calls.saturating_add(1);
        }
    }
    calls
}

/// A run of which each call of the chip fails in turn, and what was found so far.
#[derive(Drop)]
struct Failed<'a> {
    alloc: Global,
    tried: &'a Tried<'a>,
    verdict: Verdict,
}

impl Failed<'_> {
    /// A chip that the first `at` events left opens with the records that the model has.
    fn check_chip(&mut self, moment: &str, chip: MemChip, at: usize) -> Result<()> {
        let opened = looked(self.alloc, chip, self.tried.look)?;
        self.tried.check_left(
            self.alloc,
            &mut self.verdict,
            moment,
            &opened,
            at,
            Left::Whole,
        )
    }

    /// The chip that is left where the call fails that does the event of this number opens with the
    /// records that the model has.
    fn check_left(&mut self, moment: &str, left: MemChip, number: usize) -> Result<()> {
        let tried = self.tried;
        if matches!(tried.events().get(number), Some(Event::Read(_, _))) {
            // Behind a read that fails a run ends, and calls go on.
            let goes_on = tried.start.goes_on();
            let at = if goes_on {
                tried.events().len()
            } else {
                number
            };
            return self.check_chip(moment, left, at);
        }
        self.check_chip(moment, left, number)?;
        // A write that fails may be done all the same.
        let at = number.saturating_add(1);
        let done = tried.whole.image(self.alloc, at as u64, &[])?;
        self.check_chip(moment, done, at)
    }

    /// The call that does the event of this number fails, which isn't done then, or is.
    fn fail_event(&mut self, number: usize, event: &Event) -> Result<()> {
        let (alloc, tried) = (self.alloc, self.tried);
        let call = calls_before(tried.events(), number);
        let moment = format!(in alloc; "call {call}")?;
        let ended = tried.start.run(alloc, Failing::Call(call))?;
        let said = said_in(alloc, tried.events(), number)?;
        let wanted = if tried.start.goes_on() {
            calls_end(alloc, tried, &said, event)?
        } else {
            run_end(alloc, &said, event)?
        };
        let end = ended.text(alloc)?;
        self.verdict
            .check(alloc, moment.as_str(), end.as_str(), wanted.as_str())?;
        if number >= tried.unpromised() {
            let left = copied(alloc, ended.desk.chip())?;
            self.check_left(moment.as_str(), left, number)?;
        }
        Ok(())
    }
}

/// Each call of the chip fails in turn, from the one on that does the event of this number.
pub fn fails(alloc: Global, tried: &Tried<'_>, first: usize) -> Result<String> {
    let mut failed = Failed {
        alloc,
        tried,
        verdict: Verdict::new(),
    };
    tried.check_replies(alloc, &mut failed.verdict)?;
    for (number, event) in tried.events().iter().enumerate().skip(first) {
        if failed.verdict.is_over() {
            break;
        }
        if !matches!(event, Event::Said(_)) {
            failed.fail_event(number, event)?;
        }
    }
    failed.verdict.text(alloc)
}
