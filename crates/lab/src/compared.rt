//! Many moments of a run, compared with the model.
use crate::cuts::Left;
use crate::ends::{Ended, end_text, said_in};
use crate::modelled::Modelled;
use crate::runs::{Start, looked};
use crate::words::text_of;
use anyhow::Result;
use chip_mem::MemChip;
use chip_trait::{Chip, Event};
use sector_format::Head;
use std::alloc::Global;

/// A run that is tried at many moments: what it began with, its chip as it was left, what the model
/// makes of the script, and the script by which records are looked at.
#[derive(Drop)]
pub struct Tried<'a> {
    pub start: &'a Start,
    pub whole: &'a MemChip,
    pub model: &'a Modelled,
    pub look: &'a [u8],
}

/// What was found so far: whether there was a moment, whether each commit was done exactly once its
/// sector is there, and the first moment that differs.
#[derive(Drop)]
pub struct Verdict {
    seen: bool,
    exact: bool,
    differs: Option<String>,
}

impl Verdict {
    /// Nothing was found yet.
    pub fn new() -> Verdict {
        Verdict {
            seen: false,
            exact: true,
            differs: None,
        }
    }

    /// Whether a moment differs.
    pub fn is_over(&self) -> bool {
        self.differs.is_some()
    }

    /// A moment at which this comes, where that has to come.
    pub fn check(&mut self, alloc: Global, moment: &str, got: &str, wanted: &str) -> Result<()> {
        self.seen = true;
        if got != wanted && self.differs.is_none() {
            self.differs = Some(format!(in alloc; "{moment}: {got}; not {wanted}")?);
        }
        Ok(())
    }

    /// What was found, in a line.
    pub fn text(&self, alloc: Global) -> Result<String> {
        match &self.differs {
            Some(text) => text_of(alloc, text.as_str()),
            None if !self.seen => text_of(alloc, "no moment"),
            None if self.exact => text_of(alloc, "as the model, each commit at its sector"),
            None => text_of(alloc, "as the model"),
        }
    }
}

/// The number of the commit sector that decides the command under way after the first `at` events: the
/// last one before its reply.
fn deciding(events: &[Event], at: usize) -> Option<usize> {
    let mut found = None;
    for (number, event) in events.iter().enumerate() {
        match event {
            Event::Said(_) => {
                if number >= at {
                    return found;
                }
                found = None;
            }
            Event::Program(_, sector, bytes) => {
                if *sector > 0 && bytes[4] == Head::COMMIT {
                    found = Some(number);
                }
            }
            _ => {}
        }
    }
    found
}

/// Whether a barrier is among the events from one of this number to below `at`.
fn has_barrier(events: &[Event], from: usize, at: usize) -> bool {
    events
        .get(from..at)
        .unwrap_or(&[])
        .iter()
        .any(|event| matches!(event, Event::Barrier))
}

/// Whether the commit sector that decides the command under way is there, after the first `at` events,
/// with the open sectors left so.
fn is_decided(events: &[Event], at: usize, left: Left) -> bool {
    match deciding(events, at) {
        Some(number) if number < at => left == Left::Whole || has_barrier(events, number, at),
        _ => false,
    }
}

impl Tried<'_> {
    /// The events of the whole run.
    pub fn events(&self) -> &[Event] {
        self.whole.events()
    }

    /// How many events come before anything is promised of the chip: those up to the last barrier of a
    /// format, where the words ask for one.
    pub fn unpromised(&self) -> usize {
        let mut barriers = if self.start.formats() { 2_u32 } else { 0 };
        for (number, event) in self.events().iter().enumerate() {
            if barriers == 0 {
                return number;
            }
            if matches!(event, Event::Barrier) {
                barriers = barriers.saturating_sub(1);
            }
        }
        self.events().len()
    }

    /// How many commands are answered in the first so many events.
    pub fn answered(&self, alloc: Global, at: usize) -> Result<usize> {
        Ok(
            self.model
                .answered(said_in(alloc, self.events(), at)?.len()),
        )
    }

    /// What the run said is a beginning of what the model says.
    pub fn check_replies(&self, alloc: Global, verdict: &mut Verdict) -> Result<()> {
        let said = said_in(alloc, self.events(), usize::MAX)?;
        if !self.model.said().starts_with(&said) {
            let got = end_text(alloc, 0, &said, &[])?;
            let wanted = end_text(alloc, 0, self.model.said(), &[])?;
            verdict.check(alloc, "replies", got.as_str(), wanted.as_str())?;
        }
        Ok(())
    }

    /// A look at a chip shows the records from after so many commands.
    pub fn check_records(
        &self,
        alloc: Global,
        verdict: &mut Verdict,
        moment: &str,
        chip: MemChip,
        commands: usize,
    ) -> Result<()> {
        let ended = looked(alloc, chip, self.look)?;
        let wanted = end_text(alloc, 0, self.model.look(commands), &[])?;
        verdict.check(alloc, moment, ended.text(alloc)?.as_str(), wanted.as_str())
    }

    /// A look at a chip that the first `at` events left, with the open sectors left so, shows the
    /// records from after the commands that were answered, or from after one more.
    pub fn check_left(
        &self,
        alloc: Global,
        verdict: &mut Verdict,
        moment: &str,
        ended: &Ended,
        at: usize,
        left: Left,
    ) -> Result<()> {
        let commands = self.answered(alloc, at)?;
        let text = ended.text(alloc)?;
        let before = end_text(alloc, 0, self.model.look(commands), &[])?;
        let after = end_text(alloc, 0, self.model.look(commands.saturating_add(1)), &[])?;
        let is_decided = is_decided(self.events(), at, left);
        let (decided, other) = if is_decided {
            (after, before)
        } else {
            (before, after)
        };
        if text.as_str() == other.as_str() && text.as_str() != decided.as_str() {
            verdict.exact = false;
            verdict.seen = true;
            return Ok(());
        }
        verdict.check(alloc, moment, text.as_str(), decided.as_str())
    }
}
