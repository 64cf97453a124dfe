//! Runs of the program over desks in memory.
use crate::calls::calls;
use crate::ends::Ended;
use crate::keys::keys;
use crate::words::{number, parted, text_of};
use anyhow::Result;
use chip_mem::MemChip;
use chip_trait::Chip;
use ipl_cli::top::top;
use ipl_cli::{FailingSay, MemDesk};
use std::alloc::Global;

/// What a run begins with: a chip, the places of it that are found worn, the sizes of the pieces in
/// which the script is read, the words and the script.
#[derive(Drop)]
pub struct Start {
    pub chip: MemChip,
    pub worn: Vec<u32>,
    pub pieces: Vec<u32>,
    pub words: String,
    pub script: Vec<u8>,
}

/// What fails in a run: a call of the chip, a read of the script, or a saying.
#[derive(Clone, Copy)]
pub enum Failing {
    Nothing,
    Call(u64),
    Read(u64),
    Saying(FailingSay),
}

/// A chip that holds the same, and was asked nothing yet.
pub fn copied(alloc: Global, chip: &MemChip) -> Result<MemChip> {
    Ok(chip.image(alloc, u64::MAX, &[])?)
}

/// The status that the words of a line end with, over a desk.
pub fn ends(alloc: Global, line: &str, desk: &mut MemDesk) -> Result<u8> {
    let mut words = Vec::new(alloc);
    for word in line.split(' ') {
        if !word.is_empty() {
            words.push(text_of(alloc, word)?)?;
        }
    }
    Ok(top(alloc, &words, desk))
}

/// A chip is opened and its records are looked at, by this script.
pub fn looked(alloc: Global, chip: MemChip, look: &[u8]) -> Result<Ended> {
    let line = format!(in alloc; "run ram:{}", chip.units())?;
    let mut desk = MemDesk::new(alloc, chip, look, &[])?;
    let status = ends(alloc, line.as_str(), &mut desk)?;
    Ok(Ended { status, desk })
}

impl Start {
    /// A desk over a copy of the chip, where this fails.
    fn desk(&self, alloc: Global, failing: Failing) -> Result<MemDesk> {
        let mut chip = copied(alloc, &self.chip)?;
        chip.wear_out(Vec::from_slice(alloc, &self.worn)?);
        if let Failing::Call(call) = failing {
            chip.fail_at(Vec::from_slice(alloc, &[call])?);
        }
        let mut desk = MemDesk::new(alloc, chip, &self.script, &self.pieces)?;
        match failing {
            Failing::Read(read) => desk.fail_reads(Vec::from_slice(alloc, &[read])?),
            Failing::Saying(say) => desk.fail_says(Vec::from_slice(alloc, &[say])?),
            Failing::Nothing | Failing::Call(_) => {}
        }
        Ok(desk)
    }

    /// The run, where this fails.
    pub fn run(&self, alloc: Global, failing: Failing) -> Result<Ended> {
        let mut desk = self.desk(alloc, failing)?;
        let status = match parted(self.words.as_str()) {
            ("calls", frames) => calls(alloc, number(frames)?, &mut desk, &self.script)?,
            ("keys", frames) => {
                keys(alloc, number(frames)?, &mut desk, &self.script)?;
                0
            }
            _ => ends(alloc, self.words.as_str(), &mut desk)?,
        };
        Ok(Ended { status, desk })
    }

    /// The script's commands are calls of a store, which go on behind one that fails.
    pub fn goes_on(&self) -> bool {
        self.words.as_str().starts_with("calls")
    }

    /// The words format the chip first.
    pub fn formats(&self) -> bool {
        let words = self.words.as_str();
        words.contains("format") || words.starts_with("trial")
    }
}
