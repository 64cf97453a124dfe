//! `keys`: values by keys, over a chip. Each line of the standard input is a command of a session, and
//! one line is answered: `begin S`, `get S KEY`, `put S KEY VALUE`, `del S KEY`, `commit S`, `abort S`.
//! The one word of the command line names the chip as `ipl` names it, `ram:N` or `file:N:PATH`; without
//! one it is `ram:57`. A chip in memory, and a file that isn't there yet, are formatted first.
//!
//! It shows how a program calls `ipl_keys`. Proved is that it is safe, and that each call is made on a
//! store that is sound for its chip; what it says is tested.
#![tactic(auto)]

mod answer;
mod line;
mod serving;

use anyhow::{Result, bail, ensure};
use chip_image::FileChip;
use chip_mem::PlainChip;
use command_line::{Choice, chip_choice};
use ipl_base::Geometry;
use restart::format;
use serving::serve;
use std::alloc::Global;
use std::{env, fs};

/// Answers the lines of the standard input over the chip that the word chooses.
fn main(rt: HostRuntime) -> Result<()> {
    match choice(&rt, rt.alloc())? {
        Choice::Ram(places) => over_memory(&rt, places),
        Choice::File(places, path) => over_file(&rt, places, path.as_str()),
        Choice::Nothing => bail!("a chip is ram:N or file:N:PATH"),
    }
}

/// The chip that the word of the command line chooses.
fn choice(rt: &HostRuntime, alloc: Global) -> Result<Choice> {
    // The words of `ipl` that name a chip and ask nothing else of it.
    let mut words = Vec::new(alloc);
    words.push(String::from_str(alloc, "run")?)?;
    for word in env::args(rt)?.skip(1) {
        words.push(word)?;
    }
    if words.len() == 1 {
        words.push(String::from_str(alloc, "ram:57")?)?;
    }
    ensure!(words.len() == 2, "more than one word");
    Ok(chip_choice(alloc, &words)?)
}

/// Serves a chip in memory.
fn over_memory(rt: &HostRuntime, places: u32) -> Result<()> {
    let mut chip = PlainChip::new(rt.alloc(), places)?;
    format(&mut chip, 0)?;
    serve(rt, rt.alloc(), chip)
}

/// Serves a chip in a file. Only a file that isn't there is formatted.
fn over_file(rt: &HostRuntime, places: u32, path: &str) -> Result<()> {
    ensure!(Geometry::of(places).is_some(), "geometry");
    let is_there = fs::exists(rt, path)?;
    let mut chip = FileChip::attach(rt, rt.alloc(), path, places)?;
    if !is_there {
        format(&mut chip, 0)?;
    }
    serve(rt, rt.alloc(), chip)
}
