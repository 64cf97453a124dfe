//! `meter`: readings of meters, kept by keys on a flash part, as firmware would. A line of input is `METER DAY WH`.
//! Four readings are committed together, and fewer at a line that is empty or begins with `#`. At its end the power
//! goes off; then what was committed is said of each meter that the command line names, and the store is closed.
//! Proved: it is safe, its calls are on a sound store, a reading is read back as it was kept. The rest is tested.
#![tactic(auto)]

ghost use Rattle.meter.specs.Sound.{IsSoundFor};

mod meters;
mod reading;

use anyhow::{Result, bail};
use chip_trait::Chip;
use ipl_base::StoreFault;
use ipl_keys::KeyFault;
use meters::Meters;
use nand_2k::{MemPart, Nand2k};
use reading::parse;
use std::env;

fn main(rt: HostRuntime) -> Result<()> {
    // A part of 8 erase blocks in memory. Firmware has its driver here, and formats the part once.
    let mut chip = Nand2k::new(MemPart::new(rt.alloc(), 8)?);
    restart::format(&mut chip, 0)?;
    keep(&rt, &mut chip)?;
    println!(rt; "power off")?;
    report(&rt, &mut chip)
}

/// Opens the chip, and takes lines until the input ends; at a line `shutdown` the store is closed in order, and opened again.
fn keep<C: Chip>(rt: &HostRuntime, chip: &mut C) -> Result<()> {
    let memory = Meters::memory(rt.alloc(), chip.units())?;
    let mut meters = Meters::open(memory, chip)?;
    let mut number = 0u64;
    for line in rt.lines(rt.alloc()) {
        number = number.saturating_add(1);
        let line = line?;
        if line.as_str() == "shutdown" {
            let memory = meters.close(chip)?;
            println!(rt; "line {number}: shut down")?;
            // It is opened again in the memory that it had.
            meters = Meters::open(memory, chip)?;
            continue;
        }
        let taken = take(&mut meters, chip, line.as_str());
        tell(rt, number, taken)?;
    }
    Ok(())
}

/// Takes a line, and answers how many readings it committed; none where the line isn't a reading.
fn take<C: Chip>(meters: &mut Meters, chip: &mut C, line: &str) -> Result<Option<u32>, KeyFault>
    requires { IsSoundFor (C.told chip.old) meters.old }
    ensures { IsSoundFor (C.told chip.new) meters.new }
{
    if line.is_empty() || line.starts_with('#') {
        return Ok(Some(meters.commit(chip)?));
    }
    let Some((meter, reading)) = parse(line) else {
        return Ok(None);
    };
    Ok(Some(meters.put(chip, meter, reading)?))
}

/// Says what came of a line, where there is something to say. A fault of the chip ends the run.
fn tell(rt: &HostRuntime, number: u64, taken: Result<Option<u32>, KeyFault>) -> Result<()> {
    match taken {
        Ok(Some(0)) => {}
        Ok(Some(count)) => println!(rt; "line {number}: {count} committed")?,
        Ok(None) => println!(rt; "line {number}: not METER DAY WH")?,
        Err(KeyFault::Store(StoreFault::Chip(fault))) => bail!("{fault}"),
        Err(why) => println!(rt; "line {number}: {why}")?,
    }
    Ok(())
}

/// Opens the chip, says what it has of each meter that the command line names, and closes it.
fn report<C: Chip>(rt: &HostRuntime, chip: &mut C) -> Result<()> {
    let memory = Meters::memory(rt.alloc(), chip.units())?;
    let mut meters = Meters::open(memory, chip)?;
    for meter in env::args(rt)?.skip(1) {
        say(rt, &mut meters, chip, meter.as_str())?;
    }
    meters.close(chip)?;
    println!(rt; "closed")?;
    Ok(())
}

/// Says the last reading of a meter.
fn say<C: Chip>(rt: &HostRuntime, meters: &mut Meters, chip: &mut C, meter: &str) -> Result<()>
    requires { IsSoundFor (C.told chip.old) meters.old }
    ensures { IsSoundFor (C.told chip.new) meters.new }
{
    match meters.last(chip, meter)? {
        Some(last) => println!(rt; "{meter}: {} on {}", last.watt_hours, last.day)?,
        None => println!(rt; "{meter}: none")?,
    }
    Ok(())
}
