//! `ipl`: a store of short records over a chip, run by scripts. Here the chip and the desk are made, and `top` of ipl_cli
//! does the rest.
#![tactic(auto)]

use chip_image::{AttachFault, FileChip, NoChip};
use chip_mem::PlainChip;
use chip_trait::Chip;
use command_line::{Choice, End, NoteLine, Request, chip_choice, request, status};
use ipl_base::{Geometry, OutOfMemory};
use ipl_cli::RealDesk;
use ipl_cli::top::top;
use std::alloc::Global;
use std::env;
use std::io::{ErrorKind, Write};
use std::process::ExitCode;

/// Runs the words of the command line over the chip that they choose and the streams of the process.
fn main(rt: HostRuntime) -> ExitCode {
    let alloc = rt.alloc();
    let Ok(words) = words_of(&rt, alloc) else {
        return out_of_memory(&rt);
    };
    match chip_choice(alloc, &words) {
        Ok(Choice::Ram(places)) => over_memory(&rt, alloc, &words, places),
        Ok(Choice::File(places, path)) => over_file(&rt, alloc, &words, places, path.as_str()),
        // Where the words aren't valid, no chip is touched.
        Ok(Choice::Nothing) => over(&rt, alloc, &words, NoChip::of(0)),
        Err(_) => out_of_memory(&rt),
    }
}

/// The words of the command line, without the program's name. Where one of them isn't UTF-8 there are none, so that they
/// aren't valid.
fn words_of(rt: &HostRuntime, alloc: Global) -> Result<Vec<String>, OutOfMemory> {
    let mut words = Vec::new(alloc);
    match env::args(rt) {
        Ok(args) => {
            for word in args.skip(1) {
                if words.push(word).is_err() {
                    return Err(OutOfMemory);
                }
            }
        }
        Err(fault) if fault.kind() == ErrorKind::OutOfMemory => return Err(OutOfMemory),
        Err(_) => {}
    }
    Ok(words)
}

/// Runs the words over a blank chip in memory, which isn't made where a store can't use so many places.
fn over_memory(rt: &HostRuntime, alloc: Global, words: &[String], places: u32) -> ExitCode {
    if Geometry::of(places).is_none() {
        return over(rt, alloc, words, NoChip::of(places));
    }
    match PlainChip::new(alloc, places) {
        Ok(chip) => over(rt, alloc, words, chip),
        Err(_) => out_of_memory(rt),
    }
}

/// Runs the words over the chip in a file, which isn't touched where a store can't use so many places. A file that can't be
/// had is a chip of which no call succeeds.
fn over_file(
    rt: &HostRuntime,
    alloc: Global,
    words: &[String],
    places: u32,
    path: &str,
) -> ExitCode {
    if Geometry::of(places).is_none() {
        return over(rt, alloc, words, NoChip::of(places));
    }
    // A check and a listing write nothing, so a file that may only be read will do for them.
    let attached = match request(alloc, words) {
        Ok(Some(Request::Check | Request::Records)) => FileChip::attach_to_read(
            rt, alloc, path, places,
        ),
        _ => FileChip::attach(rt, alloc, path, places),
    };
    match attached {
        Ok(chip) => over(rt, alloc, words, chip),
        Err(AttachFault::NoFile) => over(rt, alloc, words, NoChip::of(places)),
        Err(AttachFault::OutOfMemory) => out_of_memory(rt),
    }
}

/// Runs the words over a chip.
fn over<C: Chip + Drop>(rt: &HostRuntime, alloc: Global, words: &[String], chip: C) -> ExitCode {
    let mut desk = RealDesk::new(chip, rt.stdin(), rt.stdout(), rt.stderr());
    ExitCode::from(top(alloc, words, &mut desk))
}

/// What is done where memory is wanting before there is a chip.
fn out_of_memory(rt: &HostRuntime) -> ExitCode {
    let _ = rt
        .stderr()
        .write_all(NoteLine::of(End::OutOfMemory).bytes());
    ExitCode::from(status(End::OutOfMemory))
}
