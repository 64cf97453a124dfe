//! The lines that calls of a store answer: a script's replies, or the text of a fault.
ghost use Rattle.std.specs.Prelude.{◌≡◌};
ghost use Rattle.ipl_cli.specs.MemDesk.{desk_told};

use crate::words::text_of;
use anyhow::{Result, ensure};
use chip_trait::Desk;
use ipl_base::{ImageFault, Refusal, StoreFault};
use ipl_cli::MemDesk;
use ipl_keys::KeyFault;
use ipl_model::Reply;
use script_text::{TextLine, print};
use std::alloc::Global;

/// The lines of calls in which a read of the chip failed, and a write.
pub const READ_FAILED: &str = "chip read failed\n";

pub const WRITE_FAILED: &str = "chip write failed\n";

/// The line of each call of a store that is down.
pub const DOWN: &str = "the store is down until it is opened again\n";

/// The line of a call that is refused.
fn refused_line(alloc: Global, refusal: Refusal) -> Result<String> {
    let mut line = TextLine::empty();
    print(&Reply::Refused(refusal), &mut line);
    text_of(alloc, str::from_utf8(line.bytes())?)
}

/// The line of a call that was not done.
fn fault_line(alloc: Global, fault: StoreFault) -> Result<String> {
    match fault {
        StoreFault::Refused(refusal) => refused_line(alloc, refusal),
        _ => Ok(format!(in alloc; "{fault}\n")?),
    }
}

/// The line of a call on a key that was not done.
pub fn key_line(alloc: Global, fault: KeyFault) -> Result<String> {
    match fault {
        KeyFault::Store(fault) => fault_line(alloc, fault),
        _ => Ok(format!(in alloc; "{fault}\n")?),
    }
}

/// The line of a call that found these bytes, or none.
pub fn bytes_line(alloc: Global, found: Option<&[u8]>) -> Result<String> {
    match found {
        None => text_of(alloc, "none\n"),
        Some([]) => text_of(alloc, "value -\n"),
        Some(bytes) => Ok(format!(in alloc; "value {}\n", hex::encode(alloc, bytes)?)?),
    }
}

/// The line of a call that lends what it finds.
pub fn found_line(alloc: Global, answer: Result<Option<&[u8]>, StoreFault>) -> Result<String> {
    match answer {
        Ok(found) => bytes_line(alloc, found),
        Err(fault) => fault_line(alloc, fault),
    }
}

/// The line of a call that lends nothing.
pub fn done_line(alloc: Global, answer: Result<(), StoreFault>) -> Result<String> {
    match answer {
        Ok(()) => text_of(alloc, "ok\n"),
        Err(fault) => fault_line(alloc, fault),
    }
}

/// The line of an opening.
pub fn opened_line(alloc: Global, answer: Result<(), ImageFault>) -> Result<String> {
    match answer {
        Ok(()) => text_of(alloc, "ok\n"),
        Err(fault) => Ok(format!(in alloc; "{fault}\n")?),
    }
}

/// Says a line.
pub fn say(desk: &mut MemDesk, line: &str) -> Result<()>
    ensures { (desk_told desk.new).places ≡ (desk_told desk.old).places }
{
    let bytes = line.as_bytes();
    ensure!(!bytes.is_empty() && bytes.len() <= 1024, "no line");
    ensure!(desk.say(bytes).is_ok(), "no room for what is said");
    Ok(())
}
