//! The line that is noted where the program ends before its script does.
ghost use Rattle.std.specs.Prelude.{◌≡◌, ◌≤◌, ◌+◌, ◌++◌, ℕ, List, length};
ghost use Rattle.ipl_base.specs.declared.fault.ChipFault.TheVariants.{Damaged};
ghost use Rattle.command_line.specs.Ends.{chip_text, end_text, fault_text, note_of, spot_text, sum_text};

use crate::end::End;
use ipl_base::{ChipFault, ImageFault};
use script_text::TextLine;
use std::marker::Model;

/// The line that is noted, with its line feed, at most 128 bytes. A contract sees it as a list.
#[derive(Debug, Drop)]
pub struct NoteLine {
    line: TextLine,
}

impl Model for NoteLine {
    ghost Value = { List ℕ };

    ghost view = { λ v. v.line };

    ghost invariant = { λ v. length v.line ≤ 128 };
}

impl NoteLine {
    /// The line of an end.
    pub fn of(end: End) -> NoteLine
        ensures { result ≡ note_of end }
    {
        let mut line = TextLine::empty();
        line.push(b"ipl: ");
        push_end(&mut line, end);
        line.push(b"\n");
        NoteLine { line }
    }

    /// The bytes of the line.
    pub fn bytes(&self) -> &[u8]
        ensures { result.now ≡ self.now }
    {
        self.line.bytes()
    }
}

/// Appends a sum in eight hex digits.
fn push_sum(line: &mut TextLine, sum: u32)
    requires { length line.old + 8 ≤ 128 }
    ensures text { line.new ≡ line.old ++ sum_text sum }
    ensures len { length line.new ≡ length line.old + 8 }
{
    let mut digits = [0u8; 8];
    let _ = hex::encode_to_slice(sum.to_be_bytes(), &mut digits);
    line.push(&digits);
}

/// Appends a place and a sector of it.
fn push_spot(line: &mut TextLine, place: u32, sector: u32)
    requires { length line.old + 34 ≤ 128 }
    ensures text { line.new ≡ line.old ++ spot_text place sector }
    ensures len { length line.new ≤ length line.old + 34 }
{
    line.push(b"place ");
    line.push_number(place);
    line.push(b" sector ");
    line.push_number(sector);
}

/// Appends a damaged sector, with the sum that is stored in it and the one that is computed.
fn push_damaged(line: &mut TextLine, place: u32, sector: u32, stored: u32, computed: u32)
    requires { length line.old + 76 ≤ 128 }
    ensures text { line.new ≡ line.old ++ chip_text (Damaged place sector stored computed) }
    ensures len { length line.new ≤ length line.old + 76 }
{
    line.push(b"damaged ");
    push_spot(line, place, sector);
    line.push(b" stored ");
    push_sum(line, stored);
    line.push(b" computed ");
    push_sum(line, computed);
}

/// Appends what a chip did not do, or what it held that it must not hold.
fn push_chip_fault(line: &mut TextLine, fault: ChipFault)
    requires { length line.old + 76 ≤ 128 }
    ensures text { line.new ≡ line.old ++ chip_text fault }
    ensures len { length line.new ≤ length line.old + 76 }
{
    match fault {
        ChipFault::ReadFault => line.push(b"chip read failed"),
        ChipFault::Stopped => line.push(b"chip write failed"),
        ChipFault::Damaged {
            place,
            sector,
            stored,
            computed,
        } => push_damaged(line, place, sector, stored, computed),
        ChipFault::Malformed { place, sector } => {
            line.push(b"malformed ");
            push_spot(line, place, sector);
        }
        ChipFault::WornOut(places) => {
            line.push(b"worn out ");
            line.push_number(places);
        }
    }
}

/// Appends why an image can't be opened.
fn push_fault(line: &mut TextLine, fault: ImageFault)
    requires { length line.old + 76 ≤ 128 }
    ensures text { line.new ≡ line.old ++ fault_text fault }
    ensures len { length line.new ≤ length line.old + 76 }
{
    match fault {
        ImageFault::Geometry => line.push(b"geometry"),
        ImageFault::NotFormatted => line.push(b"not formatted"),
        ImageFault::Missing(unit) => {
            line.push(b"missing unit ");
            line.push_number(unit);
        }
        ImageFault::Chip(fault) => push_chip_fault(line, fault),
        ImageFault::Spent => line.push(b"numbers spent"),
        ImageFault::NoSpare(places) => {
            line.push(b"no spare ");
            line.push_number(places);
        }
        ImageFault::TooManyNumbers => line.push(b"too many numbers"),
    }
}

/// Appends why the program ends.
fn push_end(line: &mut TextLine, end: End)
    requires { length line.old + 76 ≤ 128 }
    ensures text { line.new ≡ line.old ++ end_text end }
    ensures len { length line.new ≤ length line.old + 76 }
{
    match end {
        End::Words => line.push(b"bad command line"),
        End::Chip(fault) => push_fault(line, fault),
        End::OutOfMemory => line.push(b"out of memory"),
        End::Script => line.push(b"script failed"),
        End::Output => line.push(b"output failed"),
        End::TooLong => line.push(b"script too long"),
    }
}
