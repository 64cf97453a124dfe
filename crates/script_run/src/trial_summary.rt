//! The lines of a summary.
ghost use Rattle.std.specs.Prelude.{◌≡◌, ◌≤◌, ℕ, List, length, All};
ghost use Rattle.crc_sum.specs.Crc.{crc};
ghost use Rattle.ipl_model.specs.Run.{joined_lines};
ghost use Rattle.script_run.specs.TrialSummary.{HasByte, HasTaken, number_line, sum_line, summary_lines};

use crate::trial_records::Records;
use crate::trial_tally::Tally;
use script_text::TextLine;

/// A word and a number, with a line feed.
fn number_line(word: &[u8], number: u32) -> TextLine
    requires { length word.now ≤ 200 }
    ensures line { result ≡ number_line word.now number }
    ensures some { HasByte result }
{
    let mut line = TextLine::empty();
    line.push(word);
    line.push(b" ");
    line.push_number(number);
    line.push(b"\n");
    line
}

/// A word and a sum in eight hex digits, with a line feed.
fn sum_line(word: &[u8], sum: u32) -> TextLine
    requires { length word.now ≤ 200 }
    ensures line { result ≡ sum_line word.now sum }
    ensures some { HasByte result }
{
    let mut digits = [0u8; 8];
    let _ = hex::encode_to_slice(sum.to_be_bytes(), &mut digits);
    let mut line = TextLine::empty();
    line.push(word);
    line.push(b" ");
    line.push(&digits);
    line.push(b"\n");
    line
}

/// The six lines that are said of a trial, with their line feeds: what was counted of its commands,
/// how many records were taken, and the CRC-32 of their lines.
pub fn summary_lines(tally: &Tally, records: &Records) -> [TextLine; 6]
    ensures lines { (lines : List (List ℕ)) → HasTaken records.now lines
        → result ≡ summary_lines tally.now (length lines) (crc (joined_lines lines)) }
    ensures some { All HasByte result }
{
    [
        number_line(b"commands", tally.commands()),
        number_line(b"commits", tally.commits()),
        number_line(b"aborts", tally.aborts()),
        number_line(b"conflicts", tally.conflicts()),
        number_line(b"records", records.count()),
        sum_line(b"crc", records.sum()),
    ]
}
