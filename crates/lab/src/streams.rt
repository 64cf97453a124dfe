//! Each read of a script fails in turn, and each saying.
use crate::compared::{Tried, Verdict};
use crate::ends::end_text;
use crate::runs::{Failing, copied};
use anyhow::Result;
use ipl_cli::FailingSay;
use std::alloc::Global;

/// How many commands stand in the whole lines of the first so many bytes of a script.
fn heard(script: &[u8], count: usize) -> usize {
    let mut commands = 0_usize;
    let mut is_first = true;
    let mut is_command = false;
    for byte in script.iter().take(count) {
        if *byte == b'\n' {
            if is_command {
                commands = commands.saturating_add(1);
            }
            is_first = true;
            is_command = false;
        } else if is_first {
            is_first = false;
            is_command = *byte != b'#';
        }
    }
    commands
}

/// A run that fails so ends with this status, says this, and leaves the records from after so many
/// commands.
fn fail_stream(
    alloc: Global,
    tried: &Tried<'_>,
    verdict: &mut Verdict,
    failing: Failing,
    wanted: &str,
    commands: usize,
) -> Result<()> {
    let moment = match failing {
        Failing::Saying(say) => format!(in alloc; "saying {}, {} kept", say.number, say.kept)?,
        Failing::Read(read) => format!(in alloc; "read {read}")?,
        Failing::Call(_) | Failing::Nothing => String::new(alloc),
    };
    let ended = tried.start.run(alloc, failing)?;
    verdict.check(alloc, moment.as_str(), ended.text(alloc)?.as_str(), wanted)?;
    let left = copied(alloc, ended.desk.chip())?;
    tried.check_records(alloc, verdict, moment.as_str(), left, commands)
}

/// The read fails behind so many bytes of the script.
fn fail_read(
    alloc: Global,
    tried: &Tried<'_>,
    verdict: &mut Verdict,
    read: usize,
    count: usize,
) -> Result<()> {
    let commands = heard(&tried.start.script, count);
    let said = tried.model.said_of(commands);
    let wanted = end_text(alloc, 6, said, b"ipl: script failed\n")?;
    let failing = Failing::Read(read as u64);
    fail_stream(alloc, tried, verdict, failing, wanted.as_str(), commands)
}

/// Each read of a script fails in turn, the last of which would find its end. The script is read in
/// pieces, the sizes of which are given.
pub fn unheards(alloc: Global, tried: &Tried<'_>) -> Result<String> {
    let mut verdict = Verdict::new();
    let mut count = 0_usize;
    for (read, piece) in tried.start.pieces.iter().enumerate() {
        if verdict.is_over() {
            break;
        }
        fail_read(alloc, tried, &mut verdict, read, count)?;
        if count >= tried.start.script.len() {
            return verdict.text(alloc);
        }
        count = count.saturating_add(*piece as usize);
    }
    verdict.text(alloc)
}

/// The saying of this number fails, of which so many bytes are kept.
fn fail_saying(
    alloc: Global,
    tried: &Tried<'_>,
    verdict: &mut Verdict,
    say: FailingSay,
    start: usize,
) -> Result<()> {
    let end = start.saturating_add(say.kept as usize);
    let said = tried.model.said().get(..end).unwrap_or(&[]);
    let wanted = end_text(alloc, 7, said, b"ipl: output failed\n")?;
    // The command was done before its reply.
    let commands = tried.model.answered(start).saturating_add(1);
    let failing = Failing::Saying(say);
    fail_stream(alloc, tried, verdict, failing, wanted.as_str(), commands)
}

/// Each saying fails in turn: none of the bytes of its line is said, one, or all but one.
pub fn unsaids(alloc: Global, tried: &Tried<'_>) -> Result<String> {
    let mut verdict = Verdict::new();
    let mut start = 0_usize;
    let lines = tried.model.said().split(|byte| *byte == b'\n');
    for (number, line) in lines.enumerate() {
        if line.is_empty() || verdict.is_over() {
            break;
        }
        // A reply's line has at most 1,024 bytes.
        for kept in [0, 1, line.len().min(1024) as u32] {
            let number = number as u64;
            let say = FailingSay { number, kept };
            fail_saying(alloc, tried, &mut verdict, say, start)?;
        }
        start = start.saturating_add(line.len()).saturating_add(1);
    }
    verdict.text(alloc)
}
