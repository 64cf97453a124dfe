//! A script is read to its end, in whatever pieces its bytes come, and its commands are kept.
ghost use Rattle.std.specs.Prelude.{◌≡◌, ◌<◌, ◌∷◌, ◌++◌, [], ℕ, List, length, IfOk, IfErr, OnOk, Some};
ghost use Rattle.ipl_model.specs.Grammar.{line_of, commands_in};
ghost use Rattle.script_run.specs.Goes.{ReadsPiece};
ghost use Rattle.script_run.specs.View.{GathersCommands, ReadsScript, IsReading, HasReadAll, ViewCause};

use crate::ViewStop;
use crate::buffer::LineBuffer;
use chip_trait::Desk;
use ipl_model::{Command, Line};
use script_text::parse;
use std::alloc::{AllocError, Global};

/// The most bytes that are read at once.
const PIECE: usize = 4096;

/// A script of this many bytes is too long.
const TOO_MANY: u64 = 4_294_967_295;

/// Keeps the command of a line, if it is one.
fn take_line(commands: &mut Vec<Command>, line: &[u8]) -> Result<(), AllocError>
    ensures { OnOk result (commands.new.items ≡ commands.old.items ++ commands_in (line_of line.now)) }
{
    match parse(line) {
        Line::Skip => {}
        Line::Do(command) => commands.push(command)?,
    }
    Ok(())
}

/// Takes a byte of the script: keeps the command of the line that it ends, or the byte.
fn take_byte(commands: &mut Vec<Command>, line: &mut LineBuffer, byte: u8) -> Result<(), AllocError>
    ensures { OnOk result (GathersCommands (byte ∷ []) commands.old.items line.old commands.new.items line.new) }
{
    if byte == b'\n' {
        take_line(commands, line.bytes())?;
        line.clear();
        return Ok(());
    }
    line.push(byte);
    Ok(())
}

/// Takes a piece of the script.
fn take_piece(
    commands: &mut Vec<Command>,
    line: &mut LineBuffer,
    piece: &[u8],
) -> Result<(), AllocError>
    ensures { OnOk result (GathersCommands piece.now commands.old.items line.old commands.new.items line.new) }
{
    for byte in piece {
        take_byte(commands, line, *byte)?;
    }
    Ok(())
}

/// Reads a piece of the script into `piece`, and takes it. Answers how many bytes it had, 0 at the end.
fn take_next<D: Desk>(
    desk: &mut D,
    commands: &mut Vec<Command>,
    line: &mut LineBuffer,
    piece: &mut [u8],
) -> Result<usize, ViewStop>
    requires { 0 < length piece.old }
    // Only the script is read; what came joins the commands, and at its end those are all.
    ensures reads { ReadsScript (D.told desk.old) (D.told desk.new) }
    ensures goes { IfOk result (λ n. (script : List ℕ)
        → IsReading script commands.old.items line.old (D.told desk.old)
        → IsReading script commands.new.items line.new (D.told desk.new)) }
    ensures ends { IfOk result (λ n. n ≡ 0 → (script : List ℕ)
        → IsReading script commands.old.items line.old (D.told desk.old)
        → HasReadAll script (commands.new.items ++ commands_in (line_of line.new)) (D.told desk.new)) }
    // How many bytes it were.
    ensures read { IfOk result (λ n. ReadsPiece (length piece.old) n (D.told desk.old) (D.told desk.new)) }
    // Each stop has its cause, and it never finds the script too long.
    ensures cause { IfErr result (λ stop. ViewCause (D.told desk.old) (D.told desk.new) stop) }
    ensures never { IfErr result (λ stop. stop ≡ ViewStop.TooLong → ⊥) }
{
    match desk.read_script(piece) {
        Ok(count) => {
            take_piece(commands, line, &piece[..count])?;
            Ok(count)
        }
        Err(_) => Err(ViewStop::Script),
    }
}

/// Reads the rest of the script, and answers its commands. The last line may lack its line feed.
pub(crate) fn read_commands<D: Desk>(alloc: Global, desk: &mut D) -> Result<Vec<Command>, ViewStop>
    ensures reads { ReadsScript (D.told desk.old) (D.told desk.new) }
    ensures all { IfOk result (λ commands. (script : List ℕ)
        → (D.told desk.old).beside.left ≡ Some script
        → HasReadAll script commands.items (D.told desk.new)) }
    ensures cause { IfErr result (λ stop. ViewCause (D.told desk.old) (D.told desk.new) stop) }
{
    let mut commands = Vec::new(alloc);
    let mut line = LineBuffer::new();
    let mut piece = [0u8; PIECE];
    let mut total: u64 = 0;
    while total < TOO_MANY {
        // The last piece is cut so that the limit is met exactly.
        let most = (TOO_MANY - total).min(PIECE as u64) as usize;
        let count = take_next(desk, &mut commands, &mut line, &mut piece[..most])?;
        if count == 0 {
            take_line(&mut commands, line.bytes())?;
            return Ok(commands);
        }
        total += count as u64;
    }
    Err(ViewStop::TooLong)
}
