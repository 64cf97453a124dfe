//! A script to its end, in whatever pieces its bytes come.
ghost use Rattle.std.specs.Prelude.{◌≡◌, ◌*◌, ◌∷◌, ◌<◌, [], ℕ, length, IfOk, OnOk, IsErrOf, is_ok};
ghost use Rattle.std.specs.List.{position};
ghost use Rattle.ipl_model.specs.Grammar.{is_line_feed};
ghost use Rattle.store_trait.specs.Onward.{Further};
ghost use Rattle.store_trait.specs.Keeping.{Draws, LeavesTidy, COMMAND_DRAWS, SCRIPT_DRAWS};
ghost use Rattle.script_run.specs.Goes.{EndsReplied, FitsDesk, Along, LearnsAlong, CompletesOver, DrawsPiece, ReadsPiece, EndsScript, TakesAlong, TakesPiece, RunsScript};

use crate::Stop;
use crate::answer::answer_line;
use crate::buffer::LineBuffer;
use chip_trait::Desk;
use store_trait::{Fault, Store};

/// The most bytes that are read at once.
const PIECE: usize = 4096;

/// A script of this many bytes is too long.
const TOO_MANY: u64 = 4_294_967_295;

/// Where the first line feed is, if there is one.
fn line_feed(bytes: &[u8]) -> Option<usize>
    ensures { result ≡ position is_line_feed bytes.now }
{
    bytes.iter().position(|b| *b == b'\n')
}

/// Takes a line feed of the script: answers the line that it ends.
fn end_line<S: Store, D: Desk>(
    store: &mut S,
    desk: &mut D,
    line: &mut LineBuffer,
) -> Result<(), Stop>
    ghost places: { ℕ }
    requires { FitsDesk (S.keeping places S.all) places store.old (D.told desk.old) }
    ensures { (known : S.Known) → TakesAlong (S.keeping places known) (10 ∷ []) COMMAND_DRAWS store.old line.old (D.told desk.old) result
        store.new line.new (D.told desk.new) }
{
    let answered = answer_line(store, desk, line.bytes());
    line.clear();
    answered
}

/// Takes a piece of the script: answers each line that ends in it, and keeps the rest. The bytes before a line feed are
/// kept at once: a line with a value is long.
fn take_piece<S: Store, D: Desk>(
    store: &mut S,
    desk: &mut D,
    line: &mut LineBuffer,
    piece: &[u8],
) -> Result<(), Stop>
    ghost places: { ℕ }
    requires { FitsDesk (S.keeping places S.all) places store.old (D.told desk.old) }
    ensures { (known : S.Known) → TakesAlong (S.keeping places known) piece.now (COMMAND_DRAWS * length piece.now) store.old line.old
        (D.told desk.old) result store.new line.new (D.told desk.new) }
{
    let mut at = 0;
    while let Some(count) = line_feed(&piece[at..]) {
        line.extend(&piece[at..at + count]);
        end_line(store, desk, line)?;
        at += count + 1;
    }
    line.extend(&piece[at..]);
    Ok(())
}

/// Reads a piece of the script into `piece`, and takes it. Answers how many bytes it had, 0 at the end.
fn take_next<S: Store, D: Desk>(
    store: &mut S,
    desk: &mut D,
    line: &mut LineBuffer,
    piece: &mut [u8],
) -> Result<usize, Stop>
    ghost places: { ℕ }
    requires some { 0 < length piece.old }
    requires suits { FitsDesk (S.keeping places S.all) places store.old (D.told desk.old) }
    ensures takes { (known : S.Known) → TakesPiece (S.keeping places known) store.old line.old (D.told desk.old) result store.new line.new
        (D.told desk.new) }
    ensures along { (known : S.Known) → Along (S.keeping places known) Further (COMMAND_DRAWS * length piece.old) store.old
        (D.told desk.old) result store.new (D.told desk.new) }
    ensures completes { (known : S.Known) → CompletesOver (S.keeping places known) (COMMAND_DRAWS * length piece.old) store.old
        (D.told desk.old) result store.new (D.told desk.new) }
    ensures last { OnOk result (EndsReplied (D.told desk.old) (D.told desk.new)) }
    // How many bytes it were, and what they draw.
    ensures read { IfOk result (λ n. ReadsPiece (length piece.old) n (D.told desk.old) (D.told desk.new)) }
    ensures draws { (known : S.Known) → IfOk result (λ n. DrawsPiece (S.keeping places known) n store.old (D.told desk.old) result store.new
        (D.told desk.new)) }
{
    match desk.read_script(piece) {
        Ok(count) => {
            take_piece(store, desk, line, &piece[..count])?;
            Ok(count)
        }
        Err(_) => Err(Stop::Script),
    }
}

/// Runs the rest of a script: to its end, where the last line may lack its line feed, or to the first fault. Whatever
/// moment the power is cut at, the chip stands for the records after the commands whose replies were said, or after one more.
pub fn run_script<S: Store, D: Desk>(store: &mut S, desk: &mut D) -> Result<(), Stop>
    ghost places: { ℕ }
    requires { FitsDesk (S.keeping places S.all) places store.old (D.told desk.old) }
    ensures run { (known : S.Known) → RunsScript (S.keeping places known) store.old (D.told desk.old) result store.new (D.told desk.new) }
    ensures tidy { (known : S.Known) → LeavesTidy (S.keeping places known) store.old store.new (D.told desk.old) (D.told desk.new) (is_ok result) }
    ensures draws { (known : S.Known) → Draws (S.keeping places known) SCRIPT_DRAWS store.old (IsErrOf result (Stop.Store Fault.Spent)) store.new }
    ensures learns { (known : S.Known) → LearnsAlong (S.keeping places known) store.old (D.told desk.old) result store.new (D.told desk.new) }
    ensures completes { (known : S.Known) → CompletesOver (S.keeping places known) SCRIPT_DRAWS store.old (D.told desk.old) result store.new
        (D.told desk.new) }
    ensures further { Further (D.told desk.old) (D.told desk.new) }
    ensures ends { (known : S.Known) → EndsScript (S.keeping places known) (D.told desk.old) result (D.told desk.new) }
    ensures suited { OnOk result ((S.keeping places S.all).suits store.new) }
{
    let mut line = LineBuffer::new();
    let mut piece = [0u8; PIECE];
    let mut total: u64 = 0;
    while total < TOO_MANY {
        // The last piece is cut so that the limit is met exactly.
        let most = (TOO_MANY - total).min(PIECE as u64) as usize;
        let count = take_next(store, desk, &mut line, &mut piece[..most])?;
        if count == 0 {
            return answer_line(store, desk, line.bytes());
        }
        total += count as u64;
    }
    Err(Stop::TooLong)
}
