//! `lab`: scenes of the program over chips in memory, and what comes of each. Each line of the standard
//! input is printed as it is, and what comes of it stands below it, behind two spaces; a line that is
//! empty or begins with `#` asks for nothing. So `stdout` reads as a document, and `stdin` is the same
//! without the answers. A new scene is new lines, and no new function.
//!
//! What the next run begins with:
//!
//! - `chip PLACES`: a blank chip; `chip PLACES EVENTS`, with room for more events than a run mostly has.
//! - `next`: the chip as the run left it. `stop N`: as a cut leaves it before the run's header of this
//!   number, from 1 on, with each open sector as it was meant to be.
//! - `wear PLACES`: from now on these places are found worn, and no others.
//! - `pieces SIZES`: from now on the script is read in pieces of so many bytes; `137*80` is one size
//!   80 times. Behind them, and where a size is 0, as many are read as fit.
//! - `alter PLACE SECTOR BYTE VALUE`: a byte of the chip is changed. `write PLACE SECTOR SPELLED`: a
//!   sector is.
//! - `look SCRIPT`: from now on a chip's records are looked at so, with `list` alone.
//!
//! Runs, each of which says its status, what it said and what it noted:
//!
//! - `run WORDS | SCRIPT`: the program with the words before the stroke. Words that begin with `format`,
//!   `serial`, `check` or `trial` stand so too, and any others behind `ipl`.
//! - `then WORDS`: it is run again over the same desk, with what is left of the script.
//! - `calls FRAMES | CALLS`: a store with so many frames opens the chip. The calls are a script's
//!   commands, but `list`, and `committed NAME`, `hold UNIT PAGE`, `release UNIT PAGE` and `close`; each
//!   says what it answers, as a script's reply, or the text of its fault. They go on behind a call that
//!   fails, and one in which a read of the chip failed is made once more. The status is 3 where a write
//!   failed. `keys FRAMES | CALLS`: the same on values by keys, with `begin`, `get SESSION KEY`, `put
//!   SESSION KEY VALUE`, `del SESSION KEY`, `commit`, `abort` and `close`, and no call is made twice.
//! - `with PLACE SECTOR SPELLED`: the same run over the chip as it was, but for this sector.
//! - `fail N`, `unheard N`, `unsaid N KEPT`: the same run, where the call of the chip of this number
//!   fails, the read of the script, or the saying, of which so many bytes are said all the same; and
//!   what is looked at on the chip then. It is the last run from there on.
//!
//! Many moments of the last run, of which it is said alone whether all came as the model says:
//!
//! - `cuts FIRST STEP`: the chip as a cut leaves it after each event of the run from there on, by steps;
//!   with a minus sign FIRST is counted from the end. What is open is left old, whole and torn.
//!   `cuts FIRST STEP twice`: the opening of what is left is cut too, in its status header.
//! - `fails FIRST`: each call of the chip fails in turn, from the event of this number on, and a write
//!   that fails isn't done, or is. Calls of a store go on: behind a read that failed as if it hadn't, and
//!   behind a write each answers that the store is down.
//! - `unheards`: each read of the script fails in turn. `unsaids`: each saying, of which none of its
//!   bytes is said, one, or all but one.
//!
//! What the last run asked of the chip:
//!
//! - `story`: its events by their kinds. `last`: the kind of the last one. `reads`: how many sectors
//!   were read. `erases`: which places were erased or found worn. `headers`: at which places headers
//!   were programmed, and how often these say that they were erased. `headers KIND`: how many of this
//!   kind.
//! - `sector PLACE SECTOR`: what the chip has there that the run left.
//!
//! A script stands on one line, with a stroke for each line feed, and replies stand so too. `61*108` is
//! 61 so often, and `ok*3/` in a reply so many lines. `{1 7: put 0 @ %/}` stands for its text with each
//! of these numbers, for `@` in decimal and for `%` as two hex digits. A sector is spelled as its 512
//! bytes, or as `KIND vVERSION UNIT GENERATION SERIAL PAYLOAD`, and `BYTE VALUE` behind it where a byte
//! is changed before its sum is taken. Bytes are hex digits, with points between parts.
//!
//! The model is `PlainModel`, which runs the same script. A chip that a cut leaves opens with the
//! records from after the commands that were answered, or from after one more. Where all of them show
//! besides that it is one more exactly once its commit sector is there, that is said.
#![tactic(auto)]

mod answers;
mod calls;
mod compared;
mod cuts;
mod ends;
mod fails;
mod keys;
mod lab;
mod modelled;
mod runs;
mod scripts;
mod sectors;
mod stories;
mod streams;
mod words;

use anyhow::Result;
use lab::Scenes;

fn main(rt: HostRuntime) -> Result<()> {
    let alloc = rt.alloc();
    let mut scenes = Scenes::new(alloc)?;
    for line in rt.lines(alloc) {
        let line = line?;
        println!(rt; "{line}")?;
        let answer = scenes.answer(alloc, line.as_str())?;
        if !answer.is_empty() {
            println!(rt; "  {answer}")?;
        }
    }
    Ok(())
}
