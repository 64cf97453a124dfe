//! The program `ipl` but for its `main`: `top` does what the words of the command line ask for, over
//! a desk. It stands on the store as a run of a script uses it, the loop over a script, the serial
//! view of one, and the words and ends of the program. A contract sees what the desk tells: with
//! which status and line the program ends, and what it leaves on the chip. There are two desks: one
//! in memory, which tells all and fails where it is told to, and one over the streams of the process.
//!
//! Proved, by `top`: `survives`, `survives_anew`: the statement. Over a chip that tells what it
//! holds, wherever the power is cut, what is left stands for the records after the commands whose
//! replies were said, or after one more: from its own records on, or from none where it was formatted
//! first. It speaks of the records of the pages that read well, also where others are known not to.
//!
//! Proved, by `top`: `lawful`, `opened`, `formatted`, `part`, `stops`: over every desk that tells its
//! history no sector is programmed twice between erases of its place, whatever the chip holds. The
//! headline, over a chip that is opened, wherever the run ends, and over one that is formatted first,
//! of each history that leaves what the chip holds and rests on records, by events that a told story
//! grows by: each moment of a cut; what is said, line by line, and all of it at 0; lawful events;
//! where no write failed, the chip holds at the end what the history then leaves, which rests on the
//! records of exactly the commands that are done, so that the next run may begin there; and a sector at
//! fault that ended it was met, at some moment of the history, where the chip tells its story. A format that
//! was stopped wrote a part of its events, or erased exactly the places below one that is worn, and
//! nothing is said.
//!
//! Proved, by `top`: `records`, `anew`: a chip that tells what it holds, and maybe no story: where
//! that stands for records, at 0 it holds the records after all commands; formatted first, those of
//! the commands alone.
//!
//! Proved, by `top`: `formats`: a format says `ok` at 0, and then the chip's story rests on no
//! records, and the chip says that it has all units but those that are spare.
//!
//! Proved, by `top`: `ends` and the other clauses: over every desk: each status has its cause, and
//! exactly its line is noted; at 2 and 5 nothing is asked of the chip, said or read, but that at 5 a
//! view may have read its script; another number of places is left alone. A chip that has a fault as
//! it is laid out, where it tells what it holds, is only read by a run without `--format`, and the
//! status is that of its first fault, or 5, or 3 where a read failed. A run that opens a chip which
//! tells what it holds ends with 4 or 9 only where that stood for no records, or a number of 2^62 or
//! more was among it (`unfit`); a failed call is told as such. At 10 an erase found its place worn
//! (`worn`), and the line says how many are, one more than are spare. Where no count rises, the
//! script ends in time and the chip is such as the words ask for, the status is 0, or 5. At 0 a run
//! or a trial was done by a store of as many frames as were asked, and a run that isn't to close the
//! chip did nothing behind its last reply (`framed`).
//!
//! Proved, by `top`: `closed`: where the words ask to close the chip, at 0 a mark was programmed last
//! of all. Over a chip that was opened and tells its history, each log sector at a unit's place that
//! was erased since and not programmed is marked then, if no command opened the chip again. And what
//! is marked then is clean, after lawful events that leave clean what was marked before.
//!
//! Proved, by `top`: `views`, `untouched`: the serial view of a script, run from no records: over
//! every desk that tells its script, what is said is a beginning of its lines, one by one, and at 0
//! all of them, with nothing of the script left; over every desk that tells its history no sector is
//! touched.
//!
//! Proved, by `top`: `checks`: over every desk a check adds reads alone, and then says its line. Over
//! one that tells what its chip holds, at 0 it says how many records there are for which that stands;
//! at 4 that stands for none, and the first fault is noted.
//!
//! Proved, by `MemDesk`, `RealDesk`: in memory: each call as the trait says, failing exactly where it
//! is told to. Over the real streams: each call as the trait says, and one of the chip is the same
//! call of the chip within: its event there, or its failure.
//!
//! Proved, by the laws of `chains`, from the clauses of `top` alone: what these come to for runs one
//! after another over the same desk, whatever desk it is. A run after a run that ended with 0 begins
//! with the records that the first one left, and a run after a format with none. From a format on the
//! story that the desk tells is lawful over all of them; from any start that rests on records, what
//! runs add one after another, to whatever ends, is lawful, after lawful events that leave clean what was
//! marked at the start; and behind them what is marked then is clean. The commands of the serial view of a script
//! leave the records that the script leaves.
#![tactic(auto)]

mod chains;
mod checking;
mod failing;
mod listing;
mod mem_desk;
mod real_desk;
pub mod top;

pub use failing::FailingSay;
pub use mem_desk::MemDesk;
pub use real_desk::RealDesk;
