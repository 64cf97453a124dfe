//! `vectors`: rows of data, and what comes of them. Each line of the standard input is a row, which
//! begins with a verb, and one line is printed for it; a line that is empty or begins with `#` is
//! printed as it is, so that what is printed reads as a document. `stdin` has the rows, and says where
//! the answers in `stdout` are from.
//!
//! A row calls what the crates below make public: sums, sectors, texts of pages, log records, headers,
//! lines of scripts over the model, serial views, trials, the words of a command line and the ends of
//! the program. So a new row is a new line, and no new function.
#![tactic(auto)]

mod ends;
mod headers;
mod log_rows;
mod pages;
mod rooms;
mod rows;
mod scripts;
mod sectors;
mod sums;
mod trials;
mod views;
mod word_rows;
mod words;

use anyhow::Result;
use rows::{answer, first_model};

fn main(rt: HostRuntime) -> Result<()> {
    let alloc = rt.alloc();
    let mut model = first_model(alloc)?;
    for line in rt.lines(alloc) {
        let text = answer(alloc, &mut model, line?.as_str())?;
        println!(rt; "{text}")?;
    }
    Ok(())
}
