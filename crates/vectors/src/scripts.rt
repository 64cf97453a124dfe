//! Lines of scripts, done by the model: `run PLACES LINES`, by a new one over so many places; `do
//! LINES`, by the same one as before; `line BYTES`, of one line as its bytes; `each FIRST END LINE`, with
//! the numbers from the first to below the end in the place of a star, of which only those are told that
//! have another reply than the one before. And `home NAME`, where a name lives. Lines stand with strokes
//! between them, and so do their replies.
use crate::words::{bytes_of, geometry_of, join, number, parted};
use anyhow::{Context, Result};
use ipl_base::{Home, Name, home};
use ipl_model::{Line, PlainModel, Reply};
use script_text::{TextLine, parse, print};
use std::alloc::Global;

/// What comes of a row `run PLACES LINES`: the replies of a new model over so many places, 5 to
/// 1,028, with which the rows after it go on. Fails where PLACES is no such number, or memory is
/// wanting.
pub fn run_row(alloc: Global, model: &mut PlainModel, rest: &str) -> Result<String> {
    let (places, lines) = parted(rest);
    *model = PlainModel::new(alloc, geometry_of(places)?)?;
    do_row(alloc, model, lines)
}

/// What comes of a row `do LINES`: the replies of the model as it stands, one line after the other,
/// and `no reply` for a line that is skipped. Fails where memory is wanting.
pub fn do_row(alloc: Global, model: &mut PlainModel, lines: &str) -> Result<String> {
    let mut text = String::new(alloc);
    for line in lines.split('/') {
        do_line(model, line.as_bytes(), &mut text)?;
    }
    Ok(text)
}

/// Does a line, and adds its replies.
fn do_line(model: &mut PlainModel, line: &[u8], text: &mut String) -> Result<()> {
    match parse(line) {
        Line::Skip => join(text, "no reply"),
        Line::Do(command) => {
            let replies = model.step(&command)?;
            for reply in &replies {
                add_reply(reply, text)?;
            }
            Ok(())
        }
    }
}

/// Adds the text of a reply, without its line feed.
fn add_reply(reply: &Reply, text: &mut String) -> Result<()> {
    let mut line = TextLine::empty();
    print(reply, &mut line);
    join(text, str::from_utf8(line.bytes())?.trim_end())
}

/// What comes of a row `line BYTES`: the replies of the model as it stands to one line, as its
/// bytes. Fails where the bytes are misspelled, or memory is wanting.
pub fn line_row(alloc: Global, model: &mut PlainModel, rest: &str) -> Result<String> {
    let mut text = String::new(alloc);
    do_line(model, &bytes_of(alloc, rest)?, &mut text)?;
    Ok(text)
}

/// What comes of a row `each FIRST END LINE`: the replies to the line where its first star stands
/// for each number in turn, from the first to below the end; of these only such as differ from the
/// one before. Fails where a number is misspelled, the line has no star, or memory is wanting.
pub fn each_row(alloc: Global, model: &mut PlainModel, rest: &str) -> Result<String> {
    let (first, rest) = parted(rest);
    let (end, line) = parted(rest);
    let (before, after) = line.split_once('*').context("no star")?;
    let mut text = String::new(alloc);
    let mut said = String::new(alloc);
    for i in number(first)?..number(end)? {
        let line = format!(in alloc; "{before}{i}{after}")?;
        let reply = do_row(alloc, model, line.as_str())?;
        if reply.as_str() != said.as_str() {
            join(&mut text, format!(in alloc; "from {i} {reply}")?.as_str())?;
        }
        said = reply;
    }
    Ok(text)
}

/// What comes of a row `home NAME`: the unit, the page and the slot in which the name lives. Fails
/// where the name is no number below 2^32, or memory is wanting.
pub fn home_row(alloc: Global, rest: &str) -> Result<String> {
    let Home { unit, page, slot } = home(Name(number(rest)?));
    Ok(format!(in alloc; "unit {unit} page {page} slot {slot}")?)
}
