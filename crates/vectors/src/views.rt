//! Serial views: `view PLACES LINES`, the positions of the commands in the view from
//! the empty map, over so many places.
use crate::words::{geometry_of, parted, text_of};
use anyhow::Result;
use ipl_base::SESSIONS;
use ipl_model::{Command, Line, PlainModel};
use script_text::parse;
use serial_view::serial_order;
use std::alloc::Global;
use std::fmt::Write;

/// What comes of a row `view PLACES LINES`: `view` and the positions of the commands in the serial
/// view of the lines, from the empty map, over so many places, 5 to 1,028. Fails where PLACES is no
/// such number, or memory is wanting.
pub fn view_row(alloc: Global, rest: &str) -> Result<String> {
    let (places, lines) = parted(rest);
    let commands = commands_of(alloc, lines)?;
    let geometry = geometry_of(places)?;
    let start = PlainModel::new(alloc, geometry)?;
    let order = serial_order(alloc, geometry, SESSIONS, &start, &commands)?;
    let mut text = text_of(alloc, "view")?;
    for position in &order {
        write!(text, " {position}")?;
    }
    Ok(text)
}

/// The commands of lines.
fn commands_of(alloc: Global, lines: &str) -> Result<Vec<Command>> {
    let mut commands = Vec::new(alloc);
    for line in lines.split('/') {
        if let Line::Do(command) = parse(line.as_bytes()) {
            commands.push(command)?;
        }
    }
    Ok(commands)
}
