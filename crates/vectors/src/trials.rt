//! Trials: `trial PLACES SEED COUNT`, the summary of so many commands of a seed, done by the model.
ghost use Rattle.std.specs.Prelude.{◌≡◌};

use crate::words::{geometry_of, join, number, words_of};
use anyhow::{Context, Result, bail};
use ipl_model::{Command, PlainModel, Reply};
use script_run::{Records, Tally, TrialCommands, summary_lines};
use std::alloc::Global;

/// What comes of a row `trial PLACES SEED COUNT`: the six lines of the summary of so many commands
/// of the seed, done by a new model over so many places, 5 to 1,028. Fails where the words aren't
/// three such numbers, or memory is wanting.
pub fn trial_row(alloc: Global, rest: &str) -> Result<String> {
    let words = words_of(alloc, rest)?;
    let [places, seed, count] = words.as_slice() else {
        bail!("no trial");
    };
    let geometry = geometry_of(*places)?;
    let mut model = PlainModel::new(alloc, geometry)?;
    let mut commands = TrialCommands::of(geometry.units(), number(*seed)?);
    let mut tally = Tally::new();
    do_all(&mut model, &mut commands, &mut tally, number(*count)?)?;
    let records = records_of(&mut model, 960 * geometry.units())?;
    summary(alloc, &tally, &records)
}

/// The lines of a summary.
fn summary(alloc: Global, tally: &Tally, records: &Records) -> Result<String> {
    let mut text = String::new(alloc);
    for line in &summary_lines(tally, records) {
        join(&mut text, str::from_utf8(line.bytes())?.trim_end())?;
    }
    Ok(text)
}

/// Does so many commands, and counts them.
fn do_all(
    model: &mut PlainModel,
    commands: &mut TrialCommands,
    tally: &mut Tally,
    count: u32,
) -> Result<()>
    requires { tally.old.commands ≡ 0 }
{
    for _i in 0..count {
        let command = commands.next();
        let reply = model.step(&command)?.pop().context("no reply")?;
        tally.note(&command, &reply);
    }
    Ok(())
}

/// The records of the names below this.
fn records_of(model: &mut PlainModel, names: u32) -> Result<Records> {
    let mut records = Records::new();
    for name in 0..names {
        let replies = model.step(&Command::List(name, name))?;
        if let Some(Reply::Row(name, value)) = replies.first() {
            records.take(*name, value.copy());
        }
    }
    Ok(records)
}
