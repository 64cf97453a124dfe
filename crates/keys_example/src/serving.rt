//! Lines are answered over a chip.
ghost use Rattle.std.specs.Prelude.{IfOk};
ghost use Rattle.ipl_store.specs.Calls.{IsSound};
ghost use Rattle.keys_example.specs.Stays.{StaysSound};

use crate::answer::say;
use crate::line::{Command, parse};
use anyhow::{Result, bail};
use chip_trait::Chip;
use ipl_base::{Geometry, SESSIONS, STATUS_NUMBERS, Value};
use ipl_keys::{KeyFault, Keys};
use ipl_model::Reply;
use ipl_store::Memory;
use std::alloc::Global;
use std::io::Write;

/// The page frames that `ipl` takes where its words say none.
const FRAMES: u32 = 16;

/// Opens a chip, and answers the lines of the standard input until it ends.
pub fn serve<C: Chip + Drop>(rt: &HostRuntime, alloc: Global, mut chip: C) -> Result<()> {
    let mut keys = opened(alloc, &mut chip)?;
    for line in rt.lines(alloc) {
        let line = line?;
        answer(&mut keys, &mut chip, line.as_str(), &mut rt.stdout())?;
    }
    Ok(())
}

/// The keys of a chip that is opened.
fn opened<C: Chip>(alloc: Global, chip: &mut C) -> Result<Keys>
    ensures { IfOk result (λ keys. IsSound (C.told chip.new).places keys.store) }
{
    let Some(geometry) = Geometry::of(chip.units()) else {
        bail!("geometry");
    };
    let memory = Memory::new(alloc, geometry, FRAMES, SESSIONS, STATUS_NUMBERS as u32)?;
    match Keys::open(memory, chip) {
        Ok(keys) => Ok(keys),
        Err(unopened) => bail!("{}", unopened.fault),
    }
}

/// Answers a line. An empty one, and one that begins with `#`, is said as it is.
fn answer<C: Chip, W: Write>(keys: &mut Keys, chip: &mut C, line: &str, out: &mut W) -> Result<()>
    requires { IsSound (C.told chip.old).places keys.old.store }
    ensures { StaysSound (C.told chip.old) keys.new.store (C.told chip.new) }
{
    if line.is_empty() || line.starts_with('#') {
        return echo(line, out);
    }
    say(out, &done(keys, chip, line))
}

/// Says a line as it is.
fn echo<W: Write>(line: &str, out: &mut W) -> Result<()> {
    out.write_all(line.as_bytes())?;
    out.write_all(b"\n")?;
    Ok(())
}

/// Does what a line says, and answers what came of it.
fn done<C: Chip>(keys: &mut Keys, chip: &mut C, line: &str) -> Result<Reply, KeyFault>
    requires { IsSound (C.told chip.old).places keys.old.store }
    ensures { StaysSound (C.told chip.old) keys.new.store (C.told chip.new) }
{
    match parse(line) {
        Some(command) => command_done(keys, chip, command),
        None => Ok(Reply::Syntax),
    }
}

/// Does a command.
fn command_done<C: Chip>(
    keys: &mut Keys,
    chip: &mut C,
    command: Command<'_>,
) -> Result<Reply, KeyFault>
    requires { IsSound (C.told chip.old).places keys.old.store }
    ensures { StaysSound (C.told chip.old) keys.new.store (C.told chip.new) }
{
    match command {
        Command::Begin(s) => keys.begin(chip, s).map(|()| Reply::Ok),
        Command::Get(s, key) => got(keys, chip, s, key),
        Command::Put(s, key, value) => keys
            .put(chip, s, key.as_bytes(), value.as_bytes())
            .map(|()| Reply::Ok),
        Command::Del(s, key) => keys.del(chip, s, key.as_bytes()).map(|()| Reply::Ok),
        Command::Commit(s) => keys.commit(chip, s).map(|()| Reply::Ok),
        Command::Abort(s) => keys.abort(chip, s).map(|()| Reply::Ok),
    }
}

/// The value that a session sees of a key.
fn got<C: Chip>(keys: &mut Keys, chip: &mut C, s: u32, key: &str) -> Result<Reply, KeyFault>
    requires { IsSound (C.told chip.old).places keys.old.store }
    ensures { StaysSound (C.told chip.old) keys.new.store (C.told chip.new) }
{
    match keys.get(chip, s, key.as_bytes()) {
        Ok(found) => Ok(reply_of(found)),
        Err(fault) => Err(fault),
    }
}

/// A value that was found, of at most 200 bytes, or none.
fn reply_of(found: Option<&[u8]>) -> Reply {
    match found.and_then(|bytes| Value::of(bytes)) {
        Some(value) => Reply::Value(value),
        None => Reply::Nothing,
    }
}
