//! Calls of a store over a desk's chip, one a line of a script, and what each answers.
ghost use Rattle.std.specs.Prelude.{IfOk};
ghost use Rattle.ipl_cli.specs.MemDesk.{desk_told};
ghost use Rattle.ipl_store.specs.Calls.{IsSound};
ghost use Rattle.ipl_store.specs.Memories.{IsMemory};
ghost use Rattle.lab.specs.Suits.{StaysSound, SuitsDesk};

use crate::answers::{READ_FAILED, WRITE_FAILED, done_line, found_line, opened_line, say};
use crate::words::{number, parted, words_of};
use anyhow::{Result, bail, ensure};
use chip_trait::Chip;
use ipl_base::{Geometry, SESSIONS, STATUS_NUMBERS, StoreFault};
use ipl_cli::MemDesk;
use ipl_model::{Command, Line};
use ipl_store::{Memory, Store};
use script_text::parse;
use std::alloc::Global;

/// What a line calls: a command of a script, or what no script has.
#[derive(Drop)]
enum Call {
    Command(Command),
    Committed(u32),
    Hold(u32, u32),
    Release(u32, u32),
    Close,
}

/// The call of a line.
fn call_of(alloc: Global, line: &str) -> Result<Call> {
    let (verb, rest) = parted(line);
    match (verb, words_of(alloc, rest)?.as_slice()) {
        ("committed", [name]) => Ok(Call::Committed(number(*name)?)),
        ("hold", [unit, page]) => Ok(Call::Hold(number(*unit)?, number(*page)?)),
        ("release", [unit, page]) => Ok(Call::Release(number(*unit)?, number(*page)?)),
        ("close", []) => Ok(Call::Close),
        _ => match parse(line.as_bytes()) {
            Line::Skip | Line::Do(Command::Syntax | Command::List(_, _)) => bail!(
                "no call: {line}"
            ),
            Line::Do(command) => Ok(Call::Command(command)),
        },
    }
}

/// Makes a call that lends nothing. One that lends isn't made.
fn make(store: &mut Store, desk: &mut MemDesk, call: &Call) -> Result<(), StoreFault>
    requires sound { IsSound (desk_told desk.old).places store.old }
    ensures { StaysSound desk.old desk.new store.new }
{
    match call {
        Call::Command(command) => make_command(store, desk, command),
        Call::Hold(unit, page) => store.hold(desk, *unit, *page),
        Call::Release(unit, page) => store.release(desk, *unit, *page),
        Call::Close => store.close(desk),
        Call::Committed(_) => Ok(()),
    }
}

/// Does a command that lends nothing.
fn make_command(store: &mut Store, desk: &mut MemDesk, command: &Command) -> Result<(), StoreFault>
    requires sound { IsSound (desk_told desk.old).places store.old }
    ensures { StaysSound desk.old desk.new store.new }
{
    match command {
        Command::Begin(s) => store.begin(desk, *s),
        Command::Put(s, n, value) => store.put(desk, *s, *n, value.bytes()),
        Command::Del(s, n) => store.del(desk, *s, *n),
        Command::Commit(s) => store.commit(desk, *s),
        Command::Batch(sessions) => store.commit_all(desk, sessions.numbers()),
        Command::Abort(s) => store.abort(desk, *s),
        Command::Merge(unit) => store.merge(desk, *unit),
        _ => Ok(()),
    }
}

/// Makes a call, and answers its line.
fn answer(alloc: Global, store: &mut Store, desk: &mut MemDesk, call: &Call) -> Result<String>
    requires sound { IsSound (desk_told desk.old).places store.old }
    ensures { StaysSound desk.old desk.new store.new }
{
    match call {
        Call::Command(Command::Get(s, n)) => found_line(alloc, store.get(desk, *s, *n)),
        Call::Command(Command::Share(s, n)) => found_line(alloc, store.share(desk, *s, *n)),
        Call::Committed(n) => found_line(alloc, store.committed(desk, *n)),
        _ => done_line(alloc, make(store, desk, call)),
    }
}

/// Makes a call, says its line and answers it.
fn called(alloc: Global, store: &mut Store, desk: &mut MemDesk, call: &Call) -> Result<String>
    requires { SuitsDesk desk.old store.old }
    ensures { SuitsDesk desk.new store.new }
{
    let line = answer(alloc, store, desk, call)?;
    say(desk, line.as_str())?;
    Ok(line)
}

/// Makes a call, once more where a read of the chip failed in it; whether a write failed.
fn serve(alloc: Global, store: &mut Store, desk: &mut MemDesk, call: &Call) -> Result<bool>
    requires { SuitsDesk desk.old store.old }
    ensures { SuitsDesk desk.new store.new }
{
    let mut line = called(alloc, store, desk, call)?;
    if line.as_str() == READ_FAILED {
        line = called(alloc, store, desk, call)?;
    }
    Ok(line.as_str() == WRITE_FAILED)
}

/// Opens the chip again, says what came and answers it.
fn opened(alloc: Global, store: Store, desk: &mut MemDesk) -> Result<(Store, String)>
    requires { SuitsDesk desk.old store }
    ensures { IfOk result (λ made. SuitsDesk desk.new made.0) }
{
    let (again, opens) = store.reopen(desk);
    let line = opened_line(alloc, opens)?;
    say(desk, line.as_str())?;
    Ok((again, line))
}

/// Opens the chip again, once more where a read of it failed; whether a write failed.
fn reopened(alloc: Global, store: Store, desk: &mut MemDesk) -> Result<(Store, bool)>
    requires { SuitsDesk desk.old store }
    ensures { IfOk result (λ made. SuitsDesk desk.new made.0) }
{
    let (again, line) = opened(alloc, store, desk)?;
    if line.as_str() != READ_FAILED {
        return Ok((again, line.as_str() == WRITE_FAILED));
    }
    let (again, line) = opened(alloc, again, desk)?;
    Ok((again, line.as_str() == WRITE_FAILED))
}

/// Makes the call of a line; whether a write failed in it.
fn turn(alloc: Global, mut store: Store, desk: &mut MemDesk, line: &str) -> Result<(Store, bool)>
    requires { SuitsDesk desk.old store }
    ensures { IfOk result (λ made. SuitsDesk desk.new made.0) }
{
    let call = call_of(alloc, line)?;
    if matches!(call, Call::Command(Command::Restart)) {
        return reopened(alloc, store, desk);
    }
    let failed = serve(alloc, &mut store, desk, &call)?;
    Ok((store, failed))
}

/// Memory for a chip of so many places, with so many frames.
pub(crate) fn memory_of(alloc: Global, frames: u32, places: u32) -> Result<Memory>
    ensures { IfOk result IsMemory }
{
    ensure!(2 <= frames && frames <= 64, "no frames");
    let Some(geometry) = Geometry::of(places) else {
        bail!("geometry");
    };
    Ok(Memory::new(alloc, geometry, frames, SESSIONS, STATUS_NUMBERS as u32)?)
}

/// The store of a desk's chip, which is opened with so many frames.
fn store_of(alloc: Global, frames: u32, desk: &mut MemDesk) -> Result<Store>
    ensures { IfOk result (λ store. SuitsDesk desk.new store) }
{
    match Store::open(memory_of(alloc, frames, desk.units())?, desk) {
        Ok(store) => Ok(store),
        Err(unopened) => bail!("{}", unopened.fault),
    }
}

/// Makes the calls of a script on a store with so many frames, one a line; 3 where a write failed, or 0.
pub fn calls(alloc: Global, frames: u32, desk: &mut MemDesk, script: &[u8]) -> Result<u8> {
    let mut store = store_of(alloc, frames, desk)?;
    let mut status = 0;
    for line in str::from_utf8(script)?.split('\n') {
        if !line.is_empty() {
            let (next, failed) = turn(alloc, store, desk, line)?;
            store = next;
            status = if failed { 3 } else { status };
        }
    }
    Ok(status)
}
