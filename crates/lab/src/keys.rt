//! Calls on values by keys over a desk's chip, one a line of a script, and what each answers.
ghost use Rattle.std.specs.Prelude.{IfOk};
ghost use Rattle.ipl_cli.specs.MemDesk.{desk_told};
ghost use Rattle.ipl_store.specs.Calls.{IsSound};
ghost use Rattle.lab.specs.Suits.{StaysSound, SuitsDesk};

use crate::answers::{bytes_line, key_line, say};
use crate::calls::memory_of;
use crate::sectors::bytes_of;
use crate::words::{number, parted, text_of, words_of};
use anyhow::{Result, bail};
use chip_trait::Chip;
use ipl_cli::MemDesk;
use ipl_keys::{KeyFault, Keys};
use std::alloc::Global;

/// What a line calls: a session first, then a key, then a value.
#[derive(Drop)]
enum KeyCall {
    Begin(u32),
    Get(u32, Vec<u8>),
    Put(u32, Vec<u8>, Vec<u8>),
    Del(u32, Vec<u8>),
    Commit(u32),
    Abort(u32),
    Close,
}

/// The call of a line.
fn key_call_of(alloc: Global, line: &str) -> Result<KeyCall> {
    let (verb, rest) = parted(line);
    match (verb, words_of(alloc, rest)?.as_slice()) {
        ("begin", [s]) => Ok(KeyCall::Begin(number(*s)?)),
        ("get", [s, key]) => Ok(KeyCall::Get(number(*s)?, bytes_of(alloc, *key)?)),
        ("put", [s, key, value]) => Ok(KeyCall::Put(
            number(*s)?,
            bytes_of(alloc, *key)?,
            bytes_of(alloc, *value)?,
        )),
        ("del", [s, key]) => Ok(KeyCall::Del(number(*s)?, bytes_of(alloc, *key)?)),
        ("commit", [s]) => Ok(KeyCall::Commit(number(*s)?)),
        ("abort", [s]) => Ok(KeyCall::Abort(number(*s)?)),
        ("close", []) => Ok(KeyCall::Close),
        _ => bail!("no call: {line}"),
    }
}

/// Makes a call that lends nothing. One that lends isn't made.
fn make(keys: &mut Keys, desk: &mut MemDesk, call: &KeyCall) -> Result<(), KeyFault>
    requires sound { IsSound (desk_told desk.old).places keys.old.store }
    ensures { StaysSound desk.old desk.new keys.new.store }
{
    match call {
        KeyCall::Begin(s) => keys.begin(desk, *s),
        KeyCall::Put(s, key, value) => keys.put(desk, *s, key, value),
        KeyCall::Del(s, key) => keys.del(desk, *s, key),
        KeyCall::Commit(s) => keys.commit(desk, *s),
        KeyCall::Abort(s) => keys.abort(desk, *s),
        KeyCall::Close => keys.close(desk),
        KeyCall::Get(_, _) => Ok(()),
    }
}

/// Makes a call, and answers its line.
fn answer(alloc: Global, keys: &mut Keys, desk: &mut MemDesk, call: &KeyCall) -> Result<String>
    requires sound { IsSound (desk_told desk.old).places keys.old.store }
    ensures { StaysSound desk.old desk.new keys.new.store }
{
    if let KeyCall::Get(s, key) = call {
        return match keys.get(desk, *s, key) {
            Ok(found) => bytes_line(alloc, found),
            Err(fault) => key_line(alloc, fault),
        };
    }
    match make(keys, desk, call) {
        Ok(()) => text_of(alloc, "ok\n"),
        Err(fault) => key_line(alloc, fault),
    }
}

/// Makes the call of a line, and says what it answers.
fn serve(alloc: Global, keys: &mut Keys, desk: &mut MemDesk, line: &str) -> Result<()>
    requires { SuitsDesk desk.old keys.old.store }
    ensures { SuitsDesk desk.new keys.new.store }
{
    let call = key_call_of(alloc, line)?;
    let answer = answer(alloc, keys, desk, &call)?;
    say(desk, answer.as_str())
}

/// The keys of a desk's chip, which is opened with so many frames.
fn keys_of(alloc: Global, frames: u32, desk: &mut MemDesk) -> Result<Keys>
    ensures { IfOk result (λ keys. SuitsDesk desk.new keys.store) }
{
    match Keys::open(memory_of(alloc, frames, desk.units())?, desk) {
        Ok(keys) => Ok(keys),
        Err(unopened) => bail!("{}", unopened.fault),
    }
}

/// Makes the calls of a script on keys, one a line, with so many frames.
pub fn keys(alloc: Global, frames: u32, desk: &mut MemDesk, script: &[u8]) -> Result<()> {
    let mut keys = keys_of(alloc, frames, desk)?;
    for line in str::from_utf8(script)?.split('\n') {
        if !line.is_empty() {
            serve(alloc, &mut keys, desk, line)?;
        }
    }
    Ok(())
}
