//! The answer of a call of the store as a reply.
ghost use Rattle.std.specs.Prelude.{◌≡◌, ◌≢◌, ◌≤◌, Err, IfSome, length, option_map};
ghost use Rattle.ipl_base.specs.declared.limits.TheConstants.{VALUE_LEN};
ghost use Rattle.ipl_base.specs.declared.fault.Refusal.{Refusal};
ghost use Rattle.ipl_base.specs.declared.fault.StoreFault.TheVariants.{Down, Refused};
ghost use Rattle.ipl_model.specs.Step.{found_reply};
ghost use Rattle.script_store.specs.Keeps.{ended, answer_of, reply_of, looked_up};
ghost use Rattle.script_store.specs.Closes.{closed};

use ipl_base::{StoreFault, Value};
use ipl_model::Reply;
use store_trait::Fault;

/// What ended a call of a store that isn't down, as a reply or a fault.
pub(crate) fn ended(fault: StoreFault) -> Result<Reply, Fault>
    requires up { fault ≢ Down }
    ensures { result ≡ ended fault }
{
    match fault {
        StoreFault::Refused(refusal) => Ok(Reply::Refused(refusal)),
        StoreFault::Chip(fault) => Err(Fault::Chip(fault)),
        StoreFault::Spent => Err(Fault::Spent),
        StoreFault::Down => unreachable!("the store isn't down"),
    }
}

/// The answer of a call that is done with no record to say.
pub(crate) fn reply_of(done: Result<(), StoreFault>) -> Result<Reply, Fault>
    requires up { done ≢ Err Down }
    ensures { result ≡ reply_of done }
{
    match done {
        Ok(()) => Ok(Reply::Ok),
        Err(fault) => ended(fault),
    }
}

/// A record of at most 464 bytes, or none, for a reply.
pub(crate) fn copied(found: Option<&[u8]>) -> Option<Value>
    requires short { IfSome found (λ b. length b.now ≤ VALUE_LEN) }
    ensures { result ≡ option_map (λ b. b.now) found.entry }
{
    match found {
        Some(bytes) => Value::of(bytes),
        None => None,
    }
}

/// A record, or none, as a reply.
pub(crate) fn found_reply(found: Option<Value>) -> Reply
    ensures { result ≡ found_reply found }
{
    match found {
        Some(value) => Reply::Value(value),
        None => Reply::Nothing,
    }
}

/// The answer of a call that looked a record up.
pub(crate) fn found_of(found: Result<Option<Value>, StoreFault>) -> Result<Reply, Fault>
    requires up { found ≢ Err Down }
    ensures { result ≡ answer_of found_reply found }
{
    match found {
        Ok(found) => Ok(found_reply(found)),
        Err(fault) => ended(fault),
    }
}

/// The answer of a call that looked a committed record up: a name that is refused has none.
pub(crate) fn looked_up(found: Result<Option<Value>, StoreFault>) -> Result<Option<Value>, Fault>
    requires up { found ≢ Err Down }
    ensures { result ≡ looked_up found }
{
    match found {
        Ok(found) => Ok(found),
        Err(StoreFault::Refused(_)) => Ok(None),
        Err(StoreFault::Chip(fault)) => Err(Fault::Chip(fault)),
        Err(StoreFault::Spent) => Err(Fault::Spent),
        Err(StoreFault::Down) => unreachable!("the store isn't down"),
    }
}

/// The answer of a close, where no session was open.
pub(crate) fn closed(done: Result<(), StoreFault>) -> Result<(), Fault>
    requires up { done ≢ Err Down }
    requires free { (refusal : Refusal) → done ≢ Err (Refused refusal) }
    ensures { result ≡ closed done }
{
    match done {
        Ok(()) => Ok(()),
        Err(StoreFault::Refused(_)) => unreachable!("no session is open"),
        Err(StoreFault::Chip(fault)) => Err(Fault::Chip(fault)),
        Err(StoreFault::Spent) => Err(Fault::Spent),
        Err(StoreFault::Down) => unreachable!("the store isn't down"),
    }
}
