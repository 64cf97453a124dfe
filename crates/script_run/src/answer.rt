//! One command: the store's work, and then its reply.
ghost use Rattle.std.specs.Prelude.{◌≤◌, ◌<◌, ◌-◌, ◌*◌, ◌∷◌, [], ℕ, IfErr, MatchResult};
ghost use Rattle.chip_trait.specs.declared.event.Event.TheVariants.{Said};
ghost use Rattle.chip_trait.specs.Told.{Rose, Appends, FailsToSay};
ghost use Rattle.std.specs.FinMap.{get};
ghost use Rattle.ipl_model.specs.Text.{reply_text};
ghost use Rattle.ipl_model.specs.Grammar.{line_of, commands_in};
ghost use Rattle.ipl_model.specs.declared.command.Command.TheVariants as command;
ghost use Rattle.store_trait.specs.Onward.{Onward};
ghost use Rattle.store_trait.specs.Keeping.{IsSingle, WORK_DRAWS, LOOK_UP_DRAWS, COMMAND_DRAWS};
ghost use Rattle.script_run.specs.Goes.{FitsDesk, AnswersAlong, SaysAlong, row_lines, rows_lines};

use crate::Stop;
use chip_trait::{Desk, Failed};
use ipl_base::Refusal;
use ipl_model::{Command, Line, Reply};
use script_text::{TextLine, parse, print};
use store_trait::{Fault, Store};

/// Says one line of a reply.
fn say_reply<D: Desk>(desk: &mut D, reply: &Reply) -> Result<(), Failed>
    ensures says { MatchResult result
        (λ _. Appends (Said (reply_text reply.now)) (D.told desk.old) (D.told desk.new))
        (λ _. FailsToSay (reply_text reply.now) (D.told desk.old) (D.told desk.new)) }
    ensures onward { Onward (D.told desk.old) (D.told desk.new) }
    ensures cause { IfErr result (λ _. Rose (D.told desk.old).beside.say_faults (D.told desk.new).beside.say_faults) }
{
    let mut text = TextLine::empty();
    print(reply, &mut text);
    desk.say(text.bytes())
}

/// Does the work of a command that has one line as its reply, and says the reply.
fn answer_one<S: Store, D: Desk>(store: &mut S, desk: &mut D, command: &Command) -> Result<(), Stop>
    ghost places: { ℕ }
    requires single { IsSingle command.now }
    requires suits { FitsDesk (S.keeping places S.all) places store.old (D.told desk.old) }
    ensures { (known : S.Known) → AnswersAlong (S.keeping places known) (command.now ∷ []) WORK_DRAWS store.old (D.told desk.old) result
        store.new (D.told desk.new) }
{
    let reply = store.work(desk, command)?;
    match say_reply(desk, &reply) {
        Ok(()) => Ok(()),
        Err(_) => Err(Stop::Output),
    }
}

/// Says the record of a name, where there is one.
fn say_row<S: Store, D: Desk>(store: &mut S, desk: &mut D, n: u32) -> Result<(), Stop>
    ghost places: { ℕ }
    requires { FitsDesk (S.keeping places S.all) places store.old (D.told desk.old) }
    ensures { (known : S.Known) → SaysAlong (S.keeping places known) (λ limits. n < limits.names) (λ state. row_lines n (get state.map n))
        LOOK_UP_DRAWS store.old (D.told desk.old) result store.new (D.told desk.new) }
{
    match store.look_up(desk, n)? {
        Some(value) => match say_reply(desk, &Reply::Row(n, value)) {
            Ok(()) => Ok(()),
            Err(_) => Err(Stop::Output),
        },
        None => Ok(()),
    }
}

/// Says the records of the names from `first` to below `end`, rising. Each is looked up when the line before it was said.
fn say_rows<S: Store, D: Desk>(
    store: &mut S,
    desk: &mut D,
    first: u32,
    end: u32,
) -> Result<(), Stop>
    ghost places: { ℕ }
    requires { FitsDesk (S.keeping places S.all) places store.old (D.told desk.old) }
    ensures { (known : S.Known) → SaysAlong (S.keeping places known) (λ limits. end ≤ limits.names)
        (λ state. rows_lines state.map first (end - first)) (LOOK_UP_DRAWS * (end - first)) store.old
        (D.told desk.old) result store.new (D.told desk.new) }
{
    for n in first..end {
        say_row(store, desk, n)?;
    }
    Ok(())
}

/// Answers a list: its records and then a line that ends it, or a refusal.
fn list<S: Store, D: Desk>(store: &mut S, desk: &mut D, first: u32, last: u32) -> Result<(), Stop>
    ghost places: { ℕ }
    requires { FitsDesk (S.keeping places S.all) places store.old (D.told desk.old) }
    ensures { (known : S.Known) → AnswersAlong (S.keeping places known) (command.List first last ∷ []) COMMAND_DRAWS store.old
        (D.told desk.old) result store.new (D.told desk.new) }
{
    let names = store.names();
    if first >= names || last >= names {
        return match say_reply(desk, &Reply::Refused(Refusal::BadName)) {
            Ok(()) => Ok(()),
            Err(_) => Err(Stop::Output),
        };
    }
    say_rows(store, desk, first, last + 1)?;
    match say_reply(desk, &Reply::End) {
        Ok(()) => Ok(()),
        Err(_) => Err(Stop::Output),
    }
}

/// Answers one command.
fn answer<S: Store, D: Desk>(store: &mut S, desk: &mut D, command: &Command) -> Result<(), Stop>
    ghost places: { ℕ }
    requires { FitsDesk (S.keeping places S.all) places store.old (D.told desk.old) }
    ensures { (known : S.Known) → AnswersAlong (S.keeping places known) (command.now ∷ []) COMMAND_DRAWS store.old (D.told desk.old) result
        store.new (D.told desk.new) }
{
    match command {
        Command::List(first, last) => list(store, desk, *first, *last),
        _ => answer_one(store, desk, command),
    }
}

/// Answers one line, if it is a command.
pub(crate) fn answer_line<S: Store, D: Desk>(
    store: &mut S,
    desk: &mut D,
    line: &[u8],
) -> Result<(), Stop>
    ghost places: { ℕ }
    requires { FitsDesk (S.keeping places S.all) places store.old (D.told desk.old) }
    ensures { (known : S.Known) → AnswersAlong (S.keeping places known) (commands_in (line_of line.now)) COMMAND_DRAWS store.old
        (D.told desk.old) result store.new (D.told desk.new) }
{
    match parse(line) {
        Line::Skip => Ok(()),
        Line::Do(command) => answer(store, desk, &command),
    }
}
