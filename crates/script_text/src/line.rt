//! What a line of a script says.
ghost use Rattle.std.specs.Prelude.{◌≡◌, ◌≤◌, length, IfSome};
ghost use Rattle.std.specs.Option.{option_copied, option_map_or};
ghost use Rattle.std.specs.List.{slice_split};
ghost use Rattle.ipl_model.specs.declared.command.Command.TheVariants.{Put, Restart, Syntax};
ghost use Rattle.ipl_model.specs.Grammar.{is_space, words_behind, one_number, two_numbers, numbers_and_value, sessions_of, commit_of, alone, command_of, line_of};
ghost use Rattle.script_text.specs.Verbs.{without_session};

use crate::decimal::number;
use crate::word::{first_word, value};
use ipl_model::{Command, Line, PutBytes, Sessions};

/// The number that the words behind a verb are.
#[tactic(auto, using(crate::proofs::Words::one_too_many))]
fn one_number(words: Option<&[u8]>) -> Option<u32>
    ensures { result ≡ one_number (words_behind (option_copied words.entry)) }
{
    match first_word(words?) {
        (word, None) => number(word),
        (_, Some(_)) => None,
    }
}

/// The two numbers that the words behind a verb are.
#[tactic(auto, using(crate::proofs::Words::two_too_many))]
fn two_numbers(words: Option<&[u8]>) -> Option<(u32, u32)>
    ensures { result ≡ two_numbers (words_behind (option_copied words.entry)) }
{
    let (session, words) = first_word(words?);
    match first_word(words?) {
        (name, None) => Some((number(session)?, number(name)?)),
        (_, Some(_)) => None,
    }
}

/// The two numbers and the bytes that the words behind a verb are.
#[tactic(auto, using(crate::proofs::Words::three_too_many))]
fn numbers_and_value(words: Option<&[u8]>) -> Option<(u32, u32, PutBytes)>
    requires { IfSome words (λ words. length words.now ≤ 1024) }
    ensures { result ≡ numbers_and_value (words_behind (option_copied words.entry)) }
{
    let (session, words) = first_word(words?);
    let (name, words) = first_word(words?);
    match first_word(words?) {
        (bytes, None) => Some((number(session)?, number(name)?, value(bytes)?)),
        (_, Some(_)) => None,
    }
}

/// A restart, where no words stand behind the verb.
#[tactic(auto, using(crate::proofs::Words::one_word_too_many))]
fn restart(words: Option<&[u8]>) -> Command
    ensures { result ≡ alone Restart (words_behind (option_copied words.entry)) }
{
    match words {
        None => Command::Restart,
        Some(_) => Command::Syntax,
    }
}

/// The sessions that the words of a commit name.
fn sessions(words: &[u8]) -> Option<Sessions>
    ensures { result ≡ sessions_of (slice_split is_space words.now) }
{
    let mut named = Sessions::of(&[]);
    let mut line = words;
    for _i in 0..32_usize {
        let (word, rest) = first_word(line);
        named.push(number(word)?);
        match rest {
            Some(rest) => line = rest,
            None => return Some(named),
        }
    }
    None
}

/// A commit of these sessions.
fn commit_of(sessions: Sessions) -> Command
    ensures { result ≡ commit_of sessions }
{
    let count = sessions.numbers().len();
    if count == 0 {
        return Command::Syntax;
    }
    if count == 1 {
        return Command::Commit(sessions.numbers()[0]);
    }
    Command::Batch(sessions)
}

/// A commit of the sessions that the words behind the verb name.
fn commit(words: Option<&[u8]>) -> Command
    ensures { result
        ≡ option_map_or commit_of (sessions_of (words_behind (option_copied words.entry))) Syntax }
{
    match words {
        Some(words) => sessions(words).map_or(Command::Syntax, |named| commit_of(named)),
        None => Command::Syntax,
    }
}

/// A put of the numbers and the bytes that the words behind the verb are.
fn put(words: Option<&[u8]>) -> Command
    requires { IfSome words (λ words. length words.now ≤ 1024) }
    ensures { result
        ≡ option_map_or (λ a. Put a.0 a.1 a.2) (numbers_and_value (words_behind (option_copied words.entry))) Syntax }
{
    match numbers_and_value(words) {
        Some((session, name, bytes)) => Command::Put(session, name, bytes),
        None => Command::Syntax,
    }
}

/// The command without a session that a verb and the words behind it are: a list, a merge or a restart.
fn without_session(verb: &[u8], words: Option<&[u8]>) -> Command
    ensures { result ≡ without_session verb.now (words_behind (option_copied words.entry)) }
{
    if verb == b"list".as_slice() {
        two_numbers(words).map_or(Command::Syntax, |a| Command::List(a.0, a.1))
    } else if verb == b"merge".as_slice() {
        one_number(words).map_or(Command::Syntax, |unit| Command::Merge(unit))
    } else if verb == b"restart".as_slice() {
        restart(words)
    } else {
        Command::Syntax
    }
}

/// The command that a line is.
fn command(line: &[u8]) -> Command
    requires { length line.now ≤ 1024 }
    ensures { result ≡ command_of (slice_split is_space line.now) }
{
    let (verb, words) = first_word(line);
    if verb == b"begin".as_slice() {
        one_number(words).map_or(Command::Syntax, |s| Command::Begin(s))
    } else if verb == b"get".as_slice() {
        two_numbers(words).map_or(Command::Syntax, |a| Command::Get(a.0, a.1))
    } else if verb == b"share".as_slice() {
        two_numbers(words).map_or(Command::Syntax, |a| Command::Share(a.0, a.1))
    } else if verb == b"put".as_slice() {
        put(words)
    } else if verb == b"del".as_slice() {
        two_numbers(words).map_or(Command::Syntax, |a| Command::Del(a.0, a.1))
    } else if verb == b"commit".as_slice() {
        commit(words)
    } else if verb == b"abort".as_slice() {
        one_number(words).map_or(Command::Syntax, |s| Command::Abort(s))
    } else {
        without_session(verb, words)
    }
}

/// What a line of a script says. A line feed is not among its bytes.
pub fn parse(line: &[u8]) -> Line
    ensures { result ≡ line_of line.now }
{
    if line.is_empty() || line[0] == b'#' {
        return Line::Skip;
    }
    if line.len() > 1024 {
        return Line::Do(Command::Syntax);
    }
    Line::Do(command(line))
}
