//! What a line says.
use script_text::number;

/// A command of a session, which comes first; then a key, then a value.
#[derive(Clone, Copy)]
pub enum Command<'a> {
    Begin(u32),
    Get(u32, &'a str),
    Put(u32, &'a str, &'a str),
    Del(u32, &'a str),
    Commit(u32),
    Abort(u32),
}

/// The command that a line is, if it is one. There is one space between its words; the value of a
/// `put` is all that stands behind its key and a space, with any further spaces.
pub fn parse(line: &str) -> Option<Command<'_>> {
    let (verb, rest) = line.split_once(' ')?;
    let Some((session, rest)) = rest.split_once(' ') else {
        return of_session(verb, number(rest.as_bytes())?);
    };
    let s = number(session.as_bytes())?;
    match (verb, rest.split_once(' ')) {
        ("get", None) => Some(Command::Get(s, rest)),
        ("put", Some((key, value))) => Some(Command::Put(s, key, value)),
        ("del", None) => Some(Command::Del(s, rest)),
        _ => None,
    }
}

/// The command on a session alone.
fn of_session<'a>(verb: &str, s: u32) -> Option<Command<'a>> {
    match verb {
        "begin" => Some(Command::Begin(s)),
        "commit" => Some(Command::Commit(s)),
        "abort" => Some(Command::Abort(s)),
        _ => None,
    }
}
