//! The text of a reply.
ghost use Rattle.std.specs.Prelude.{◌≡◌, ◌≤◌, ◌<◌, ◌+◌, ◌*◌, ◌++◌, codes, length};
ghost use Rattle.std.specs.Fmt.{decimal};
ghost use Rattle.ipl_base.specs.declared.limits.TheConstants.{VALUE_LEN};
ghost use Rattle.ipl_model.specs.Text.{refusal_text, reply_text, value_text};
ghost use Rattle.script_text.specs.declared.text_line.TheConstants.{LINE_LEN};

use crate::text_line::TextLine;
use ipl_base::{Refusal, VALUE_LEN, Value};
use ipl_model::Reply;

/// Appends a word and a number.
fn push_numbered(word: &[u8], number: u32, out: &mut TextLine)
    requires { length out.old + length word.now + 10 ≤ LINE_LEN }
    ensures text { out.new ≡ out.old ++ (word.now ++ decimal number) }
    ensures len { length out.new ≤ length out.old + length word.now + 10 }
{
    out.push(word);
    out.push_number(number);
}

/// Appends the number and the word of a refusal.
fn push_refusal(refusal: Refusal, out: &mut TextLine)
    requires { length out.old + 32 ≤ LINE_LEN }
    ensures text { out.new ≡ out.old ++ refusal_text refusal }
    ensures len { length out.new ≤ length out.old + 32 }
{
    match refusal {
        Refusal::BadSession => out.push(b"2 badsession"),
        Refusal::BadName => out.push(b"3 badname"),
        Refusal::TooLong => out.push(b"4 toolong"),
        Refusal::AlreadyOpen => out.push(b"5 alreadyopen"),
        Refusal::NotOpen => out.push(b"6 notopen"),
        Refusal::Conflict(holder) => push_numbered(b"7 conflict ", holder, out),
        Refusal::WritesFull => out.push(b"8 writesfull"),
        Refusal::SharesFull => out.push(b"9 sharesfull"),
        Refusal::PendingFull(unit) => push_numbered(b"10 pendingfull ", unit, out),
        Refusal::BadUnit => out.push(b"11 badunit"),
        Refusal::HoldsFull => out.push(b"12 holdsfull"),
        Refusal::NotHeld => out.push(b"13 notheld"),
        Refusal::PageFull => out.push(b"14 pagefull"),
        Refusal::Twice(s) => push_numbered(b"15 twice ", s, out),
        Refusal::SessionsOpen(s) => push_numbered(b"16 sessionsopen ", s, out),
    }
}

/// Appends a value in hex digits, or a dash where it is empty.
fn push_value(value: &Value, out: &mut TextLine)
    requires { length out.old + 2 * VALUE_LEN ≤ LINE_LEN }
    ensures text { out.new ≡ out.old ++ value_text value.now }
    ensures len { length out.new ≤ length out.old + 2 * VALUE_LEN }
{
    let bytes = value.bytes();
    if bytes.is_empty() {
        out.push(b"-");
        return;
    }
    let mut digits = [0u8; 2 * VALUE_LEN];
    let room = &mut digits[..2 * bytes.len()];
    let _ = hex::encode_to_slice(bytes, room);
    out.push(&digits[..2 * bytes.len()]);
}

/// Appends a record's row: its name, a space, its value and a line feed.
fn push_row(name: u32, value: &Value, out: &mut TextLine)
    requires { length out.old + 2 * VALUE_LEN + 12 ≤ LINE_LEN }
    ensures text { out.new ≡ out.old ++ decimal name ++ codes " " ++ value_text value.now ++ codes "\n" }
    ensures some { 0 < length out.new }
{
    out.push_number(name);
    out.push(b" ");
    push_value(value, out);
    out.push(b"\n");
}

/// Writes a line of a reply with its line feed, in place of what the line held.
fn print_line(reply: &Reply, out: &mut TextLine)
    ensures text { out.new ≡ reply_text reply.now }
    ensures some { 0 < length out.new }
{
    out.clear();
    match reply {
        Reply::Ok => out.push(b"ok\n"),
        Reply::Nothing => out.push(b"none\n"),
        Reply::Value(value) => {
            out.push(b"value ");
            push_value(value, out);
            out.push(b"\n");
        }
        Reply::Row(name, value) => push_row(*name, value, out),
        Reply::End => out.push(b"end\n"),
        Reply::Syntax => out.push(b"err 1 syntax\n"),
        Reply::Refused(refusal) => {
            out.push(b"err ");
            push_refusal(*refusal, out);
            out.push(b"\n");
        }
    }
}

/// Writes a line of a reply with its line feed, in place of what the line held. Answers how many
/// bytes it has.
pub fn print(reply: &Reply, out: &mut TextLine) -> usize
    ensures text { out.new ≡ reply_text reply.now }
    ensures count { result ≡ length (reply_text reply.now) }
    ensures some { 0 < result }
    ensures fits { result ≤ LINE_LEN }
{
    print_line(reply, out);
    out.bytes().len()
}
