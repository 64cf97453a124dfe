//! How many records there are, and the sum of their lines.
ghost use Rattle.std.specs.Prelude.{◌≡◌, ◌∷◌, ◌++◌, ◌+◌, ◌<◌, [], ℕ, List};
ghost use Rattle.crc_sum.specs.Crc.{crc};
ghost use Rattle.ipl_model.specs.Run.{joined_lines};
ghost use Rattle.ipl_model.specs.declared.reply.Reply.TheVariants as reply;
ghost use Rattle.ipl_model.specs.Text.{reply_text};
ghost use Rattle.script_run.specs.TrialSummary.{HasTaken, RecordSum};

use crc_sum::Crc;
use ipl_base::Value;
use ipl_model::Reply;
use script_text::{TextLine, print};
use std::marker::Model;

/// How many records were taken, and the CRC-32 of their lines as far as it is. A contract sees which
/// lines were taken by `HasTaken`.
#[derive(Debug, Drop)]
pub struct Records {
    count: u32,
    lines: Crc,
}

impl Model for Records {
    ghost Value = { RecordSum };

    ghost view = { λ v. record { count = v.count; register = v.lines } };
}

impl Records {
    /// None was taken.
    pub fn new() -> Records
        ensures none { HasTaken result [] }
        ensures count { result.count ≡ 0 }
    {
        Records {
            count: 0,
            lines: Crc::start(),
        }
    }

    /// Takes a record more: its line, as a list says it, goes behind those that were taken.
    pub fn take(&mut self, name: u32, value: Value)
        requires { self.old.count < 4294967295 }
        ensures takes { (lines : List (List ℕ)) → HasTaken self.old lines
            → HasTaken self.new (lines ++ reply_text (reply.Row name value) ∷ []) }
        ensures more { self.new.count ≡ self.old.count + 1 }
    {
        let mut line = TextLine::empty();
        print(&Reply::Row(name, value), &mut line);
        self.lines.feed(line.bytes());
        self.count += 1;
    }

    /// How many records were taken.
    pub fn count(&self) -> u32
        ensures { result ≡ self.now.count }
    {
        self.count
    }

    /// The CRC-32 of the lines that were taken, joined.
    pub fn sum(&self) -> u32
        ensures { (lines : List (List ℕ)) → HasTaken self.now lines → result ≡ crc (joined_lines lines) }
    {
        self.lines.sum()
    }
}
