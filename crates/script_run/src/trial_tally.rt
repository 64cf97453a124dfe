//! What is counted of the commands of a trial and their replies.
ghost use Rattle.std.specs.Prelude.{◌≡◌, ◌∷◌, ◌++◌, ◌+◌, ◌<◌, ◌≤◌, [], List};
ghost use Rattle.script_run.specs.TrialSummary.{Exchange, TrialCounts, counts_of};

use ipl_base::Refusal;
use ipl_model::{Command, Reply};
use std::marker::Model;

/// How many commands there were, how many commits and aborts were done, and how many commands met a
/// conflict. A contract sees the four counts; none of them is above the first.
#[derive(Debug, Drop)]
pub struct Tally {
    commands: u32,
    commits: u32,
    aborts: u32,
    conflicts: u32,
}

impl Model for Tally {
    ghost Value = { TrialCounts };

    ghost view = { λ v. record { commands = v.commands; commits = v.commits; aborts = v.aborts; conflicts = v.conflicts } };

    ghost invariant = { λ v. (v.commits ≤ v.commands) × (v.aborts ≤ v.commands) × (v.conflicts ≤ v.commands) };
}

impl Tally {
    /// Of no command.
    pub fn new() -> Tally
        ensures { result ≡ counts_of [] }
    {
        Tally {
            commands: 0,
            commits: 0,
            aborts: 0,
            conflicts: 0,
        }
    }

    /// Counts one command more, with its reply.
    pub fn note(&mut self, command: &Command, reply: &Reply)
        requires { self.old.commands < 4294967295 }
        ensures counts { (seen : List Exchange) → self.old ≡ counts_of seen
            → self.new ≡ counts_of (seen ++ (command.now, reply.now) ∷ []) }
        ensures more { self.new.commands ≡ self.old.commands + 1 }
    {
        match (command, reply) {
            (Command::Commit(_) | Command::Batch(_), Reply::Ok) => self.commits += 1,
            (Command::Abort(_), Reply::Ok) => self.aborts += 1,
            (_, Reply::Refused(Refusal::Conflict(_))) => self.conflicts += 1,
            _ => {}
        }
        self.commands += 1;
    }

    /// How many commands there were.
    pub fn commands(&self) -> u32
        ensures { result ≡ self.now.commands }
    {
        self.commands
    }

    /// How many commits were done.
    pub fn commits(&self) -> u32
        ensures { result ≡ self.now.commits }
    {
        self.commits
    }

    /// How many aborts were done.
    pub fn aborts(&self) -> u32
        ensures { result ≡ self.now.aborts }
    {
        self.aborts
    }

    /// How many commands met a conflict.
    pub fn conflicts(&self) -> u32
        ensures { result ≡ self.now.conflicts }
    {
        self.conflicts
    }
}
