//! What is kept of a run while its serial view is made.
ghost use Rattle.std.specs.Prelude.{◌≡◌, ◌<◌, ◌≤◌, ◌++◌, ◌∷◌, [], ℕ, length, replicate, slice_index, Contains, OnOk};
ghost use Rattle.std.specs.List.{flat_map};
ghost use Rattle.ipl_base.specs.declared.limits.TheConstants.{SESSIONS};
ghost use Rattle.serial_view.specs.Serial.{session_of};
ghost use Rattle.serial_view.specs.Turns.{KeptTurns, after_refused, after_accepted, is_turn_of, turns_from, HasSlot, kept_of};

use ipl_base::SESSIONS;
use ipl_model::Command;
use std::alloc::{AllocError, Global};

/// The session to whose transaction a command belongs.
fn session_of(command: &Command) -> Option<u32>
    ensures { result ≡ session_of command.now }
{
    match command {
        Command::Begin(s)
        | Command::Get(s, _)
        | Command::Share(s, _)
        | Command::Put(s, _, _)
        | Command::Del(s, _)
        | Command::Commit(s) => Some(*s),
        Command::Abort(_)
        | Command::List(_, _)
        | Command::Batch(_)
        | Command::Merge(_)
        | Command::Restart
        | Command::Syntax => None,
    }
}

/// The turn is that of session s.
fn is_turn_of(s: u32, turn: Option<u32>) -> bool
    ensures { result ≡ is_turn_of s turn }
{
    match turn {
        Some(t) => t == s,
        None => false,
    }
}

/// Appends the positions of a session's turns from `from` on, rising.
fn append_turns(
    order: &mut Vec<usize>,
    turns: &[Option<u32>],
    s: u32,
    from: usize,
) -> Result<(), AllocError>
    ensures { OnOk result (order.new.items ≡ order.old.items ++ turns_from turns.now s from) }
{
    for at in from..turns.len() {
        if is_turn_of(s, turns[at]) {
            order.push(at)?;
        }
    }
    Ok(())
}

/// Appends the positions of the turns of several sessions since they last began, one session after the other.
fn append_batch(
    order: &mut Vec<usize>,
    turns: &[Option<u32>],
    begun: &[usize; ROOM],
    sessions: &[u32],
) -> Result<(), AllocError>
    requires { (s : ℕ) → Contains sessions.now s → s < SESSIONS }
    ensures { OnOk result (order.new.items ≡ order.old.items
        ++ flat_map (λ s. turns_from turns.now s (slice_index begun.now s)) sessions.now) }
{
    for s in sessions {
        let from = begun[*s as usize];
        append_turns(order, turns, *s, from)?;
    }
    Ok(())
}

/// The positions of sessions that are kept.
const ROOM: usize = SESSIONS as usize;

/// Whose turn each command was, none where it was refused or belongs to no transaction; where each of 32
/// sessions last began; and the positions of the view so far. A contract sees it by `kept_of`.
#[derive(Drop)]
pub struct TurnTable {
    turns: Vec<Option<u32>>,
    begun: [usize; ROOM],
    order: Vec<usize>,
}

impl TurnTable {
    /// The table before the first command.
    pub fn new(alloc: Global) -> TurnTable
        ensures turns { (kept_of result).turns ≡ [] }
        ensures order { (kept_of result).order ≡ [] }
        ensures begun { (kept_of result).begun ≡ replicate SESSIONS 0 }
    {
        TurnTable {
            turns: Vec::new(alloc),
            begun: [0; ROOM],
            order: Vec::new(alloc),
        }
    }

    /// How many commands there were, which is the position of the next.
    pub fn len(&self) -> usize
        ensures { result ≡ length (kept_of self.now).turns }
    {
        self.turns.len()
    }

    /// Keeps that a command was refused.
    pub fn skip(&mut self) -> Result<(), AllocError>
        ensures { OnOk result (kept_of self.new ≡ after_refused (kept_of self.old)) }
    {
        self.turns.push(None)?;
        Ok(())
    }

    /// Keeps whose turn an accepted command was: at a commit its session's turns join the view.
    pub fn take(&mut self, command: &Command) -> Result<(), AllocError>
        requires { HasSlot command.now }
        ensures { OnOk result (kept_of self.new ≡ after_accepted (kept_of self.old) command.now) }
    {
        let at = self.turns.len();
        self.turns.push(session_of(command))?;
        match command {
            Command::Begin(s) => self.begun[*s as usize] = at,
            Command::Commit(s) => {
                let from = self.begun[*s as usize];
                append_turns(&mut self.order, &self.turns, *s, from)?;
            }
            Command::Batch(sessions) => {
                let order = &mut self.order;
                append_batch(order, &self.turns, &self.begun, sessions.numbers())?;
                order.push(at)?;
            }
            _ => {}
        }
        Ok(())
    }

    /// The positions of the view.
    pub(crate) fn into_order(self) -> Vec<usize>
        ensures { result.items ≡ (kept_of self).order }
    {
        self.order
    }
}
