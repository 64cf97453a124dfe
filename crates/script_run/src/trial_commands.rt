//! The commands of a trial, one after another.
ghost use Rattle.std.specs.Prelude.{◌≡◌, ◌∷◌, ◌+◌, ◌*◌, ◌/◌, ◌%◌, ◌<◌, ◌≤◌, ℕ};
ghost use Rattle.ipl_base.specs.declared.limits.TheConstants.{MOST_UNITS};
ghost use Rattle.rand_xoshiro.specs.SplitMix64.{mix_u64};
ghost use Rattle.script_run.specs.TrialSource.{WordSource};
ghost use Rattle.script_run.specs.TrialWords.{IsOfTrial, command_of_word, commands_from, name_of, operation_of, put_bytes, session_of};

use ipl_base::SHORT_LEN;
use ipl_model::{Command, PutBytes};
use rand_core::SeedableRng;
use rand_core::utils::NextWord;
use rand_xoshiro::SplitMix64;
use std::marker::Model;

/// The next word. The generator's 32-bit output is never drawn.
fn next_word(words: &mut SplitMix64) -> u64
    ensures { (result, words.new) ≡ mix_u64 words.old }
{
    words.next_word()
}

/// The session that a word says, below 8.
fn session(word: u64) -> u32
    ensures { result ≡ session_of word }
{
    (word % 8) as u32
}

/// The operation that a word says, below 16.
fn operation(word: u64) -> u64
    ensures { result ≡ operation_of word }
{
    word / 8 % 16
}

/// The name that a word says, in a store of so many units.
fn name(units: u32, word: u64) -> u32
    requires { units ≤ MOST_UNITS }
    ensures { result ≡ name_of units word }
{
    (word / 128 % 512) as u32 * units
}

/// The bytes of a put, at most 108.
fn bytes(word: u64) -> PutBytes
    ensures { result ≡ put_bytes word }
{
    let len = (word / 65536 % 109) as usize;
    let first = word / 4_294_967_296;
    let mut bytes = [0u8; SHORT_LEN];
    for i in 0..len {
        bytes[i] = ((first + i as u64) % 256) as u8;
    }
    PutBytes::of(&bytes[..len])
}

/// The command that a word says, in a store of so many units.
#[tactic(auto, unfolding(crate::specs::TrialWords::command_of_word))]
fn command(units: u32, word: u64) -> Command
    requires { units ≤ MOST_UNITS }
    ensures value { result ≡ command_of_word units word }
    ensures kind { IsOfTrial result }
{
    match operation(word) {
        0..=2 => Command::Begin(session(word)),
        3..=8 => Command::Put(session(word), name(units, word), bytes(word)),
        9 => Command::Del(session(word), name(units, word)),
        10..=11 => Command::Get(session(word), name(units, word)),
        12 => Command::Share(session(word), name(units, word)),
        13..=14 => Command::Commit(session(word)),
        _ => Command::Abort(session(word)),
    }
}

/// The commands of a trial, one after another, without end. A contract sees how many units there are,
/// and the state of the generator.
#[derive(Debug, Drop)]
pub struct TrialCommands {
    units: u32,
    words: SplitMix64,
}

impl Model for TrialCommands {
    ghost Value = { WordSource };

    ghost view = { λ v. record { units = v.units; state = v.words } };

    ghost invariant = { λ v. v.units ≤ MOST_UNITS };
}

impl TrialCommands {
    /// The commands of a seed, for a store of at most 1,024 units.
    pub fn of(units: u32, seed: u32) -> TrialCommands
        requires { units ≤ MOST_UNITS }
        ensures { result ≡ record { units = units; state = seed } }
    {
        TrialCommands {
            units,
            words: SplitMix64::seed_from_u64(u64::from(seed)),
        }
    }

    /// The next command. It is the first of all that were to come, and the others are still to come.
    pub fn next(&mut self) -> Command
        ensures next { (count : ℕ)
            → commands_from self.old (count + 1) ≡ result ∷ commands_from self.new count }
        ensures kind { IsOfTrial result }
    {
        command(self.units, next_word(&mut self.words))
    }
}
