//! A desk over the real streams of the process.
ghost use Rattle.std.specs.Prelude.{◌≡◌, ◌≢◌, IfErr};
ghost use Rattle.std.specs.Io.{ReadsAtMost};
ghost use Rattle.std.specs.IoError.{error_kind};
ghost use Rattle.ipl_cli.specs.RealDesk.{real_told, real_told_of, real_consistently};

use chip_trait::{Chip, Desk, Failed, Wear};
use std::io;
use std::io::{ErrorKind, Read, Write};
use std::rt::{Stderr, Stdin, Stdout};

/// A chip with the streams of the process. Of what they hold it tells nothing.
#[derive(Drop)]
pub struct RealDesk<C: Chip + Drop> {
    chip: C,
    input: Stdin,
    output: Stdout,
    error: Stderr,
    script_bytes: u64,
    script_faults: u64,
    say_faults: u64,
}

impl<C: Chip + Drop> RealDesk<C> {
    /// A desk that has counted nothing yet.
    pub fn new(chip: C, input: Stdin, output: Stdout, error: Stderr) -> RealDesk<C>
        ensures { real_told_of C.told result ≡ real_told (C.told chip) 0 0 0 }
    {
        RealDesk {
            chip,
            input,
            output,
            error,
            script_bytes: 0,
            script_faults: 0,
            say_faults: 0,
        }
    }
}

impl<C: Chip + Drop> Chip for RealDesk<C> {
    ghost use Rattle.std.specs.Prelude.{◌<◌, MatchResult, OnOk, OnErr, IfSome};
    ghost use Rattle.chip_trait.specs.declared.event.Event.TheVariants.{Read, Program, Erase, Barrier};
    ghost use Rattle.chip_trait.specs.Told.{Appends, Misses, Breaks, Halts, Counts, Rose};
    ghost use Rattle.chip_trait.specs.Wears.{Wears};

    ghost told = { real_told_of C.told };

    ghost consistent = { λ d. real_consistently (C.told d.chip) d.script_bytes d.script_faults d.say_faults };

    fn units(&self) -> u32 {
        self.chip.units()
    }

    /// It is a read of the chip within.
    fn read(&mut self, p: u32, s: u32, into: &mut [u8; 512]) -> Result<(), Failed>
        requires place { p < (C.told self.old.chip).places }
        requires sector { s < 256 }
        ensures within { MatchResult result
            (λ _. Appends (Read p s) (C.told self.old.chip) (C.told self.new.chip))
            (λ _. Misses (Read p s) (C.told self.old.chip) (C.told self.new.chip)) }
        ensures held { OnOk result (IfSome (C.told self.old.chip).contents (λ x. into.new ≡ x p s)) }
        ensures counts { Counts (real_told_of C.told self.old) (real_told_of C.told self.new) }
        ensures cause { OnErr result (Rose (C.told self.old.chip).read_faults (C.told self.new.chip).read_faults) }
    {
        self.chip.read(p, s, into)
    }

    /// It is a programming of the chip within.
    fn program(&mut self, p: u32, s: u32, from: &[u8; 512]) -> Result<(), Failed>
        requires place { p < (C.told self.old.chip).places }
        requires sector { s < 256 }
        ensures within { MatchResult result
            (λ _. Appends (Program p s from.now) (C.told self.old.chip) (C.told self.new.chip))
            (λ _. Breaks (Program p s from.now) (C.told self.old.chip) (C.told self.new.chip)) }
        ensures counts { Counts (real_told_of C.told self.old) (real_told_of C.told self.new) }
        ensures cause { OnErr result (Rose (C.told self.old.chip).write_faults (C.told self.new.chip).write_faults) }
    {
        self.chip.program(p, s, from)
    }

    /// It is an erase of the chip within.
    fn erase(&mut self, p: u32) -> Result<Wear, Failed>
        requires { p < (C.told self.old.chip).places }
        ensures within { MatchResult result
            (λ wear. Wears wear p (C.told self.old.chip) (C.told self.new.chip))
            (λ _. Breaks (Erase p) (C.told self.old.chip) (C.told self.new.chip)) }
        ensures counts { Counts (real_told_of C.told self.old) (real_told_of C.told self.new) }
        ensures cause { OnErr result (Rose (C.told self.old.chip).write_faults (C.told self.new.chip).write_faults) }
    {
        self.chip.erase(p)
    }

    /// It is a barrier of the chip within.
    fn barrier(&mut self) -> Result<(), Failed>
        ensures within { MatchResult result
            (λ _. Appends Barrier (C.told self.old.chip) (C.told self.new.chip))
            (λ _. Halts (C.told self.old.chip) (C.told self.new.chip)) }
        ensures counts { Counts (real_told_of C.told self.old) (real_told_of C.told self.new) }
        ensures cause { OnErr result (Rose (C.told self.old.chip).write_faults (C.told self.new.chip).write_faults) }
    {
        self.chip.barrier()
    }
}

impl<C: Chip + Drop> Desk for RealDesk<C> {
    fn read_script(&mut self, buf: &mut [u8]) -> Result<usize, Failed> {
        match read_uninterrupted(&mut self.input, buf) {
            Ok(count) => {
                self.script_bytes = self.script_bytes.saturating_add(count as u64);
                Ok(count)
            }
            Err(_) => {
                self.script_faults = self.script_faults.saturating_add(1);
                Err(Failed)
            }
        }
    }

    fn say(&mut self, piece: &[u8]) -> Result<(), Failed> {
        match self.output.write_all(piece) {
            Ok(()) => Ok(()),
            Err(_) => {
                self.say_faults = self.say_faults.saturating_add(1);
                Err(Failed)
            }
        }
    }

    fn note(&mut self, piece: &[u8]) {
        // There is nobody left to tell that it failed.
        let _ = self.error.write_all(piece);
    }
}

/// Reads from the input, and again where a signal came before any byte.
fn read_uninterrupted<R: Read>(input: &mut R, buf: &mut [u8]) -> io::Result<usize>
    ensures bound { ReadsAtMost result buf.new }
    ensures cause { IfErr result (λ fault. error_kind fault ≢ ErrorKind.Interrupted) }
{
    for _ in 0..u64::MAX {
        match input.read(buf) {
            Err(fault) if fault.kind() == ErrorKind::Interrupted => {}
            read => return read,
        }
    }
    Err(io::Error::from(ErrorKind::TimedOut))
}
