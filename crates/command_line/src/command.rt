//! The command that the words are read by.
ghost use Rattle.std.specs.Prelude.{◌≡◌, IfOk, false};
ghost use Rattle.clap.specs.Words.{app_of, rule_of};
ghost use Rattle.clap.specs.declared.builder.command.Command.TheViews.{out-Command as fields_of};
ghost use Rattle.command_line.specs.Ipl.{chip_rule, flag_rule, number_rule, frames_rule, sessions_rule, numbers_rule, spares_rule};
ghost use Rattle.command_line.specs.Ipl.{wanted_rule, format_command, run_command, serial_command};
ghost use Rattle.command_line.specs.Ipl.{trial_command, check_command, list_command, ipl_command};

use clap::builder::ValueParser;
use clap::{Arg, ArgAction, Command};
use std::alloc::{AllocError, Global};

/// CHIP.
fn chip_argument<'a>(alloc: Global) -> Arg<'a>
    ensures rule { rule_of result ≡ chip_rule }
    ensures local { result.global ≡ false }
{
    Arg::new(alloc, "chip").required(true)
}

/// A flag, `--format` or `--close`.
fn flag<'a>(alloc: Global, id: &'a str) -> Arg<'a>
    ensures rule { rule_of result ≡ flag_rule id.entry.now }
    ensures local { result.global ≡ false }
{
    Arg::new(alloc, id).long(id).action(ArgAction::SetTrue)
}

/// An option with one value, a number from `low` to `high`.
fn number_option<'a>(alloc: Global, id: &'a str, low: u64, high: u64) -> Arg<'a>
    ensures rule { rule_of result ≡ number_rule id.entry.now low high }
    ensures local { result.global ≡ false }
{
    Arg::new(alloc, id)
        .long(id)
        .value_parser(ValueParser::unsigned(low, high))
}

/// `--frames N`.
fn frames_option<'a>(alloc: Global) -> Arg<'a>
    ensures rule { rule_of result ≡ frames_rule }
    ensures local { result.global ≡ false }
{
    number_option(alloc, "frames", 2, 64).default_value("16")
}

/// `--sessions S`.
fn sessions_option<'a>(alloc: Global) -> Arg<'a>
    ensures rule { rule_of result ≡ sessions_rule }
    ensures local { result.global ≡ false }
{
    number_option(alloc, "sessions", 1, 32).default_value("32")
}

/// `--numbers N`.
fn numbers_option<'a>(alloc: Global) -> Arg<'a>
    ensures rule { rule_of result ≡ numbers_rule }
    ensures local { result.global ≡ false }
{
    number_option(alloc, "numbers", 120, 15300).default_value("15300")
}

/// `--spares K`.
fn spares_option<'a>(alloc: Global) -> Arg<'a>
    ensures rule { rule_of result ≡ spares_rule }
    ensures local { result.global ≡ false }
{
    number_option(alloc, "spares", 0, 64).default_value("0")
}

/// An option that has to be there, with a number from `low` to `high`.
fn wanted_option<'a>(alloc: Global, id: &'a str, low: u64, high: u64) -> Arg<'a>
    ensures rule { rule_of result ≡ wanted_rule id.entry.now low high }
    ensures local { result.global ≡ false }
{
    number_option(alloc, id, low, high).required(true)
}

/// `format CHIP [--spares K]`.
fn format_part<'a>(alloc: Global) -> Result<Command<'a>, AllocError>
    ensures app { IfOk result (λ c. app_of c ≡ format_command) }
    ensures local { IfOk result (λ c. (fields_of c).has_globals ≡ false) }
{
    Command::new(alloc, "format")
        .arg(chip_argument(alloc))?
        .arg(spares_option(alloc))
}

/// `run CHIP [--frames N] [--sessions S] [--numbers N] [--format] [--close]`.
fn run_part<'a>(alloc: Global) -> Result<Command<'a>, AllocError>
    ensures app { IfOk result (λ c. app_of c ≡ run_command) }
    ensures local { IfOk result (λ c. (fields_of c).has_globals ≡ false) }
{
    Command::new(alloc, "run")
        .arg(chip_argument(alloc))?
        .arg(frames_option(alloc))?
        .arg(sessions_option(alloc))?
        .arg(numbers_option(alloc))?
        .arg(flag(alloc, "format"))?
        .arg(flag(alloc, "close"))
}

/// `serial CHIP [--sessions S]`.
fn serial_part<'a>(alloc: Global) -> Result<Command<'a>, AllocError>
    ensures app { IfOk result (λ c. app_of c ≡ serial_command) }
    ensures local { IfOk result (λ c. (fields_of c).has_globals ≡ false) }
{
    Command::new(alloc, "serial")
        .arg(chip_argument(alloc))?
        .arg(sessions_option(alloc))
}

/// `trial CHIP --seed N --count N [--frames N] [--sessions S] [--numbers N]`.
fn trial_part<'a>(alloc: Global) -> Result<Command<'a>, AllocError>
    ensures app { IfOk result (λ c. app_of c ≡ trial_command) }
    ensures local { IfOk result (λ c. (fields_of c).has_globals ≡ false) }
{
    Command::new(alloc, "trial")
        .arg(chip_argument(alloc))?
        .arg(wanted_option(alloc, "seed", 0, 4294967295))?
        .arg(wanted_option(alloc, "count", 0, 1000000))?
        .arg(frames_option(alloc))?
        .arg(sessions_option(alloc))?
        .arg(numbers_option(alloc))
}

/// `check CHIP`.
fn check_part<'a>(alloc: Global) -> Result<Command<'a>, AllocError>
    ensures app { IfOk result (λ c. app_of c ≡ check_command) }
    ensures local { IfOk result (λ c. (fields_of c).has_globals ≡ false) }
{
    Command::new(alloc, "check").arg(chip_argument(alloc))
}

/// `list CHIP`.
fn list_part<'a>(alloc: Global) -> Result<Command<'a>, AllocError>
    ensures app { IfOk result (λ c. app_of c ≡ list_command) }
    ensures local { IfOk result (λ c. (fields_of c).has_globals ≡ false) }
{
    Command::new(alloc, "list").arg(chip_argument(alloc))
}

/// The command `ipl`.
pub(crate) fn ipl<'a>(alloc: Global) -> Result<Command<'a>, AllocError>
    ensures { IfOk result (λ c. app_of c ≡ ipl_command) }
{
    Command::new(alloc, "ipl")
        .no_binary_name(true)
        .disable_help_flag(true)
        .disable_help_subcommand(true)
        .disable_version_flag(true)
        .subcommand(format_part(alloc)?)?
        .subcommand(run_part(alloc)?)?
        .subcommand(serial_part(alloc)?)?
        .subcommand(trial_part(alloc)?)?
        .subcommand(check_part(alloc)?)?
        .subcommand(list_part(alloc)?)
}
