//! The usage, as a command of clap.
ghost use Rattle.std.specs.Prelude.{◌≡◌, false, IfOk, codes};
ghost use Rattle.clap.specs.Words.{app_of, rule_of};
ghost use Rattle.program_words.specs.Usage.{bare, option_rule, flag_rule, playing, usage};

use clap::{Arg, ArgAction, Command};
use std::alloc::{AllocError, Global};

/// A long option with one value.
fn option<'a>(alloc: Global, name: &'a str) -> Arg<'a>
    ensures rule { rule_of result ≡ option_rule name.entry.now }
    ensures local { result.global ≡ false }
{
    Arg::new(alloc, name).long(name).action(ArgAction::Set)
}

/// A flag.
fn flag<'a>(alloc: Global, name: &'a str) -> Arg<'a>
    ensures rule { rule_of result ≡ flag_rule name.entry.now }
    ensures local { result.global ≡ false }
{
    Arg::new(alloc, name).long(name).action(ArgAction::SetTrue)
}

/// The command without options.
fn bare<'a>(alloc: Global) -> Command<'a>
    ensures { app_of result ≡ bare }
{
    Command::new(alloc, "perfly")
        .no_binary_name(true)
        .disable_help_flag(true)
        .disable_version_flag(true)
}

/// The command with the options that say how a play is played: `[--mode m] [--dbase] [--ahead n]`.
fn playing<'a>(alloc: Global) -> Result<Command<'a>, AllocError>
    ensures { IfOk result (λ c. app_of c ≡ playing) }
{
    bare(alloc)
        .arg(option(alloc, "mode"))?
        .arg(flag(alloc, "dbase"))?
        .arg(option(alloc, "ahead"))
}

/// `perfly [--mode m] [--dbase] [--ahead n] [--make n] [--probe s] [--stream n]`
pub(crate) fn usage<'a>(alloc: Global) -> Result<Command<'a>, AllocError>
    ensures { IfOk result (λ c. app_of c ≡ usage) }
{
    playing(alloc)?
        .arg(option(alloc, "make"))?
        .arg(option(alloc, "probe"))?
        .arg(option(alloc, "stream"))
}
