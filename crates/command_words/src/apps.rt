//! The commands by name, and what `clap` is told of each.
ghost use Rattle.std.specs.Prelude.{◌≡◌, IfOk, map};
ghost use Rattle.clap.specs.Words.{app_of, with_rule};
ghost use Rattle.command_words.specs.Apps.{bare_app, files_rule, flag_rule, option_rule, with_options};

use clap::{Arg, ArgAction, Command};
use road_network::AnswerKind;
use std::alloc::{AllocError, Global};

/// A command's name.
#[derive(Clone, Copy)]
pub enum Name {
    Single(AnswerKind),
    Goal,
    Check,
    Batch,
    Gen,
    Lanes,
    Serve,
    Prove,
    Verify,
    Follow,
}

impl Name {
    ghost use Rattle.command_words.specs.Apps.{app_for, name_of, needed_of, options_app, taken_of};

    /// The command that a word names.
    pub(crate) fn of(word: &str) -> Option<Name>
        ensures { result ≡ name_of word.now }
    {
        match word {
            "costs" => Some(Name::Single(AnswerKind::Costs)),
            "one" => Some(Name::Single(AnswerKind::Walks)),
            "goal" => Some(Name::Goal),
            "check" => Some(Name::Check),
            "batch" => Some(Name::Batch),
            "gen" => Some(Name::Gen),
            "lanes" => Some(Name::Lanes),
            "serve" => Some(Name::Serve),
            "prove" => Some(Name::Prove),
            "verify" => Some(Name::Verify),
            "follow" => Some(Name::Follow),
            _ => None,
        }
    }

    /// The arguments of the command, which this word names.
    pub(crate) fn app<'a>(self, alloc: Global, word: &'a str) -> Result<Command<'a>, AllocError>
        ensures { IfOk result (λ c. app_of c ≡ app_for word.entry.now self) }
    {
        let command = self.with_its_options(alloc, word)?;
        match self {
            Name::Gen => Ok(command),
            Name::Batch => with_files(alloc, with_flag(alloc, command, "goal")?),
            _ => with_files(alloc, command),
        }
    }

    fn with_its_options<'a>(self, alloc: Global, word: &'a str) -> Result<Command<'a>, AllocError>
        ensures { IfOk result (λ c. app_of c ≡ options_app word.entry.now self) }
    {
        let command = bare(alloc, word);
        let command = with_options(alloc, command, self.needed(), true)?;
        with_options(alloc, command, self.taken(), false)
    }

    /// The options that must be given.
    fn needed<'a>(self) -> &'a [&'a str]
        ensures { map (λ s. s.now) result.now ≡ needed_of self }
    {
        match self {
            Name::Single(_) | Name::Goal | Name::Prove => &["from", "to"],
            Name::Batch => &["pairs"],
            Name::Gen => &["start", "side", "criteria", "pairs"],
            Name::Lanes => &["operator", "sessions"],
            Name::Serve => &["listen", "operator"],
            Name::Verify => &["cert"],
            Name::Check | Name::Follow => &[],
        }
    }

    /// The options that may be given besides.
    fn taken<'a>(self) -> &'a [&'a str]
        ensures { map (λ s. s.now) result.now ≡ taken_of self }
    {
        match self {
            Name::Single(_) | Name::Batch | Name::Prove => &["budget", "workers"],
            Name::Goal => &["budget"],
            Name::Gen => &["file", "budget", "workers"],
            Name::Lanes => &["lanes", "epoch", "budget", "workers"],
            Name::Serve => &["lanes", "links", "epoch", "budget", "workers"],
            Name::Follow => &[
                "write", "feeds", "sessions", "links", "lanes", "epoch", "budget", "workers",
            ],
            Name::Check | Name::Verify => &[],
        }
    }
}

// A command with no flags for help and the version.
fn bare<'a>(alloc: Global, name: &'a str) -> Command<'a>
    ensures { app_of result ≡ bare_app name.entry.now }
{
    Command::new(alloc, name)
        .disable_help_flag(true)
        .disable_version_flag(true)
}

// The command with options of these names besides, each of which must be given, or may be.
fn with_options<'a>(
    alloc: Global,
    command: Command<'a>,
    names: &[&'a str],
    required: bool,
) -> Result<Command<'a>, AllocError>
    ensures { IfOk result (λ c. app_of c
        ≡ with_options required (app_of command.entry) (map (λ s. s.now) names.now)) }
{
    let mut command = command;
    for name in names {
        command = with_option(alloc, command, *name, required)?;
    }
    Ok(command)
}

fn with_option<'a>(
    alloc: Global,
    command: Command<'a>,
    name: &'a str,
    required: bool,
) -> Result<Command<'a>, AllocError>
    ensures { IfOk result (λ c.
        app_of c ≡ with_rule (app_of command.entry) (option_rule name.entry.now required)) }
{
    let option = Arg::new(alloc, name)
        .long(name)
        .action(ArgAction::Set)
        .required(required);
    command.arg(option)
}

// The command with a flag of this name besides.
fn with_flag<'a>(
    alloc: Global,
    command: Command<'a>,
    name: &'a str,
) -> Result<Command<'a>, AllocError>
    ensures { IfOk result (λ c.
        app_of c ≡ with_rule (app_of command.entry) (flag_rule name.entry.now)) }
{
    let flag = Arg::new(alloc, name).long(name).action(ArgAction::SetTrue);
    command.arg(flag)
}

fn with_files<'a>(alloc: Global, command: Command<'a>) -> Result<Command<'a>, AllocError>
    ensures { IfOk result (λ c. app_of c ≡ with_rule (app_of command.entry) files_rule) }
{
    let files = Arg::new(alloc, "files")
        .action(ArgAction::Append)
        .required(true);
    command.arg(files)
}
