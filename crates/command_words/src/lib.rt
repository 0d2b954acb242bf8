//! Reads the words of a command line into a command.
#![tactic(auto)]

ghost use Rattle.std.specs.Prelude.{◌≡◌, ◌≢◌, IfNone, IfOk, IfSome, None, Some, [], slice_get, true};
ghost use Rattle.clap.specs.Words.{app_of, fault_of, found_of, is_simple_and_free, matches_of, rows_of};
ghost use Rattle.command_words.specs.Apps.{name_of};
ghost use Rattle.command_words.specs.Words.{Gives, asked, texts_of};

mod apps;
mod commands;
mod fault;
mod limits;
mod texts;
mod values;

pub use apps::Name;
use clap::ArgMatches;
pub use commands::{
    BatchWords, Command, FollowWords, GenWords, GoalWords, LanesWords, ProveWords, ServeWords,
    SingleWords, StillCommand, TakeWords, VerifyWords, WaitingCommand, WriteWords,
};
pub use fault::{WordsFault, WordsWant};
pub use limits::{
    Budget, FeedCount, LaneCount, LinkCount, SearchLimits, UnlimitedQuery, WorkerCount,
};
use std::alloc::Global;
pub use texts::{FileNames, Word};

/// Reads the words of a command line, of which the first names the command.
///
/// The words after it are `--name value` or `--name=value` in any order, and the names of files. Behind a
/// word `--` all words name files. The texts of the command are those of the words.
pub fn read_words<'a>(alloc: Global, words: &'a [String]) -> Result<Command<'a>, WordsFault>
    ensures { Gives result (asked (texts_of words.entry.now)) }
{
    let Some(first) = first_named(words) else {
        return Err(WordsFault::Refused);
    };
    let (word, name) = first;
    let matches = matches_of(name.app(alloc, word)?, words)?;
    values::read(alloc, name, &matches)
}

// The first word, and the command that it names.
#[tactic(auto, unfolding(crate::specs::Words::asked))]
fn first_named<'a>(words: &'a [String]) -> Option<(&'a str, Name)>
    ensures word { IfSome result (λ r. slice_get (texts_of words.entry.now) 0 ≡ Some r.0.now) }
    ensures names { IfSome result (λ r. name_of r.0.now ≡ Some r.1) }
    ensures none { IfNone result (asked (texts_of words.entry.now) ≡ None) }
{
    let word = words.first()?.as_str();
    Some((word, Name::of(word)?))
}

// The values that the words give to the command's arguments.
fn matches_of<'a>(
    command: clap::Command<'a>,
    words: &'a [String],
) -> Result<ArgMatches<'a>, WordsFault>
    requires { is_simple_and_free (app_of command) ≡ true }
    ensures accepted { IfOk result (λ m.
        fault_of (app_of command.entry) (texts_of words.entry.now) ≡ []) }
    ensures rows { IfOk result (λ m. rows_of (found_of m)
        ≡ matches_of (app_of command.entry) (texts_of words.entry.now)) }
    ensures refused { result ≡ Err WordsFault.Refused
        → fault_of (app_of command.entry) (texts_of words.entry.now) ≢ [] }
{
    Ok(command.try_get_matches_from(words)?)
}
