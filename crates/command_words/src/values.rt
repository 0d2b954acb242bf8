//! Reads the values that the words give to a command's arguments.
ghost use Rattle.std.specs.Prelude.{◌≡◌, ◌≤◌, codes, is_none, map, option_map};
ghost use Rattle.clap.specs.Words.{all_of, first_of, found_of, rows_of};
ghost use Rattle.command_words.specs.Words.{Gives, batch_of, command_of, command_over, epoch_of, file_in, files_of, follow_by, gen_of};
ghost use Rattle.command_words.specs.Words.{goal_of, is_set, lane_count_of, lanes_of, limits_of, number_if, number_in, number_or, plan_of};
ghost use Rattle.command_words.specs.Words.{prove_of, query_of, required, serve_of, single_of, take_of, takes_none, verify_of, workers_of, write_of};

use crate::apps::Name;
use crate::commands::{
    BatchWords, Command, FollowWords, GenWords, GoalWords, LanesWords, ProveWords, ServeWords,
    SingleWords, StillCommand, TakeWords, VerifyWords, WaitingCommand, WriteWords,
};
use crate::fault::WordsFault;
use crate::limits::{
    DEFAULT_BUDGET, DEFAULT_EPOCH, DEFAULT_FEEDS, DEFAULT_LANES, DEFAULT_LINKS, DEFAULT_LISTED,
    DEFAULT_WORKERS, LaneCount, MAX_NODE, MAX_START, SearchLimits, UnlimitedQuery, WorkerCount,
};
use crate::texts::{FileNames, Word};
use clap::ArgMatches;
use graph_gen::{GenPlan, MAX_WEIGHT_FILES};
use line_text::{Numeral, decimal};
use ranged_number::Ranged;
use road_network::{AnswerKind, MAX_EPOCH};
use std::alloc::Global;

/// Reads the values of a command.
pub(crate) fn read<'a>(
    alloc: Global,
    name: Name,
    matches: &ArgMatches<'a>,
) -> Result<Command<'a>, WordsFault>
    ensures { Gives result (command_of name (rows_of (found_of matches.now))) }
{
    match name {
        Name::Gen => {
            let words = read_gen(matches).ok_or(WordsFault::Refused)?;
            Ok(Command::Still(StillCommand::Gen(words)))
        }
        _ => {
            let files = read_files(alloc, matches)?;
            read_over(name, matches, files).ok_or(WordsFault::Refused)
        }
    }
}

/// The names of the weight files.
fn read_files<'a>(alloc: Global, matches: &ArgMatches<'a>) -> Result<FileNames<'a>, WordsFault>
    ensures { Gives result (files_of (rows_of (found_of matches.now))) }
{
    let names = file_words(matches).ok_or(WordsFault::Refused)?;
    FileNames::of(alloc, names)
}

fn file_words<'m, 'a>(matches: &'m ArgMatches<'a>) -> Option<&'m [&'a str]>
    ensures { option_map (λ s. map (λ v. v.now) s.now) result
        ≡ all_of (codes "files") (rows_of (found_of matches.now)) }
{
    matches.get_strs("files")
}

/// Reads the values of a command that works over weight files.
fn read_over<'a>(name: Name, matches: &ArgMatches<'a>, files: FileNames<'a>) -> Option<Command<'a>>
    ensures { result ≡ command_over name (rows_of (found_of matches.now)) files.entry }
{
    use StillCommand::{Batch, Check, Goal, Prove, Single, Verify};
    use WaitingCommand::{Follow, Lanes, Serve};
    match name {
        Name::Single(kind) => Some(Command::Still(Single(read_single(kind, matches, files)?))),
        Name::Goal => Some(Command::Still(Goal(read_goal(matches, files)?))),
        Name::Check => Some(Command::Still(Check(files))),
        Name::Batch => Some(Command::Still(Batch(read_batch(matches, files)?))),
        Name::Gen => None,
        Name::Lanes => Some(Command::Waiting(Lanes(read_lanes(matches, files)?))),
        Name::Serve => Some(Command::Waiting(Serve(read_serve(matches, files)?))),
        Name::Prove => Some(Command::Still(Prove(read_prove(matches, files)?))),
        Name::Verify => Some(Command::Still(Verify(read_verify(matches, files)?))),
        Name::Follow => Some(Command::Waiting(Follow(read_follow(matches, files)?))),
    }
}

#[tactic(auto, unfolding(crate::specs::Words::single_of))]
fn read_single<'a>(
    kind: AnswerKind,
    matches: &ArgMatches,
    files: FileNames<'a>,
) -> Option<SingleWords<'a>>
    ensures { result ≡ single_of kind (rows_of (found_of matches.now)) files.entry }
{
    Some(SingleWords {
        kind,
        query: read_query(matches, DEFAULT_BUDGET)?,
        workers: read_workers(matches)?,
        files,
    })
}

#[tactic(auto, unfolding(crate::specs::Words::goal_of))]
fn read_goal<'a>(matches: &ArgMatches, files: FileNames<'a>) -> Option<GoalWords<'a>>
    ensures { result ≡ goal_of (rows_of (found_of matches.now)) files.entry }
{
    Some(GoalWords {
        query: read_query(matches, DEFAULT_BUDGET)?,
        files,
    })
}

#[tactic(auto, unfolding(crate::specs::Words::prove_of))]
fn read_prove<'a>(matches: &ArgMatches, files: FileNames<'a>) -> Option<ProveWords<'a>>
    ensures { result ≡ prove_of (rows_of (found_of matches.now)) files.entry }
{
    Some(ProveWords {
        query: read_query(matches, DEFAULT_LISTED)?,
        workers: read_workers(matches)?,
        files,
    })
}

#[tactic(auto, unfolding(crate::specs::Words::verify_of))]
fn read_verify<'a>(matches: &ArgMatches<'a>, files: FileNames<'a>) -> Option<VerifyWords<'a>>
    ensures { result ≡ verify_of (rows_of (found_of matches.now)) files.entry }
{
    Some(VerifyWords {
        cert: value(matches, "cert")?,
        files,
    })
}

#[tactic(auto, unfolding(crate::specs::Words::batch_of))]
fn read_batch<'a>(matches: &ArgMatches<'a>, files: FileNames<'a>) -> Option<BatchWords<'a>>
    ensures { result ≡ batch_of (rows_of (found_of matches.now)) files.entry }
{
    Some(BatchWords {
        pairs: value(matches, "pairs")?,
        goal: is_set(matches, "goal"),
        limits: read_limits(matches)?,
        files,
    })
}

#[tactic(auto, unfolding(crate::specs::Words::lanes_of))]
fn read_lanes<'a>(matches: &ArgMatches<'a>, files: FileNames<'a>) -> Option<LanesWords<'a>>
    ensures { result ≡ lanes_of (rows_of (found_of matches.now)) files.entry }
{
    Some(LanesWords {
        operator: value(matches, "operator")?,
        stem: value(matches, "sessions")?,
        count: read_count(matches)?,
        epoch: read_epoch(matches)?,
        limits: read_limits(matches)?,
        files,
    })
}

#[tactic(auto, unfolding(crate::specs::Words::serve_of))]
fn read_serve<'a>(matches: &ArgMatches<'a>, files: FileNames<'a>) -> Option<ServeWords<'a>>
    ensures { result ≡ serve_of (rows_of (found_of matches.now)) files.entry }
{
    Some(ServeWords {
        listen: value(matches, "listen")?,
        operator: value(matches, "operator")?,
        lanes: read_count(matches)?,
        links: number_or(matches, "links", DEFAULT_LINKS)?,
        epoch: read_epoch(matches)?,
        limits: read_limits(matches)?,
        files,
    })
}

fn read_follow<'a>(matches: &ArgMatches<'a>, files: FileNames<'a>) -> Option<FollowWords<'a>>
    ensures { result ≡ follow_by (first_of (codes "write") (rows_of (found_of matches.now)))
        (rows_of (found_of matches.now)) files.entry }
{
    match value(matches, "write") {
        Some(operator) => Some(FollowWords::Write(read_write(operator, matches, files)?)),
        None => Some(FollowWords::Take(read_take(matches, files)?)),
    }
}

/// The words that write the feed of an operator's script.
#[tactic(auto, unfolding(crate::specs::Words::write_of))]
fn read_write<'a>(
    operator: Word<'a>,
    matches: &ArgMatches,
    files: FileNames<'a>,
) -> Option<WriteWords<'a>>
    ensures { result ≡ write_of operator.entry (rows_of (found_of matches.now)) files.entry }
{
    let epoch = read_epoch(matches)?;
    if !takes_none(matches) {
        return None;
    }
    Some(WriteWords {
        operator,
        epoch,
        files,
    })
}

/// Whether no option is given that only a follower which takes feeds has.
fn takes_none(matches: &ArgMatches) -> bool
    ensures { result ≡ takes_none (rows_of (found_of matches.now)) }
{
    is_absent(matches, "feeds")
        && is_absent(matches, "sessions")
        && is_absent(matches, "links")
        && is_absent(matches, "lanes")
        && is_absent(matches, "budget")
        && is_absent(matches, "workers")
}

/// The words that take feeds.
#[tactic(auto, unfolding(crate::specs::Words::take_of))]
fn read_take<'a>(matches: &ArgMatches<'a>, files: FileNames<'a>) -> Option<TakeWords<'a>>
    ensures { result ≡ take_of (rows_of (found_of matches.now)) files.entry }
{
    Some(TakeWords {
        feeds: value(matches, "feeds")?,
        links: number_or(matches, "links", DEFAULT_FEEDS)?,
        stem: value(matches, "sessions")?,
        count: read_count(matches)?,
        epoch: read_epoch(matches)?,
        limits: read_limits(matches)?,
        files,
    })
}

#[tactic(auto, unfolding(crate::specs::Words::gen_of))]
fn read_gen(matches: &ArgMatches) -> Option<GenWords>
    ensures { result ≡ gen_of (rows_of (found_of matches.now)) }
{
    let plan = read_plan(matches)?;
    Some(GenWords {
        plan,
        file: file_in(plan.criteria.get(), number_if(matches, "file")?)?,
        limits: read_limits(matches)?,
    })
}

/// The file of a plan of so many criteria.
fn file_in(
    criteria: u32,
    number: Option<Ranged<0, MAX_WEIGHT_FILES>>,
) -> Option<Option<Ranged<0, MAX_WEIGHT_FILES>>>
    ensures { result ≡ file_in criteria number }
{
    match number {
        Some(number) if criteria < number.get() => None,
        file => Some(file),
    }
}

fn read_plan(matches: &ArgMatches) -> Option<GenPlan>
    ensures { result ≡ plan_of (rows_of (found_of matches.now)) }
{
    Some(GenPlan {
        start: number::<0, MAX_START>(matches, "start")?.get(),
        side: number(matches, "side")?,
        criteria: number(matches, "criteria")?,
        pairs: number(matches, "pairs")?,
    })
}

/// The query, whose budget is `other` where none is given.
fn read_query<const MOST: u32>(matches: &ArgMatches, other: u32) -> Option<UnlimitedQuery<MOST>>
    requires at_least { 1 ≤ other }
    requires at_most { other ≤ MOST }
    ensures { result ≡ query_of other MOST (rows_of (found_of matches.now)) }
{
    let from = number::<0, MAX_NODE>(matches, "from")?.get();
    let to = number::<0, MAX_NODE>(matches, "to")?.get();
    let budget = number_or(matches, "budget", other)?;
    Some(UnlimitedQuery::new(from, to, budget))
}

fn read_limits(matches: &ArgMatches) -> Option<SearchLimits>
    ensures { result ≡ limits_of (rows_of (found_of matches.now)) }
{
    Some(SearchLimits {
        budget: number_or(matches, "budget", DEFAULT_BUDGET)?,
        workers: read_workers(matches)?,
    })
}

fn read_workers(matches: &ArgMatches) -> Option<WorkerCount>
    ensures { result ≡ workers_of (rows_of (found_of matches.now)) }
{
    number_or(matches, "workers", DEFAULT_WORKERS)
}

/// How many lanes of sessions there are.
fn read_count(matches: &ArgMatches) -> Option<LaneCount>
    ensures { result ≡ lane_count_of (rows_of (found_of matches.now)) }
{
    number_or(matches, "lanes", DEFAULT_LANES)
}

/// The number of the first epoch.
fn read_epoch(matches: &ArgMatches) -> Option<u32>
    ensures { result ≡ epoch_of (rows_of (found_of matches.now)) }
{
    Some(number_or::<0, MAX_EPOCH>(matches, "epoch", DEFAULT_EPOCH)?.get())
}

/// The number that an option gives.
fn number<const LEAST: u32, const GREATEST: u32>(
    matches: &ArgMatches,
    id: &str,
) -> Option<Ranged<LEAST, GREATEST>>
    ensures { result ≡ required LEAST GREATEST id.now (rows_of (found_of matches.now)) }
{
    number_in(&value(matches, id)?)
}

/// The number that an option gives, or `other` where it isn't given.
fn number_or<const LEAST: u32, const GREATEST: u32>(
    matches: &ArgMatches,
    id: &str,
    other: u32,
) -> Option<Ranged<LEAST, GREATEST>>
    requires at_least { LEAST ≤ other }
    requires at_most { other ≤ GREATEST }
    ensures { result
        ≡ number_or other LEAST GREATEST (first_of id.now (rows_of (found_of matches.now))) }
{
    match value(matches, id) {
        Some(text) => number_in(&text),
        None => Some(Ranged::of(other)),
    }
}

/// The number that an option gives, if it is given.
fn number_if<const LEAST: u32, const GREATEST: u32>(
    matches: &ArgMatches,
    id: &str,
) -> Option<Option<Ranged<LEAST, GREATEST>>>
    ensures { result
        ≡ number_if LEAST GREATEST (first_of id.now (rows_of (found_of matches.now))) }
{
    match value(matches, id) {
        Some(text) => Some(Some(number_in(&text)?)),
        None => Some(None),
    }
}

/// The number that a text says.
fn number_in<const LEAST: u32, const GREATEST: u32>(word: &Word) -> Option<Ranged<LEAST, GREATEST>>
    ensures { result ≡ number_in LEAST GREATEST word.now }
{
    match decimal(word.text().as_bytes(), u64::from(GREATEST)) {
        Numeral::Value(n) => Ranged::new(n as u32),
        _ => None,
    }
}

/// Whether a flag is given.
fn is_set(matches: &ArgMatches, id: &str) -> bool
    ensures { result ≡ is_set (first_of id.now (rows_of (found_of matches.now))) }
{
    match value(matches, id) {
        Some(word) => word.text() == "true",
        None => false,
    }
}

/// Whether an option isn't given.
fn is_absent(matches: &ArgMatches, id: &str) -> bool
    ensures { result ≡ is_none (first_of id.now (rows_of (found_of matches.now))) }
{
    value(matches, id).is_none()
}

/// The word that an option gives.
fn value<'a>(matches: &ArgMatches<'a>, id: &str) -> Option<Word<'a>>
    ensures { result ≡ first_of id.now (rows_of (found_of matches.now)) }
{
    match text_of(matches, id) {
        Some(text) => Some(Word::of(text)),
        None => None,
    }
}

fn text_of<'a>(matches: &ArgMatches<'a>, id: &str) -> Option<&'a str>
    ensures { option_map (λ s. s.now) result ≡ first_of id.now (rows_of (found_of matches.now)) }
{
    matches.get_str(id)
}
