//! What the words of a command line ask for.
use crate::limits::{
    FeedCount, LaneCount, LinkCount, MAX_LISTED, SearchLimits, UnlimitedQuery, WorkerCount,
};
use crate::texts::{FileNames, Word};
use graph_gen::{GenPlan, MAX_WEIGHT_FILES};
use ranged_number::Ranged;
use road_network::{AnswerKind, MAX_BUDGET};

/// The words of `costs`, which asks for costs alone, and of `one`, which asks for walks.
#[derive(Drop)]
pub struct SingleWords<'a> {
    pub kind: AnswerKind,
    pub query: UnlimitedQuery<MAX_BUDGET>,
    /// How many workers share the search.
    pub workers: WorkerCount,
    pub files: FileNames<'a>,
}

/// The words of `goal`.
#[derive(Drop)]
pub struct GoalWords<'a> {
    pub query: UnlimitedQuery<MAX_BUDGET>,
    pub files: FileNames<'a>,
}

/// The words of `prove`.
#[derive(Drop)]
pub struct ProveWords<'a> {
    /// The query whose labels are listed.
    pub query: UnlimitedQuery<MAX_LISTED>,
    /// How many workers share the search.
    pub workers: WorkerCount,
    pub files: FileNames<'a>,
}

/// The words of `verify`.
#[derive(Drop)]
pub struct VerifyWords<'a> {
    /// The name of the certificate.
    pub cert: Word<'a>,
    pub files: FileNames<'a>,
}

/// The words of `batch`.
#[derive(Drop)]
pub struct BatchWords<'a> {
    /// The name of the file of pairs.
    pub pairs: Word<'a>,
    /// Whether each search is directed to its target.
    pub goal: bool,
    /// How each query is searched.
    pub limits: SearchLimits,
    pub files: FileNames<'a>,
}

/// The words of `gen`.
#[derive(Drop)]
pub struct GenWords {
    pub plan: GenPlan,
    /// The file of the plan that is to be sent, or none where the queries of all files are to be answered.
    pub file: Option<Ranged<0, MAX_WEIGHT_FILES>>,
    pub limits: SearchLimits,
}

/// The words of `lanes`.
#[derive(Drop)]
pub struct LanesWords<'a> {
    /// The name of the operator's script.
    pub operator: Word<'a>,
    /// How the name of each session's script begins; its number follows.
    pub stem: Word<'a>,
    /// How many sessions there are.
    pub count: LaneCount,
    /// The number of the epoch of the files' weights.
    pub epoch: u32,
    /// How each query is searched.
    pub limits: SearchLimits,
    pub files: FileNames<'a>,
}

/// The words of `serve`.
#[derive(Drop)]
pub struct ServeWords<'a> {
    /// The address of sessions.
    pub listen: Word<'a>,
    /// The address of their operator.
    pub operator: Word<'a>,
    /// How many lanes of sessions there are.
    pub lanes: LaneCount,
    /// The most links of each lane.
    pub links: LinkCount,
    /// The number of the epoch of the files' weights.
    pub epoch: u32,
    /// How each query is searched.
    pub limits: SearchLimits,
    pub files: FileNames<'a>,
}

/// The words of `follow` that write a feed.
#[derive(Drop)]
pub struct WriteWords<'a> {
    /// The name of the operator's script.
    pub operator: Word<'a>,
    /// The number of the epoch of the files' weights.
    pub epoch: u32,
    pub files: FileNames<'a>,
}

/// The words of `follow` that take feeds.
#[derive(Drop)]
pub struct TakeWords<'a> {
    /// How the name of each feed begins; its number follows.
    pub feeds: Word<'a>,
    /// How many feeds there are.
    pub links: FeedCount,
    /// How the name of each session's script begins; its number follows.
    pub stem: Word<'a>,
    /// How many sessions there are.
    pub count: LaneCount,
    /// The number of the epoch of the files' weights.
    pub epoch: u32,
    /// How each query is searched.
    pub limits: SearchLimits,
    pub files: FileNames<'a>,
}

/// The words of `follow`.
#[derive(Drop)]
pub enum FollowWords<'a> {
    Write(WriteWords<'a>),
    Take(TakeWords<'a>),
}

/// A command that waits for nobody.
#[derive(Drop)]
pub enum StillCommand<'a> {
    /// The answer to one query.
    Single(SingleWords<'a>),
    /// The answer to one query, found by a search that is directed to its target.
    Goal(GoalWords<'a>),
    /// Whether the files make up a network.
    Check(FileNames<'a>),
    /// The answers to many queries, with walks.
    Batch(BatchWords<'a>),
    /// A file of a plan, or what all its files come to.
    Gen(GenWords),
    /// A certificate of the answer to one query.
    Prove(ProveWords<'a>),
    /// The answer that a certificate shows.
    Verify(VerifyWords<'a>),
}

/// A command that may wait for others.
#[derive(Drop)]
pub enum WaitingCommand<'a> {
    /// Sessions that ask beside each other while an operator publishes epochs.
    Lanes(LanesWords<'a>),
    /// Sessions and their operator, over links that come in.
    Serve(ServeWords<'a>),
    /// A feed of epochs, or sessions beside feeds that are taken.
    Follow(FollowWords<'a>),
}

/// What the words of a command line ask for.
#[derive(Drop)]
pub enum Command<'a> {
    Still(StillCommand<'a>),
    Waiting(WaitingCommand<'a>),
}
