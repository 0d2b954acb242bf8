ghost use Rattle.std.specs.Prelude.{◌≡◌, ◌≤◌};
ghost use Rattle.cost_vector.specs.Costs.{max_criteria, min_criteria};
ghost use Rattle.road_network.specs.Queries.{limit_of};

use cost_vector::Limit;
use out_of_memory::OutOfMemory;
use thiserror::Error;

/// What is asked of a network: the best costs of the walks from one end to the other. The ends are numbers, which may be
/// nodes or not.
#[derive(Clone, Copy, Debug, PartialEq, Eq)]
pub struct Query {
    pub from: u32,
    pub to: u32,
    /// Costs beyond it aren't asked for.
    pub limit: Option<Limit>,
    /// How many labels the search may settle.
    pub budget: u32,
}

impl Query {
    /// Its limit in so many criteria, without a bound where the query has none.
    pub fn limit_in(&self, criteria: usize) -> Limit
        requires at_least_two { min_criteria ≤ criteria }
        requires at_most_four { criteria ≤ max_criteria }
        ensures { result ≡ limit_of criteria self.now }
    {
        self.limit.unwrap_or(Limit::none(criteria))
    }
}

/// What an answer shows of each best cost.
#[derive(Clone, Copy, Debug, PartialEq, Eq)]
pub enum AnswerKind {
    /// The cost alone.
    Costs,
    /// The cost with its walk.
    Walks,
}

/// Why a query gets no answer.
#[derive(Clone, Copy, Debug, PartialEq, Eq, Error)]
pub enum SearchFault {
    #[error("the budget is too small")]
    Budget,
    #[error("out of memory")]
    OutOfMemory(OutOfMemory),
}

impl From<OutOfMemory> for SearchFault {
    ghost use Rattle.std.specs.Prelude.{◌≡◌};
    ghost use Rattle.road_network.specs.declared.query.SearchFault.TheVariants as fault;

    ghost from_gives = { λ want e. e ≡ fault.OutOfMemory want };

    fn from(want: OutOfMemory) -> SearchFault {
        SearchFault::OutOfMemory(want)
    }
}
