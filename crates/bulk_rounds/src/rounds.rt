ghost use Rattle.std.specs.Prelude.{◌≡◌, ◌↔◌, ◌⊎◌, ℕ, List, [], Option, Contains};
ghost use Rattle.bulk_rounds.specs.Begins.{FindsNone, LosesSpent, SomeOpen, TakesNext, WouldPass};
ghost use Rattle.bulk_rounds.specs.Cores.{Core, IsBarred, IsNewSearch, IsSettledIn, Item, SameSearch, Spot, costs_at};
ghost use Rattle.bulk_rounds.specs.Finishes.{FinishesRound, PutsAll};
ghost use Rattle.bulk_rounds.specs.Standing.{IsAt, IsSearchOf, as_spot};
ghost use Rattle.bulk_rounds.specs.Taking.{IsNextIn, IsOpenIn};
ghost use Rattle.cost_vector.specs.Costs.{AtMost, Within};
ghost use Rattle.event_machine.specs.Machine.{Task, SearchState, IsBeatenAtTarget, start_state};
ghost use Rattle.event_machine.specs.Orders.{DropsAll, IsBegun, IsNext, Stays};
ghost use Rattle.event_machine.specs.Rounds.{NoneStays};
ghost use Rattle.list_laws.specs.Sets.{HasMoreThan};
ghost use Rattle.road_network.specs.Answers.{IsRelevant};
ghost use Rattle.road_network.specs.Labels.{Label};

/// A search in which the start alone waits stands for the start of each task that it can be of.
pub fn new_searches_stand_for_the_start()
    ensures { (nodes criteria start target : ℕ) (limit : List (Option ℕ)) (budget : ℕ) (core : Core) (task : Task)
        → IsNewSearch nodes criteria start target limit budget core → IsSearchOf task core
        → IsAt task core (start_state task) }
{}

/// What is barred, open and next among the spots of a core is so among the labels of the machine, although spots may be stale:
/// the spot of a label that stays is open, below each open spot stays a label, and the next spots are those of the next labels.
pub fn next_spots_are_next_labels()
    ensures barred { (task : Task) (core : Core) (s : SearchState) (c : List ℕ) → IsAt task core s
        → (IsBarred core c ↔ ((¬ Within task.limit c) ⊎ IsBeatenAtTarget task s c)) }
    ensures open_if_stays { (task : Task) (core : Core) (s : SearchState) (y : Label)
        → IsAt task core s → Stays task s y → IsOpenIn core (as_spot y) }
    ensures stays_below_open { (task : Task) (core : Core) (s : SearchState) (x : Spot)
        → IsAt task core s → IsOpenIn core x
        → (y : Label) × Stays task s y × (y.node ≡ x.node) × AtMost y.cost x.cost }
    ensures next { (task : Task) (core : Core) (s : SearchState) (x : Spot) → IsAt task core s
        → (IsNextIn core x ↔ ((y : Label) × IsNext task s y × (as_spot y ≡ x))) }
{}

/// What is spent may leave the queue at any time, and what may be dropped may be dropped: the core stands for the same state,
/// and for that without what may be dropped.
pub fn spent_spots_need_nothing()
    ensures queue_may_lose { (task : Task) (before after : Core) (s : SearchState)
        → SameSearch before after → ((x : Spot) → IsSettledIn after x ↔ IsSettledIn before x)
        → after.taken ≡ before.taken → LosesSpent before after → IsAt task before s → IsAt task after s }
    ensures drops { (task : Task) (core : Core) (s left : SearchState)
        → IsAt task core s → DropsAll task s left → IsAt task core left }
{}

/// To take the next spots is a run of the machine: the labels that may be dropped are dropped, and the next ones are
/// settled. What the core answers of the budget is so of the machine; and where no spot is open, no label stays.
pub fn rounds_begin_by_values()
    ensures some_stay { (task : Task) (before : Core) (s : SearchState)
        → IsAt task before s → SomeOpen before → (y : Label) × Stays task s y }
    ensures begun { (task : Task) (before after : Core) (s next : SearchState)
        → before.taken ≡ [] → TakesNext before after → IsAt task before s → IsBegun task s next
        → IsAt task after next }
    ensures within { (task : Task) (before after : Core) (s next : SearchState)
        → before.taken ≡ [] → TakesNext before after → IsAt task before s → IsBegun task s next
        → ¬ HasMoreThan before.budget next.settled }
    ensures passed { (task : Task) (before : Core) (s next : SearchState)
        → before.taken ≡ [] → WouldPass before → IsAt task before s → IsBegun task s next
        → HasMoreThan before.budget next.settled }
    ensures none_stay { (task : Task) (before after : Core) (s : SearchState)
        → FindsNone before after → IsAt task before s → NoneStays task s }
    ensures ended { (task : Task) (before after : Core) (s left : SearchState)
        → before.taken ≡ [] → FindsNone before after → IsAt task before s → DropsAll task s left
        → IsAt task after left }
{}

/// To put what arrives into the queue, but for what is spent or costs at least as much as what was put at its node, is each order
/// of the machine's relaxes and merges.
#[tactic(auto, using(crate::proofs::FinishedLemmas::finishes_round))]
pub fn rounds_end_by_values()
    ensures { (candidates : List Item) (before after : Core)
        → PutsAll candidates before after → FinishesRound candidates before after }
{}

/// Where nothing is open and no round is, the settled costs are exactly the relevant pairs.
pub fn ended_searches_have_all()
    ensures { (task : Task) (core : Core) (s : SearchState) (v : ℕ) (c : List ℕ)
        → IsAt task core s → core.taken ≡ [] → ((x : Spot) → ¬ IsOpenIn core x)
        → (Contains (costs_at core v) c
        ↔ IsRelevant task.network core.start core.target core.limit v c) }
{}
