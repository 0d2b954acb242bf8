ghost use Rattle.std.specs.Prelude.{◌≡◌, ◌≢◌, ◌+◌, ◌⊎◌, ◌↔◌, ℕ, List, length, map, Contains};
ghost use Rattle.bulk_rounds.specs.Begins.{LosesSpent, TakesNext};
ghost use Rattle.bulk_rounds.specs.Cores.{Core, HasSpot, IsSettledIn, IsSpent, Item, SameSearch, Spot, Waits};
ghost use Rattle.bulk_rounds.specs.Finishes.{PutsAll};
ghost use Rattle.bulk_rounds.specs.Kept.{IsFrom, IsKept, IsKeptItem, SparesSettled};
ghost use Rattle.bulk_rounds.specs.Standing.{IsAt, as_spot};
ghost use Rattle.bulk_rounds.specs.Taking.{CountsSettled, IsNextIn, ListsNext};
ghost use Rattle.cost_vector.specs.Costs.{AtMost};
ghost use Rattle.event_machine.specs.Machine.{Task, SearchState};
ghost use Rattle.event_machine.specs.Orders.{IsArrival};
ghost use Rattle.list_laws.specs.Sets.{HasMoreThan};
ghost use Rattle.road_network.specs.Answers.{IsRelevant};
ghost use Rattle.road_network.specs.Labels.{Label};
ghost use Rattle.road_network.specs.Network.{AreSmall, IsNode};
ghost use Rattle.road_network.specs.Walks.{IsSumOf};
ghost use Rattle.waiting_queue.specs.Taking.{TakesOpenSpots};
ghost use Rattle.waiting_item.specs.Waiting.{spot_of};

/// What arrives in a round is of a node, and dominates no settled cost there.
pub fn arrivals_spare_settled()
    ensures node { (task : Task) (core : Core) (s : SearchState) (x : Label)
        → IsAt task core s → IsArrival task.network s x → IsNode core.nodes x.node }
    ensures spares { (task : Task) (core : Core) (s : SearchState) (x : Label)
        → IsAt task core s → IsArrival task.network s x → SparesSettled core (as_spot x) }
{}

/// With weights of 32 bits, no component of a cost that was taken is greater than as many weights as labels are settled
/// can make it.
pub fn taken_labels_have_small_costs()
    ensures { (task : Task) (core : Core) (s : SearchState) (x : Spot) (n : ℕ)
        → IsAt task core s → AreSmall task.network.states → ¬ HasMoreThan n s.settled
        → Contains core.taken x → IsSumOf n x.cost }
{}

/// A spot that was taken is of a node, and a relevant pair.
pub fn taken_labels_are_relevant()
    ensures node { (task : Task) (core : Core) (s : SearchState) (x : Spot)
        → IsAt task core s → Contains core.taken x → IsNode core.nodes x.node }
    ensures relevant { (task : Task) (core : Core) (s : SearchState) (x : Spot)
        → IsAt task core s → Contains core.taken x
        → IsRelevant task.network task.start task.target task.limit x.node x.cost }
{}

/// What an item gives to the node from which it came is spent, since no cost falls along an arc.
pub fn ways_back_are_spent()
    ensures { (core : Core) (i : Item) (c : List ℕ) → IsFrom core i → i.from ≢ 0
        → AtMost i.spot.cost c → IsSpent core (record { cost = c; node = i.from }) }
{}

/// To settle the next spots keeps what a front asks, also of a core that is no run of the machine: none of them is settled, of two
/// of a node neither cost is at most the other, and what waits dominates no settled cost of its node. So what a core keeps
/// stays so, and as many are settled more as were taken.
pub fn taken_spots_are_spared()
    ensures unsettled { (core : Core) (x : Spot) → IsNextIn core x → ¬ IsSettledIn core x }
    ensures apart { (core : Core) (x y : Spot) → IsNextIn core x → IsNextIn core y
        → AtMost x.cost y.cost → x.cost ≡ y.cost }
    ensures spares { (before after : Core) (x : Spot) → TakesNext before after → Waits before x
        → SparesSettled before x → SparesSettled after x }
    ensures one_count { (core : Core) (m n : ℕ) → CountsSettled core m → CountsSettled core n → m ≡ n }
    ensures kept { (before after : Core) (count : ℕ) → TakesNext before after
        → IsKept before count → IsKept after (count + length after.taken) }
{}

/// To put candidates into the queue that are as items have to be keeps what a core keeps.
pub fn put_items_are_kept()
    ensures { (candidates : List Item) (before after : Core) (count : ℕ)
        → PutsAll candidates before after
        → ((i : Item) → Contains after.queue i → Contains before.queue i ⊎ IsKeptItem before i)
        → IsKept before count → IsKept after count }
{}

/// Where all candidates were put but some that are spent, all were.
pub fn spent_candidates_may_be_left_out()
    ensures { (given all : List Item) (before after : Core)
        → ((x : Spot) → HasSpot given x → HasSpot all x)
        → ((x : Spot) → HasSpot all x → HasSpot given x ⊎ IsSpent before x)
        → PutsAll given before after → PutsAll all before after }
{}

/// A queue that is told which spots are spent takes exactly the next ones, and once these are settled, what has left is spent.
pub fn passes_take_the_next_spots()
    ensures next { (before : Core) (took after : List Item)
        → TakesOpenSpots spot_of (λ x. ¬ IsSpent before x) before.queue took after
        → ListsNext before (map spot_of took) }
    ensures loses_spent { (before after : Core) (took : List Item)
        → TakesOpenSpots spot_of (λ x. ¬ IsSpent before x) before.queue took after.queue → SameSearch before after
        → ((x : Spot) → IsSettledIn after x ↔ (IsSettledIn before x ⊎ Contains (map spot_of took) x))
        → LosesSpent before after }
{}
