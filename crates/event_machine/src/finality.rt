ghost use Rattle.std.specs.Prelude.{◌≡◌, ℕ, ◌⊎◌, ◌↔◌, List, [], Contains};
ghost use Rattle.cost_vector.specs.Costs.{AtMost};
ghost use Rattle.road_network.specs.Network.{AreSmall};
ghost use Rattle.road_network.specs.Walks.{IsSumOf};
ghost use Rattle.road_network.specs.Answers.{IsRelevant};
ghost use Rattle.list_laws.specs.Sets.{HasMoreThan};
ghost use Rattle.event_machine.specs.Machine.{Task, IsTask, SearchState, IsEntry, HasSettled};
ghost use Rattle.road_network.specs.Labels.{Label, IsSamePair, HasLeastArc};
ghost use Rattle.event_machine.specs.Events.{Event, Happens, IsReached};
ghost use Rattle.event_machine.specs.Laws.{IsKnown};

/// Whatever the order of the events, a settled label is final: it is a relevant pair, settled once, with the last arc
/// of the backward-least walk of its cost, or 0 at the start.
pub fn settled_labels_are_final()
    ensures relevant { (task : Task) (s : SearchState) (l : Label)
        → IsTask task → IsReached task s → Contains s.settled l
        → IsRelevant task.network task.start task.target task.limit l.node l.cost }
    ensures once { (task : Task) (s : SearchState) (l m : Label)
        → IsTask task → IsReached task s
        → Contains s.settled l → Contains s.settled m → IsSamePair l m → l ≡ m }
    ensures least_arc { (task : Task) (s : SearchState) (l : Label)
        → IsTask task → IsReached task s → Contains s.settled l
        → HasLeastArc task.network task.start l }
{}

/// Once a label is settled it stays so, and no event adds, removes or lowers an entry of its node whose cost equals or
/// dominates its own.
pub fn entries_below_settled_labels_stand()
    ensures settled { (task : Task) (s next : SearchState) (event : Event) (l : Label)
        → IsTask task → IsReached task s → Happens task s event next
        → Contains s.settled l → Contains next.settled l }
    ensures entries { (task : Task) (s next : SearchState) (event : Event) (l y : Label)
        → IsTask task → IsReached task s → Happens task s event next → Contains s.settled l
        → y.node ≡ l.node → AtMost y.cost l.cost → (IsEntry s y ↔ IsEntry next y) }
{}

/// Where nothing waits, is a candidate or is still to be relaxed, the settled labels are exactly the relevant pairs.
pub fn the_end_has_all_relevant_pairs()
    ensures { (task : Task) (s : SearchState) (v : ℕ) (c : List ℕ)
        → IsTask task → IsReached task s
        → s.waiting ≡ [] → s.candidates ≡ [] → s.unrelaxed ≡ []
        → (IsRelevant task.network task.start task.target task.limit v c ↔ HasSettled s v c) }
{}

/// With weights of 32 bits, no component of a label's cost is greater than as many weights as labels are settled can
/// make it.
pub fn sums_are_bounded_by_the_settled()
    ensures { (task : Task) (s : SearchState) (y : Label) (n : ℕ)
        → IsTask task → IsReached task s → AreSmall task.network.states
        → ¬ HasMoreThan n s.settled → IsKnown s y → IsSumOf n y.cost }
{}
