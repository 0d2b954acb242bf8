ghost use Rattle.std.specs.Prelude.{◌≡◌, ◌↔◌, ℕ, List, [], ◌++◌, map, Contains};
ghost use Rattle.list_laws.specs.Sets.{ListsOnce};
ghost use Rattle.event_machine.specs.Machine.{Task, IsTask, SearchState};
ghost use Rattle.road_network.specs.Labels.{Label};
ghost use Rattle.event_machine.specs.Events.{Event, take, drop, IsSame, MayDrop, Runs, IsReached};
ghost use Rattle.event_machine.specs.Rounds.{IsBetweenRounds, relaxing, Begins, Finishes};
ghost use Rattle.event_machine.specs.Orders.{DropsAll, IsNext, IsBegun, IsArrival, Completes, IsOutcome};

/// The drops that begin a round may happen in any order, and then its takes in any order: all orders lead to one
/// state.
pub fn rounds_begin_in_any_order()
    ensures some_state { (task : Task) (s : SearchState)
        → IsTask task → IsReached task s → IsBetweenRounds s
        → (begun : SearchState) × IsBegun task s begun }
    ensures each_order_of_drops { (task : Task) (s left : SearchState) (drops : List Label)
        → IsTask task → IsReached task s → ListsOnce (MayDrop task s) drops
        → (Runs task s (map (λ l. drop l) drops) left ↔ DropsAll task s left) }
    ensures each_order { (task : Task) (s begun : SearchState) (drops takes : List Label)
        → IsTask task → IsReached task s → IsBetweenRounds s
        → ListsOnce (MayDrop task s) drops → ListsOnce (IsNext task s) takes
        → (Runs task s (map (λ l. drop l) drops ++ map (λ l. take l) takes) begun
        ↔ IsBegun task s begun) }
    ensures begins { (task : Task) (s begun : SearchState)
        → IsTask task → IsReached task s → IsBetweenRounds s
        → (Begins task s begun ↔ IsBegun task s begun) }
    ensures one_state { (task : Task) (s a b : SearchState)
        → IsBegun task s a → IsBegun task s b → IsSame a b }
{}

/// From each reached state each list of events that relaxes each pair and merges each arrival once, after it was
/// relaxed, is a run, and all these runs lead to one state. What arrives are the candidates that already wait to be
/// merged and those that the pairs give. Once all pairs are relaxed, the candidates are the arrivals, each once.
pub fn rounds_end_in_any_order()
    ensures some_state { (task : Task) (s : SearchState)
        → IsTask task → IsReached task s
        → (after : SearchState) × IsOutcome task.network s after }
    ensures arrivals { (task : Task) (s relaxed : SearchState) (relaxes : List (Label × ℕ))
        → IsTask task → IsReached task s → ListsOnce (Contains s.unrelaxed) relaxes
        → Runs task s (map relaxing relaxes) relaxed
        → ListsOnce (IsArrival task.network s) relaxed.candidates }
    ensures each_order { (task : Task) (s after : SearchState) (events : List Event)
        → IsTask task → IsReached task s → Completes task.network s events
        → (Runs task s events after ↔ IsOutcome task.network s after) }
    ensures finishes { (task : Task) (s after : SearchState)
        → IsTask task → IsReached task s
        → (Finishes task s after ↔ IsOutcome task.network s after) }
    ensures one_state { (task : Task) (s a b : SearchState)
        → IsOutcome task.network s a → IsOutcome task.network s b → IsSame a b }
{}
