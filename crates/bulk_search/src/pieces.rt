ghost use Rattle.std.specs.Prelude.{ℕ, ◌↔◌, List, ◌++◌, length, IsPermutation};
ghost use Rattle.event_machine.specs.Machine.{Task, IsTask, SearchState};
ghost use Rattle.road_network.specs.Labels.{Label};
ghost use Rattle.event_machine.specs.Events.{Event, IsReached, Runs};
ghost use Rattle.event_machine.specs.Orders.{IsOutcome};
ghost use Rattle.event_machine.specs.Pieces.{AreDoneInPieces, AreMergePieces, AreRelaxPieces, events_of, merges_of};
ghost use Rattle.work_claim.specs.Claims.{HoldsEachPieceOnce, pieces_among};

/// However a round's relaxing and then its merging are cut into pieces, and in whatever order workers draw these and do
/// what is in them, that is a run, and it ends in the state for which the search stands after the round. The run relaxes all
/// arcs; what the search leaves out of them is dominated.
pub fn rounds_end_alike_for_all_pieces()
    ensures { (task : Task) (s end : SearchState) (labels arrivals : List (List Label))
        (relaxes : List (List Event)) (drawn drawn_next : List ℕ) (first second : List Event)
        → IsTask task → IsReached task s
        → AreRelaxPieces s labels relaxes → AreDoneInPieces relaxes drawn first
        → AreMergePieces task.network s arrivals
        → AreDoneInPieces (merges_of arrivals) drawn_next second
        → (Runs task s (first ++ second) end ↔ IsOutcome task.network s end) }
{}

/// What workers have drawn from a counter when it is closed, each piece once, is a list of drawn pieces as
/// `rounds_end_alike_for_all_pieces` speaks of, whatever the pieces' events are.
pub fn closed_counters_hold_all_pieces()
    ensures { (pieces : List (List Event)) (numbers : List ℕ) (events : List Event)
        → HoldsEachPieceOnce (length pieces) numbers
        → IsPermutation (events_of pieces (pieces_among (length pieces) numbers)) events
        → AreDoneInPieces pieces (pieces_among (length pieces) numbers) events }
{}
