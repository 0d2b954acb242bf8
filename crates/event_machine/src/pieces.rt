ghost use Rattle.std.specs.Prelude.{ℕ, List, ◌++◌};
ghost use Rattle.road_network.specs.Network.{Network};
ghost use Rattle.event_machine.specs.Machine.{SearchState};
ghost use Rattle.road_network.specs.Labels.{Label};
ghost use Rattle.event_machine.specs.Events.{Event};
ghost use Rattle.event_machine.specs.Orders.{Completes};
ghost use Rattle.event_machine.specs.Pieces.{AreRelaxPieces, AreMergePieces, AreDoneInPieces, merges_of};

/// However the labels of an open round and then its arrivals are cut into pieces, and in whatever order the pieces are
/// drawn and their events happen, these events complete the round.
pub fn pieces_complete_rounds()
    ensures { (net : Network) (s : SearchState) (labels arrivals : List (List Label))
        (relaxes : List (List Event)) (drawn drawn_next : List ℕ) (first second : List Event)
        → AreRelaxPieces s labels relaxes → AreDoneInPieces relaxes drawn first
        → AreMergePieces net s arrivals → AreDoneInPieces (merges_of arrivals) drawn_next second
        → Completes net s (first ++ second) }
{}
