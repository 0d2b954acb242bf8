ghost use Rattle.std.specs.Prelude.{◌≡◌, ℕ, ◌≤◌, List, Option, length, Contains};
ghost use Rattle.list_laws.specs.Least.{IsLeastIfAny};
ghost use Rattle.road_network.specs.Network.{Network, IsNetwork};
ghost use Rattle.road_network.specs.Best.{IsBackwardLeast};
ghost use Rattle.road_network.specs.Answers.{IsRelevant};
ghost use Rattle.walk_readback.specs.Found.{FoundCosts as FoundState, HasAllRelevant, IsFound, IsOnTheWay, IsWellFound, longest_in};
ghost use Rattle.walk_readback.specs.GoingBack.{GoesBack, last_of};

/// Where the settled pairs are exactly the relevant ones, the answer is well found; and where it is, no walk of the answer
/// has more arcs than `longest` says.
pub fn found_with_all_relevant_is_well_found()
    ensures well_found { (net : Network) (limit : List (Option ℕ)) (f : FoundState)
        → IsNetwork net → IsFound f → HasAllRelevant net limit f → IsWellFound net limit f }
    ensures bounded { (net : Network) (limit : List (Option ℕ)) (f : FoundState) (c p : List ℕ)
        → IsNetwork net → f.nodes ≡ net.nodes → IsWellFound net limit f
        → Contains f.costs c → IsBackwardLeast net f.start f.target c p → length p ≤ longest_in f }
{}

/// On the way of an answer's walks, the least arc that goes back is the last arc of the backward-least walk, and none does
/// where that walk has no arcs.
pub fn least_arcs_back_are_last_arcs()
    ensures { (net : Network) (limit : List (Option ℕ)) (f : FoundState) (v : ℕ) (c p : List ℕ)
        → IsNetwork net → IsWellFound net limit f → IsOnTheWay net f v c
        → IsBackwardLeast net f.start v c p → IsLeastIfAny (GoesBack net f v c) (last_of p) }
{}

/// The same holds of each relevant pair where these are settled.
pub fn least_relevant_arcs_back_are_last_arcs()
    ensures { (net : Network) (limit : List (Option ℕ)) (f : FoundState) (v : ℕ) (c p : List ℕ)
        → IsNetwork net → HasAllRelevant net limit f → IsRelevant net f.start f.target limit v c
        → IsBackwardLeast net f.start v c p → IsLeastIfAny (GoesBack net f v c) (last_of p) }
{}
