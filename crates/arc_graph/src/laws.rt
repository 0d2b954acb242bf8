ghost use Rattle.std.specs.Prelude.{◌≡◌, ℕ, ◌^◌, ◌<◌, List, All, Contains};
ghost use Rattle.arc_graph.specs.declared.join.Disagreement.{Disagreement};
ghost use Rattle.arc_graph.specs.Files.{ArcFile};
ghost use Rattle.arc_graph.specs.Agreement.{Agree, HasFault};
ghost use Rattle.road_network.specs.Network.{AreSmall, Leads, Network};
ghost use Rattle.arc_graph.specs.Graph.{Graph, Weights, AreWeights, ComesOf, IsGraph, IsRoadNetwork, Match, SumsFit, label_over, network, relaxed};
ghost use Rattle.cost_vector.specs.declared.label.Label.{Label};

/// Files have one fault at most, and none where they agree: so what `join_files` answers is the one answer there is.
pub fn files_have_one_fault_at_most()
    ensures none_of_agreeing { (files : List ArcFile) (way : Disagreement)
        → Agree files → ¬ HasFault files way }
    ensures one { (files : List ArcFile) (way other : Disagreement)
        → HasFault files way → HasFault files other → way ≡ other }
{}

/// A graph and weights that match are a network.
pub fn matching_parts_are_a_network()
    ensures { (g : Graph) (w : Weights) → IsGraph g → AreWeights w → Match g w
        → IsRoadNetwork (network g w) }
{}

/// What relaxing gives is exactly the labels of the arcs that lead on.
pub fn relaxing_follows_arcs()
    ensures each_arc { (net : Network) (u k v : ℕ) (c by : List ℕ)
        → Leads net k u by v → Contains (relaxed net u c) (label_over k v c by) }
    ensures no_other { (net : Network) (u : ℕ) (c : List ℕ) (l : Label)
        → Contains (relaxed net u c) l → ComesOf net u c l }
{}

/// To a cost below 2^58, as each along at most 2^26 arcs is, `relax` can add what it adds.
pub fn sums_leave_room_to_relax()
    ensures { (net : Network) (u : ℕ) (c : List ℕ) → AreSmall net.states
        → All (λ x. x < 2 ^ 58) c → SumsFit net u c }
{}
