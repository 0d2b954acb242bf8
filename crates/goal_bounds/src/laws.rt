ghost use Rattle.std.specs.Prelude.{ℕ, ◌^◌, ◌<◌, List, All};
ghost use Rattle.road_network.specs.Network.{Network};
ghost use Rattle.arc_graph.specs.Graph.{IsRoadNetwork};
ghost use Rattle.goal_laws.specs.Goal.{IsBound};

/// With weights of 32 bits, each component of a bound is below 2^55: some walk that goes through no node twice has at least as
/// much.
pub fn bounds_are_small()
    ensures { (net : Network) (v t : ℕ) (h : List ℕ) → IsRoadNetwork net → IsBound net v t h
        → All (λ x. x < 2 ^ 55) h }
{}
