ghost use Rattle.std.specs.Prelude.{◌≡◌, ℕ, List, length, replicate};
ghost use Rattle.cost_vector.specs.Costs.{AtMost, plus};
ghost use Rattle.road_network.specs.Network.{Network, IsNetwork, IsNode, Leads};
ghost use Rattle.road_network.specs.Walks.{IsWalk};
ghost use Rattle.goal_laws.specs.Goal.{IsBound};

/// Each node from which a walk leads to the target has one bound, and the target's is zero.
pub fn bounds_are_unique()
    ensures some { (net : Network) (v t : ℕ) (p c : List ℕ) → IsNetwork net
        → IsWalk net v p t c → (h : List ℕ) × IsBound net v t h }
    ensures one { (net : Network) (v t : ℕ) (h g : List ℕ)
        → IsBound net v t h → IsBound net v t g → h ≡ g }
    ensures at_the_target { (net : Network) (t : ℕ) → IsNetwork net → IsNode net.nodes t
        → IsBound net t t (replicate net.criteria 0) }
{}

/// Along an arc the bound falls by the arc's vector at most. So the sum of a cost and its node's bound never falls along
/// a walk. It may stand still in all components.
pub fn bounds_are_consistent()
    ensures along_an_arc { (net : Network) (k u v t : ℕ) (w h g : List ℕ) → IsNetwork net
        → Leads net k u w v → IsBound net u t h → IsBound net v t g → AtMost h (plus w g) }
    ensures never_less { (net : Network) (k u v t : ℕ) (b w h g : List ℕ) → IsNetwork net
        → Leads net k u w v → length b ≡ net.criteria → IsBound net u t h → IsBound net v t g
        → AtMost (plus b h) (plus (plus b w) g) }
{}
