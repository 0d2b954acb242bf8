ghost use Rattle.std.specs.Prelude.{◌≡◌, ℕ, ◌^◌, ◌<◌, ◌≤◌, ◌↔◌, ◌⊎◌, List, [], ◌∷◌, ◌++◌, Option, length, replicate, reverse, All};
ghost use Rattle.cost_vector.specs.Costs.{Dominates, no_limit, plus};
ghost use Rattle.road_network.specs.Network.{Network, IsNetwork, AreSmall, IsNode, Leads};
ghost use Rattle.road_network.specs.Walks.{Arrives, EndsBy, IsSumOf, IsWalk};
ghost use Rattle.road_network.specs.Best.{IsBest, IsBackwardLeast, HasBestBelow, EndsAtBest};
ghost use Rattle.road_network.specs.Answers.{AreBestCosts, IsAnswer, IsRelevant, AreRelevantPairs, Passes, Route};

/// A walk may be read from its first arc on, or from its last one back.
pub fn walks_are_read_both_ways()
    ensures { (net : Network) (p : List ℕ) (s v : ℕ) (c : List ℕ) → IsNetwork net
        → (IsWalk net s p v c ↔ Arrives net s (reverse p) v c) }
{}

/// Each cost of a walk is at least some best cost, and a walk of a best cost has best costs all the way; without its last
/// arc a best cost is best where that arc leads from. So a search that drops what is dominated loses nothing (Martins
/// 1984). The start at cost zero is a relevant pair of each query.
pub fn best_costs_lie_below_all()
    ensures below { (net : Network) (p : List ℕ) (s v : ℕ) (c : List ℕ) → IsNetwork net
        → IsWalk net s p v c → HasBestBelow net s v c }
    ensures on_the_way { (net : Network) (p q : List ℕ) (s t : ℕ) (c : List ℕ) → IsNetwork net
        → IsWalk net s (p ++ q) t c → IsBest net s t c → EndsAtBest net s p }
    ensures before_arc { (net : Network) (p : List ℕ) (s u v k : ℕ) (b w : List ℕ) → IsNetwork net
        → IsWalk net s p u b → Leads net k u w v → IsBest net s v (plus b w) → IsBest net s u b }
    ensures at_the_start { (net : Network) (s t : ℕ) (limit : List (Option ℕ))
        → IsNode net.nodes s → length limit ≡ net.criteria
        → IsRelevant net s t limit s (replicate net.criteria 0) }
{}

/// What an arc adds makes each cost greater, and a cost that dominates another still does with it added to both. No component
/// of a walk's cost is greater than as many weights as it has arcs can make it, so along at most 2^26 arcs, which is more
/// than the labels of any budget and the arcs of any graph, it stays below 2^58.
pub fn arcs_add_to_costs()
    ensures grows { (net : Network) (k u v : ℕ) (w c : List ℕ) → IsNetwork net
        → Leads net k u w v → length c ≡ net.criteria → Dominates c (plus c w) }
    ensures monotone { (net : Network) (k u v : ℕ) (w a b : List ℕ) → IsNetwork net
        → Leads net k u w v → length a ≡ net.criteria → Dominates a b
        → Dominates (plus a w) (plus b w) }
    ensures counted { (net : Network) (p : List ℕ) (s v : ℕ) (c : List ℕ) → IsNetwork net
        → AreSmall net.states → IsWalk net s p v c → IsSumOf (length p) c }
    ensures bounded { (net : Network) (p : List ℕ) (s v : ℕ) (c : List ℕ) → IsNetwork net
        → AreSmall net.states → length p ≤ 2 ^ 26 → IsWalk net s p v c → All (λ x. x < 2 ^ 58) c }
{}

/// Best costs are finitely many, since a walk of a best cost goes through no node twice, and so has fewer arcs than
/// there are nodes. So each query has a list of best costs, and either it passes its budget, or it doesn't and that list
/// is its answer.
pub fn best_costs_exist()
    ensures few_arcs { (net : Network) (p : List ℕ) (s v : ℕ) (c : List ℕ) → IsNetwork net
        → IsWalk net s p v c → IsBest net s v c → length p < net.nodes }
    ensures some_list { (net : Network) (s t : ℕ) (limit : List (Option ℕ)) → IsNetwork net
        → (costs : List (List ℕ)) × AreBestCosts net s t limit costs }
    ensures passes_or_ends { (net : Network) (s t : ℕ) (limit : List (Option ℕ)) (budget : ℕ)
        → IsNetwork net → Passes net s t limit budget ⊎ (¬ Passes net s t limit budget
        × ((costs : List (List ℕ)) × AreBestCosts net s t limit costs)) }
{}

/// The relevant pairs of a query are a list too, and the query passes just those budgets that are below its length.
pub fn relevant_pairs_are_counted()
    ensures some_pairs { (net : Network) (s t : ℕ) (limit : List (Option ℕ)) → IsNetwork net
        → (pairs : List (ℕ × List ℕ)) × AreRelevantPairs net s t limit pairs }
    ensures counted { (net : Network) (s t : ℕ) (limit : List (Option ℕ))
        (pairs : List (ℕ × List ℕ)) → AreRelevantPairs net s t limit pairs
        → (budget : ℕ) → Passes net s t limit budget ↔ (budget < length pairs) }
{}

/// A query has one list of best costs at most. Without a limit it is empty only where no walk leads to the target.
pub fn best_costs_are_one_list()
    ensures one { (net : Network) (s t : ℕ) (limit : List (Option ℕ)) (costs others : List (List ℕ))
        → AreBestCosts net s t limit costs → AreBestCosts net s t limit others → costs ≡ others }
    ensures none_only_where_no_walk { (net : Network) (s t : ℕ) (p c : List ℕ) → IsNetwork net
        → AreBestCosts net s t (no_limit net.criteria) [] → ¬ IsWalk net s p t c }
{}

/// Each cost of a walk has exactly one backward-least walk, so best costs have exactly one answer with walks.
pub fn walks_of_costs_are_one_list()
    ensures some_walk { (net : Network) (p : List ℕ) (s v : ℕ) (c : List ℕ) → IsNetwork net
        → IsWalk net s p v c → (q : List ℕ) × IsBackwardLeast net s v c q }
    ensures one_walk { (net : Network) (s v : ℕ) (c p q : List ℕ)
        → IsBackwardLeast net s v c p → IsBackwardLeast net s v c q → p ≡ q }
    ensures some_answer { (net : Network) (s t : ℕ) (limit : List (Option ℕ))
        (costs : List (List ℕ)) → IsNetwork net → AreBestCosts net s t limit costs
        → (routes : List Route) × IsAnswer net s t limit routes }
    ensures one_answer { (net : Network) (s t : ℕ) (limit : List (Option ℕ))
        (routes others : List Route) → IsAnswer net s t limit routes
        → IsAnswer net s t limit others → routes ≡ others }
{}

/// A backward-least walk is made arc by arc of such walks, whether its cost is best or not. Its first part is the
/// backward-least walk of its own cost to its own end, both of which the arcs determine. Its last arc is the least last
/// arc of all walks of its cost; with such an arc after it, a backward-least walk stays one. Only the walk of no arcs
/// costs nothing, and each other one is a walk and a last arc.
pub fn backward_least_walks_grow_by_arcs()
    ensures first_part { (net : Network) (p q : List ℕ) (s v t : ℕ) (b c : List ℕ) → IsNetwork net
        → IsBackwardLeast net s t c (p ++ q) → IsWalk net s p v b → IsBackwardLeast net s v b p }
    ensures last_arc { (net : Network) (p q : List ℕ) (s v k j : ℕ) (c : List ℕ)
        → IsBackwardLeast net s v c (p ++ k ∷ []) → IsWalk net s (q ++ j ∷ []) v c → k ≤ j }
    ensures one_arc_more { (net : Network) (p : List ℕ) (s u v k : ℕ) (b w : List ℕ) → IsNetwork net
        → IsBackwardLeast net s u b p → Leads net k u w v
        → ((q : List ℕ) (j : ℕ) → IsWalk net s (q ++ j ∷ []) v (plus b w) → k ≤ j)
        → IsBackwardLeast net s v (plus b w) (p ++ k ∷ []) }
    ensures none_at_zero { (net : Network) (p : List ℕ) (s v : ℕ) → IsNetwork net
        → IsWalk net s p v (replicate net.criteria 0) → p ≡ [] }
    ensures by_last_arc { (net : Network) (p : List ℕ) (s v k : ℕ) (c : List ℕ) → IsNetwork net
        → (IsWalk net s (p ++ k ∷ []) v c ↔ EndsBy net k v (λ u b. IsWalk net s p u b) c) }
    ensures one_end { (net : Network) (p : List ℕ) (s u v : ℕ) (b c : List ℕ)
        → IsWalk net s p u b → IsWalk net s p v c → (u ≡ v) × (b ≡ c) }
{}
