ghost use Rattle.std.specs.Prelude.{◌≡◌, ℕ, ◌<◌, ◌≤◌, ◌++◌, ◌↔◌, List, Option, length};
ghost use Rattle.cost_vector.specs.Costs.{Within, plus};
ghost use Rattle.road_network.specs.Network.{Network, IsNetwork, Leads};
ghost use Rattle.road_network.specs.Walks.{IsWalk};
ghost use Rattle.road_network.specs.Best.{IsBest};
ghost use Rattle.road_network.specs.Answers.{AreRelevantPairs, IsRelevant, Passes};
ghost use Rattle.goal_laws.specs.Goal.{AreGoalRelevantPairs, GoalPasses, IsBound, IsGoalRelevant};

/// Each goal-relevant pair is relevant. So there are at most as many of them, and a search that is directed to its target
/// answers wherever one that isn't does with the same budget.
pub fn goal_relevant_pairs_are_relevant()
    ensures each { (net : Network) (s t v : ℕ) (limit : List (Option ℕ)) (c : List ℕ)
        → IsNetwork net → IsGoalRelevant net s t limit v c → IsRelevant net s t limit v c }
    ensures at_most { (net : Network) (s t : ℕ) (limit : List (Option ℕ))
        (fewer pairs : List (ℕ × List ℕ)) → IsNetwork net → AreGoalRelevantPairs net s t limit fewer
        → AreRelevantPairs net s t limit pairs → length fewer ≤ length pairs }
    ensures passes { (net : Network) (s t : ℕ) (limit : List (Option ℕ)) (budget : ℕ)
        → IsNetwork net → GoalPasses net s t limit budget → Passes net s t limit budget }
{}

/// A query passes just those budgets that are below the number of its goal-relevant pairs.
pub fn goal_relevant_pairs_are_counted()
    ensures { (net : Network) (s t : ℕ) (limit : List (Option ℕ)) (pairs : List (ℕ × List ℕ))
        → AreGoalRelevantPairs net s t limit pairs
        → (budget : ℕ) → GoalPasses net s t limit budget ↔ (budget < length pairs) }
{}

/// Where an arc leads to a goal-relevant pair, the pair before it is one too. So is each pair on the way of a walk whose
/// cost is best at the target and within the limit, and each such cost of the target makes one.
pub fn goal_relevant_pairs_lead_to_answers()
    ensures before_arc { (net : Network) (p : List ℕ) (s t u v k : ℕ) (limit : List (Option ℕ))
        (b w h : List ℕ) → IsNetwork net → IsGoalRelevant net s t limit v (plus b w)
        → IsWalk net s p u b → Leads net k u w v → IsBound net u t h
        → IsGoalRelevant net s t limit u b }
    ensures on_the_way { (net : Network) (p q : List ℕ) (s t v : ℕ) (limit : List (Option ℕ))
        (b c h : List ℕ) → IsNetwork net → IsWalk net s (p ++ q) t c → IsBest net s t c
        → Within limit c → IsWalk net s p v b → IsBound net v t h
        → IsGoalRelevant net s t limit v b }
    ensures at_the_target { (net : Network) (s t : ℕ) (limit : List (Option ℕ)) (c : List ℕ)
        → IsNetwork net → (IsGoalRelevant net s t limit t c ↔ (IsBest net s t c × Within limit c)) }
{}
