ghost use Rattle.std.specs.Prelude.{ℕ, List, Option};
ghost use Rattle.road_network.specs.Network.{Network, IsNetwork};
ghost use Rattle.walk_readback.specs.Found.{FoundCosts, IsFound, IsWellFound};
ghost use Rattle.goal_laws.specs.FoundGoal.{HasAllGoalRelevant};

/// Where the settled pairs are exactly the goal-relevant ones, the whole answer is there, and its walks can be read back.
pub fn found_with_all_goal_relevant_is_well_found()
    ensures { (net : Network) (limit : List (Option ℕ)) (f : FoundCosts) → IsNetwork net → IsFound f
        → HasAllGoalRelevant net limit f → IsWellFound net limit f }
{}
