ghost use Rattle.std.specs.Prelude.{◌≡◌, ℕ, ◌+◌, ◌<◌, ◌≤◌, List, sum, Contains};
ghost use Rattle.road_network.specs.Answers.{IsRelevant, Passes};
ghost use Rattle.list_laws.specs.Sets.{HasMoreThan};
ghost use Rattle.event_machine.specs.Machine.{Task, IsTask, SearchState, start_state};
ghost use Rattle.road_network.specs.Labels.{Label};
ghost use Rattle.event_machine.specs.Events.{IsSame, IsReached};
ghost use Rattle.event_machine.specs.Orders.{Stays};
ghost use Rattle.event_machine.specs.Rounds.{IsBetweenRounds, Round, CountedRound, NoneStays, GoRounds, Rounds};

/// From each state between rounds a round leads to one state, which is between rounds again, and a counted round settles
/// some label.
pub fn rounds_have_one_end()
    ensures some_round { (task : Task) (s : SearchState)
        → IsTask task → IsReached task s → IsBetweenRounds s
        → (after : SearchState) × Round task s after }
    ensures one_end { (task : Task) (s a b : SearchState)
        → IsTask task → IsReached task s → Round task s a → Round task s b → IsSame a b }
    ensures reached { (task : Task) (s after : SearchState)
        → IsTask task → IsReached task s → Round task s after
        → IsReached task after × IsBetweenRounds after }
    ensures counted { (task : Task) (s after : SearchState) (l : Label)
        → IsTask task → IsReached task s → Round task s after → Stays task s l
        → CountedRound task s after }
    ensures settles { (task : Task) (s after : SearchState)
        → IsTask task → IsReached task s → CountedRound task s after
        → (l : Label) × Contains after.settled l × (¬ Contains s.settled l) }
{}

/// There is one number of counted rounds, and it is at most 1 plus the greatest component sum of a relevant cost. Rounds
/// that are made one by one are no more than these, and more are to come as long as some label stays after the drops and
/// no more labels are settled than the budget.
pub fn rounds_are_counted()
    ensures some_number { (task : Task) (budget : ℕ)
        → IsTask task → (n : ℕ) × Rounds task budget n }
    ensures one_number { (task : Task) (budget n m : ℕ)
        → IsTask task → Rounds task budget n → Rounds task budget m → n ≡ m }
    ensures bounded { (task : Task) (budget n : ℕ)
        → IsTask task → Rounds task budget n
        → (v : ℕ) × (c : List ℕ) × IsRelevant task.network task.start task.target task.limit v c
        × (n ≤ sum c + 1) }
    ensures one_more { (task : Task) (budget n : ℕ) (s after : SearchState)
        → IsTask task → GoRounds task budget n (start_state task) s
        → ¬ HasMoreThan budget s.settled → CountedRound task s after
        → GoRounds task budget (n + 1) (start_state task) after }
    ensures no_more { (task : Task) (budget k n : ℕ) (s : SearchState)
        → IsTask task → GoRounds task budget k (start_state task) s → Rounds task budget n → k ≤ n }
    ensures more_to_come { (task : Task) (budget k n : ℕ) (s : SearchState) (l : Label)
        → IsTask task → GoRounds task budget k (start_state task) s
        → ¬ HasMoreThan budget s.settled → Stays task s l → Rounds task budget n → k < n }
{}

/// The query passes its budget where more labels than it are settled. Where nothing stays after the drops and at most
/// so many are settled, it doesn't.
pub fn rounds_tell_the_budget()
    ensures passes { (task : Task) (s : SearchState) (budget : ℕ)
        → IsTask task → IsReached task s → HasMoreThan budget s.settled
        → Passes task.network task.start task.target task.limit budget }
    ensures stays_within { (task : Task) (s : SearchState) (budget : ℕ)
        → IsTask task → IsReached task s → IsBetweenRounds s
        → NoneStays task s → ¬ HasMoreThan budget s.settled
        → ¬ Passes task.network task.start task.target task.limit budget }
{}
