ghost use Rattle.std.specs.Prelude.{◌≡◌, ℕ, ◌+◌, ◌≤◌, ◌<◌, List, [], ◌∷◌, ◌++◌, true, false, length, All};
ghost use Rattle.arc_graph.specs.declared.change.Change.{Change};
ghost use Rattle.arc_graph.specs.Graph.{Weights, AreWeights};
ghost use Rattle.arc_graph.specs.History.{
  History,
  HistoryEntry,
  IsChange,
  IsHistory,
  IsOperator,
  IsPublished,
  LeavePage,
  LeavesPage,
  Operator,
  changes_in,
  closed_history,
  ends_closed,
  epoch_after,
  max_pending,
  number_after,
  sets,
  sets_of,
  with_changes,
  with_none_pending,
  with_pending,
  with_published,
};
ghost use Rattle.arc_graph.specs.History.HistoryEntry.{Changes, Closed};
ghost use Rattle.road_network.specs.Limits.{max_epoch};
ghost use Rattle.arc_graph.specs.Pages.{AgreeOnPage, page_of, pages_of};

/// A published set is one more, and a history that is closed has no more.
pub fn histories_grow_by_entries()
    ensures set { (h : History) (cs : List Change)
        → sets_of (h ++ Changes cs ∷ []) ≡ sets_of h ++ cs ∷ [] }
    ensures closed { (h : History) → sets_of (h ++ Closed ∷ []) ≡ sets_of h }
    ensures count { (h : History) (cs : List Change)
        → sets (h ++ Changes cs ∷ []) ≡ sets h + 1 }
    ensures ends { (h : History) (cs : List Change)
        → ends_closed (h ++ Changes cs ∷ []) ≡ false }
    ensures ends_closed { (h : History) → ends_closed (h ++ Closed ∷ []) ≡ true }
{}

/// The first epoch has the first weights, each set makes the next from the one before it, and what comes later changes no
/// earlier epoch.
pub fn epochs_follow_their_history()
    ensures first { (base : Weights) (h : History) → epoch_after base h 0 ≡ base }
    ensures next { (base : Weights) (h : History) (cs : List Change)
        → epoch_after base (h ++ Changes cs ∷ []) (sets h + 1)
        ≡ with_changes (epoch_after base h (sets h)) cs }
    ensures closed { (base : Weights) (h : History) (k : ℕ)
        → epoch_after base (h ++ Closed ∷ []) k ≡ epoch_after base h k }
    ensures earlier { (base : Weights) (h later : History) (k : ℕ) → k ≤ sets h
        → epoch_after base (h ++ later) k ≡ epoch_after base h k }
{}

/// The epochs of a well-formed history are weights of the same arcs and criteria.
pub fn epochs_are_weights()
    ensures criteria { (base : Weights) (h : History) (k : ℕ)
        → (epoch_after base h k).criteria ≡ base.criteria }
    ensures arcs { (base : Weights) (h : History) (k : ℕ)
        → length (epoch_after base h k).states ≡ length base.states }
    ensures weights { (base : Weights) (h : History) (k : ℕ) → AreWeights base
        → IsHistory (length base.states) base.criteria h → AreWeights (epoch_after base h k) }
{}

/// A page of which no change set has an arc has the same states before and after these sets.
pub fn pages_change_by_sets_alone()
    ensures set { (page : ℕ) (w : Weights) (cs : List Change) → LeavesPage page cs
        → AgreeOnPage page (with_changes w cs) w }
    ensures epochs { (page : ℕ) (base : Weights) (h : History) (i k : ℕ) → i ≤ k
        → LeavePage page h i k → AgreeOnPage page (epoch_after base h i) (epoch_after base h k) }
{}

/// Each arc stands on one of the pages, so weights that agree on all of them are equal.
pub fn pages_have_all_arcs()
    ensures there { (arcs k : ℕ) → 1 ≤ k → k ≤ arcs → page_of k < pages_of arcs }
    ensures equal { (v w : Weights) → v.criteria ≡ w.criteria
        → length v.states ≡ length w.states
        → ((page : ℕ) → page < pages_of (length v.states) → AgreeOnPage page v w) → v ≡ w }
{}

/// What an operator does keeps its history well formed and within its limits.
pub fn operators_keep_their_limits()
    ensures new { (arcs criteria first : ℕ) → first ≤ max_epoch
        → IsOperator arcs criteria first (record { published = []; pending = [] }) }
    ensures pending { (arcs criteria first : ℕ) (o : Operator) (c : Change)
        → IsOperator arcs criteria first o → IsChange arcs criteria c
        → length o.pending < max_pending → IsOperator arcs criteria first (with_pending o c) }
    ensures dropped { (arcs criteria first : ℕ) (o : Operator) → IsOperator arcs criteria first o
        → IsOperator arcs criteria first (with_none_pending o) }
    ensures published { (arcs criteria first : ℕ) (o : Operator)
        → IsOperator arcs criteria first o → number_after first (sets o.published) < max_epoch
        → IsOperator arcs criteria first (with_published o) }
    ensures closed { (arcs criteria first : ℕ) (o : Operator) → IsOperator arcs criteria first o
        → IsPublished arcs criteria first (closed_history o) }
{}

/// The first entries of a well-formed history are one.
pub fn histories_have_well_formed_parts()
    ensures history { (arcs criteria : ℕ) (h later : History)
        → IsHistory arcs criteria (h ++ later) → IsHistory arcs criteria h }
    ensures published { (arcs criteria first : ℕ) (h later : History)
        → IsPublished arcs criteria first (h ++ later) → IsPublished arcs criteria first h }
{}
