ghost use Rattle.std.specs.Prelude.{◌≡◌, ℕ, true};
ghost use mathlib.Core.List.{IsPrefix};
ghost use Rattle.arc_graph.specs.History.{History, IsHistory, ends_closed};

/// A reader that has seen a closed history sees no more: a history that begins with it is the same.
pub fn closed_histories_go_no_further()
    ensures { (arcs criteria : ℕ) (seen later : History) → ends_closed seen ≡ true
        → IsPrefix seen later → IsHistory arcs criteria later → later ≡ seen }
{}
