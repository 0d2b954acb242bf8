use std::marker::Model;

/// A history, as it stands in proofs. No value of it is made.
pub struct History {
    none: (),
}

impl Model for History {
    ghost use Rattle.std.specs.Prelude.{[]};
    ghost use Rattle.arc_graph.specs.History.{History};

    ghost Value = { History };

    ghost view = { λ _. [] };
}
