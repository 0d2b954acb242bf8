//! What an operator has published and what it is about to, from which the next history is drawn up.
ghost use Rattle.std.specs.Prelude.{◌≡◌, ◌<◌, ◌++◌, ◌∷◌, [], vec_len, vec_capacity};

use crate::history::History;
use arc_graph::Change;
use logbook::Plain;
use std::alloc::Global;
use std::marker::Model;
use std::mem;

/// Changes that were published as one. Contracts see the list of them.
#[derive(Debug, Drop)]
pub struct ChangeSet {
    changes: Vec<Change>,
}

impl Model for ChangeSet {
    ghost use Rattle.std.specs.Prelude.{List};
    ghost use Rattle.arc_graph.specs.declared.change.Change.{Change};

    ghost Value = { List Change };

    ghost view = { λ s. s.changes.items };
}

impl ChangeSet {
    /// In the order in which they were asked for; of several changes of one arc the last stands.
    pub fn changes(&self) -> &[Change]
        ensures { result.now ≡ self.now }
    {
        &self.changes
    }
}

/// The published change sets, and the pending changes.
#[derive(Drop)]
pub(crate) struct Draft {
    pub sets: Vec<ChangeSet>,
    pub pending: Vec<Change>,
}

impl Draft {
    /// Makes the pending changes the last of the published sets. It takes no memory.
    pub fn publish(&mut self, alloc: Global)
        requires room { vec_len self.old.sets < vec_capacity self.old.sets }
        ensures sets { self.new.sets.items ≡ self.old.sets.items ++ self.old.pending.items ∷ [] }
        ensures pending { self.new.pending.items ≡ [] }
    {
        let changes = mem::replace(&mut self.pending, Vec::new(alloc));
        self.sets.push_reserved(ChangeSet { changes });
    }
}

/// To publish what is pending.
pub(crate) struct Publishing;

impl Plain<Draft, History, u64> for Publishing {
    ghost use Rattle.std.specs.Prelude.{None, [], ◌∷◌, ◌++◌};
    ghost use Rattle.arc_graph.specs.History.HistoryEntry.{Changes};
    ghost use Rattle.epoch_store.specs.Published.{of_sets};

    ghost ask = { λ d. of_sets d.sets.items ++ Changes d.pending.items ∷ [] };

    ghost state = { λ d. None };
}
