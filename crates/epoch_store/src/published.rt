//! What readers find, and how a publication changes it.
ghost use Rattle.std.specs.Prelude.{◌≡◌, ◌<◌, length};
ghost use Rattle.arc_graph.specs.History.{IsChange, with_changes};
ghost use Rattle.epoch_store.specs.Origin.{arcs_of, criteria_of};
ghost use Rattle.epoch_store.specs.Published.{with_page_numbers, with_publication};

use crate::chronicle::Witness;
use crate::store::Store;
use arc_graph::{Change, Weights};
use left_right::Absorb;
use std::alloc::AllocError;
use std::marker::Model;

/// An epoch, as it is shared with the readers.
#[derive(Drop)]
pub struct Published<S: Store> {
    pub(crate) number: u32,
    pub(crate) weights: Weights,
    /// For each page of the weights, the number of the last epoch that changed it, or the first number.
    pub(crate) pages: Vec<u32>,
    pub(crate) history: Witness<S>,
}

impl<S: Store> Model for Published<S> {
    ghost use Rattle.std.specs.Prelude.{◌≡◌, length};
    ghost use Rattle.arc_graph.specs.Pages.{pages_of};
    ghost use Rattle.epoch_store.specs.Origin.{arcs_of, criteria_of};
    ghost use Rattle.epoch_store.specs.Published.{Published};

    ghost Value = { Published };

    ghost view = { λ p. record {
      number = p.number;
      weights = p.weights;
      pages = p.pages.items;
      history = p.history.history;
    } };

    ghost invariant = { λ p. (p.weights.criteria ≡ criteria_of S.origin)
        × (length p.weights.states ≡ arcs_of S.origin)
        × (length p.pages.items ≡ pages_of (arcs_of S.origin)) };
}

/// One publication, as the operator hands it over: what readers are to find, with the changes in place of the weights.
#[derive(Drop)]
pub struct Publication<S: Store> {
    pub(crate) number: u32,
    pub(crate) changes: Vec<Change>,
    pub(crate) history: Witness<S>,
}

impl<S: Store> Model for Publication<S> {
    ghost use Rattle.std.specs.Prelude.{All};
    ghost use Rattle.arc_graph.specs.History.{IsChange};
    ghost use Rattle.epoch_store.specs.Origin.{arcs_of, criteria_of};
    ghost use Rattle.epoch_store.specs.Published.{Publication};

    ghost Value = { Publication };

    ghost view = { λ q. record {
      number = q.number;
      changes = q.changes.items;
      history = q.history.history;
    } };

    ghost invariant = { λ q. All (IsChange (arcs_of S.origin) (criteria_of S.origin)) q.changes.items };
}

impl<S: Store> Published<S> {
    /// Takes in a publication, in place.
    fn take_in(&mut self, publication: &Publication<S>)
        ensures { self.new ≡ with_publication self.old publication.now }
    {
        for change in &publication.changes {
            self.weights.set(change.arc, change.weight);
            self.pages[Weights::page_of(change.arc)] = publication.number;
        }
        self.number = publication.number;
        self.history = publication.history.again();
    }
}

impl<S: Store> Absorb<Publication<S>> for Published<S> {
    ghost use Rattle.epoch_store.specs.Published.{with_publication};

    type State = Published<S>;

    ghost state = { λ p. p };

    ghost applied = { with_publication };

    ghost never_fails = { Unit {0} };

    fn absorb_first(
        &mut self,
        publication: &Publication<S>,
        _other: &Published<S>,
    ) -> Result<(), AllocError> {
        self.take_in(publication);
        Ok(())
    }
}
