//! The rule under which the operator and the readers step.
use crate::published::{Publication, Published};
use crate::sight::Sight;
use crate::store::Store;
use crossbeam_utils::rule::{Outcome, Protocol};
use left_right::reader::Reader;
use left_right::writer::Writer;
use std::marker::PhantomData;

/// What readers find is the last epoch of one history, which begins with what each has seen.
pub struct StoreRule<S: Store> {
    of: PhantomData<S>,
}

impl<S: Store> Protocol<Published<S>, Sight> for StoreRule<S> {
    ghost use Rattle.epoch_store.specs.StoreRule.{Stands, unsighted};

    ghost holds = { Stands S.origin };

    ghost first = { unsighted };
}

/// What is known of the end as a look at the epochs begins.
pub trait Foresight {
    ghost use Rattle.std.specs.Prelude.{Bool};

    /// Whether no further epoch will come.
    ghost last: { Bool };
}

/// More epochs may come.
pub(crate) struct MoreMayCome;

impl Foresight for MoreMayCome {
    ghost use Rattle.std.specs.Prelude.{false};

    ghost last = { false };
}

/// The end mark is set.
pub(crate) struct NoneWillCome;

impl Foresight for NoneWillCome {
    ghost use Rattle.std.specs.Prelude.{true};

    ghost last = { true };
}

/// A look at what is published, after which its history is what was seen. What is known of the end has to be known as it
/// begins.
pub(crate) struct Look<S: Store, F: Foresight> {
    of: PhantomData<(S, F)>,
}

impl<S: Store, F: Foresight> Outcome<Published<S>, Sight> for Look<S, F> {
    ghost use Rattle.epoch_store.specs.StoreRule.{Looks};

    ghost then = { λ before _ p after. Looks S.origin F.last before p after };
}

pub(crate) type StoreReader<S> = Reader<Published<S>, Sight, StoreRule<S>>;

pub(crate) type StoreWriter<S> = Writer<Published<S>, Publication<S>, Sight, StoreRule<S>>;
