ghost use Rattle.std.specs.Prelude.{◌≡◌, [], All, IfNone, IfOk, IfSome};
ghost use Rattle.sweep_core.specs.Sweeps.{CanTell, IsSpentBy, TakesUnspent};
ghost use Rattle.sweep_parts.specs.Leaving.{LosesSpent};
ghost use Rattle.waiting_item.specs.Waiting.{as_waiting};

use cost_vector::NodeNo;
use out_of_memory::OutOfMemory;
use sweep_parts::{LeastQueue, Look, SettledLists};
use waiting_item::Item;

/// What tells which spots are spent: the settled costs of all nodes, and the target.
#[derive(Drop)]
pub(crate) struct Spent<'a, const D: usize, S: SettledLists<D>> {
    pub(crate) lists: &'a S,
    pub(crate) target: NodeNo,
}

impl<const D: usize, S: SettledLists<D>> Look<D, S::Cost> for Spent<'_, D, S> {
    ghost allows = { λ l x. CanTell (S.lists l.lists.now) l.target.0 x };

    ghost IsSpent = { λ l x. IsSpentBy (S.lists l.lists.now) l.target.0 x };

    fn is_spent(&self, item: &Item<S::Cost>) -> bool {
        self.lists.covers(item.node, &item.cost) || self.lists.dominates(self.target, &item.cost)
    }
}

/// Takes the least item out of the queue that isn't spent.
pub(crate) fn take_unspent<const D: usize, S: SettledLists<D>, Q: LeastQueue<D, S::Cost>>(
    lists: &S,
    target: NodeNo,
    queue: &mut Q,
) -> Result<Option<Item<S::Cost>>, OutOfMemory>
    requires { All (λ w. CanTell (S.lists lists.now) target.0 w.spot) (Q.waiting queue.old) }
    ensures taken { IfOk result (λ taken. IfSome taken (λ i. TakesUnspent (S.lists lists.now)
        target.0 (Q.waiting queue.old) (as_waiting S.Cost.components i) (Q.waiting queue.new))) }
    ensures none { IfOk result (λ taken. IfNone taken
        (LosesSpent (IsSpentBy (S.lists lists.now) target.0) (Q.waiting queue.old) [])) }
    ensures empty { IfOk result (λ taken. IfNone taken (Q.waiting queue.new ≡ [])) }
{
    let look = Spent { lists, target };
    'items: while let Some(item) = queue.take(&look)? {
        if !look.is_spent(&item) {
            return Ok(Some(item));
        }
    }
    Ok(None)
}
