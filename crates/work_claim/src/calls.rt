use crate::Job;
use out_of_memory::OutOfMemory;

/// Pieces of work that are calls of a closure with their numbers. A closure may start threads, or go by way of what does; a
/// job's own method may not.
#[derive(Drop)]
pub struct Calls<'f, F> {
    pub call: &'f F,
}

impl<T: Send + Drop, F: Fn(usize) -> Result<T, OutOfMemory> + Sync> Job for Calls<'_, F> {
    ghost use Rattle.std.specs.Prelude.{Ok};

    type Out = T;

    ghost accepts = { λ job piece. F.pre job.call.now piece };

    ghost gives = { λ job piece out. F.post job.call.now piece (Ok out) };

    fn run(&self, piece: usize) -> Result<T, OutOfMemory> {
        (self.call)(piece)
    }
}
