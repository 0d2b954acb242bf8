//! Where labels were found last. A hint promises nothing: what is found doesn't depend on it.
use cost_vector::ArcNo;
use out_of_memory::OutOfMemory;
use std::alloc::Global;

/// Where labels were found last by one arc. The labels of a node come by ascending costs, so what an arc makes of these costs
/// ascends too, and is found at the last place or soon behind it.
#[derive(Clone, Copy)]
pub(crate) struct Hint {
    /// The place of the last cost.
    pub(crate) place: u32,
    /// The place of the last label that dominated a cost.
    pub(crate) better: u32,
}

impl Hint {
    /// Nothing was found so far.
    pub(crate) const NONE: Hint = Hint {
        place: u32::MAX,
        better: u32::MAX,
    };
}

/// A hint for each arc.
#[derive(Drop)]
pub(crate) struct Hints {
    of_arcs: Vec<Hint>,
}

impl Hints {
    /// Hints for so many arcs, by none of which anything was found.
    pub(crate) fn new(alloc: Global, arcs: u32) -> Result<Hints, OutOfMemory> {
        let of_arcs = vec![in alloc; Hint::NONE; arcs as usize + 1]?;
        Ok(Hints { of_arcs })
    }

    /// The hint for an arc.
    pub(crate) fn of(&self, arc: ArcNo) -> Hint {
        match self.of_arcs.get(arc.0 as usize) {
            Some(hint) => *hint,
            None => Hint::NONE,
        }
    }

    /// Takes what is the hint for an arc from now on.
    pub(crate) fn set(&mut self, arc: ArcNo, hint: Hint) {
        if let Some(old) = self.of_arcs.get_mut(arc.0 as usize) {
            *old = hint;
        }
    }
}

/// A place in 32 bits; the last such number for each greater one.
pub(crate) fn in_32_bits(place: usize) -> u32 {
    place.min(u32::MAX as usize) as u32
}
