//! Opening an examination.
ghost use Rattle.std.specs.Prelude.{◌≡◌, [], IfOk};
ghost use Rattle.examination.specs.Holding.{held, FairlyHeld};

use crate::examination::Examination;
use crate::state::State;
use dispatch::discipline::Discipline;
use std::alloc::{AllocError, Global};

/// The most operations that are held.
pub(crate) const MOST: usize = 512;

impl<D: Discipline + Drop> Examination<D> {
    /// Opens an examination that holds nothing, with all the memory that it will need.
    // discipline and mask apart: a struct of the two would be made only to be taken apart
    pub fn open(heap: Global, discipline: D, mask: u64) -> Result<Self, AllocError>
        ensures { IfOk result (λ e. (held e ≡ []) × (e.mask ≡ mask) × (e.discipline ≡ discipline) × FairlyHeld e) }
    {
        let rows = Vec::with_capacity(heap, MOST)?;
        let columns = Vec::with_capacity(heap, MOST)?;
        let nearests = Vec::with_capacity(heap, MOST)?;
        Ok(Examination {
            discipline,
            mask,
            rows,
            columns,
            nearests,
            state: State::new(mask),
        })
    }
}
