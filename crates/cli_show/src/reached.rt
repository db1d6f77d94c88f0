use crate::roots::Root;
use seg_block::{Fit, UNIT};
use seg_manager::Heap;
use std::alloc::{AllocError, Global};

/// The frozen objects to which the cells point that are shown so far.
#[derive(Drop)]
pub(crate) struct Reached {
    /// Whether the object whose value begins in a unit of the segment is one. Empty if no object is frozen.
    units: Vec<bool>,
}

impl Reached {
    pub(crate) fn new<F: Fit>(
        alloc: Global,
        heap: &Heap<F, Global>,
        roots: &[Root],
    ) -> Result<Reached, AllocError> {
        let units = if roots.iter().any(|root| root.is_frozen()) {
            heap.window().len() / UNIT
        } else {
            0
        };
        Ok(Reached {
            units: Vec::from_elem(alloc, false, units as usize)?,
        })
    }

    /// Whether a cell points to the object with its value at this position.
    pub(crate) fn has(&self, value: u32) -> bool {
        matches!(self.units.get((value / UNIT) as usize), Some(true))
    }

    /// A cell points to the object with its value at this position.
    pub(crate) fn add(&mut self, value: u32) {
        if let Some(unit) = self.units.get_mut((value / UNIT) as usize) {
            *unit = true;
        }
    }
}
