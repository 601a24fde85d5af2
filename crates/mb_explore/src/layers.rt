//! Which system comes next.
use std::alloc::{AllocError, Global};

/// Systems that have come farther than this share the last layer.
const MOST_LAYERS: usize = 65_536;

/// The places of systems, by how far they have come.
#[derive(Drop)]
pub(crate) struct Layers {
    layers: Vec<Vec<usize>>,
    /// All layers before this one are empty.
    current: usize,
}

impl Layers {
    /// No system waits yet. It takes no memory.
    pub(crate) fn new(alloc: Global) -> Layers {
        Layers {
            layers: Vec::new(alloc),
            current: 0,
        }
    }

    /// Adds the place of a system that has come so far. The only error: memory was refused.
    pub(crate) fn add(
        &mut self,
        alloc: Global,
        progress: u64,
        place: usize,
    ) -> Result<(), AllocError> {
        let number = (progress as usize).min(MOST_LAYERS).max(self.current);
        for _layer in self.layers.len()..number.saturating_add(1) {
            self.layers.push(Vec::new(alloc))?;
        }
        if let Some(layer) = self.layers.get_mut(number) {
            layer.push(place)?;
        }
        Ok(())
    }

    /// Takes out the place of a system that has come no farther than the others.
    pub(crate) fn next(&mut self) -> Option<usize> {
        for number in self.current..self.layers.len() {
            self.current = number;
            if let Some(layer) = self.layers.get_mut(number) {
                let place = layer.pop();
                if place.is_some() {
                    return place;
                }
            }
        }
        None
    }
}
