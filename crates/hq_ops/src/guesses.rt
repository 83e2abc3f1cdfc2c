//! Guesses at the groups of rows.
use crate::chains::filled;
use hq_value::NoMemory;
use std::alloc::Global;

const UPPER_HALF: u64 = 4_294_967_296;

/// For hashes of keys, the index of a group whose key had such a hash last. Whoever takes it compares the key, so a wrong
/// one costs time alone.
#[derive(Drop)]
pub struct Guesses {
    indices: Vec<usize>,
}

impl Guesses {
    /// No guess.
    pub fn none(alloc: Global) -> Guesses {
        Guesses {
            indices: Vec::new(alloc),
        }
    }

    /// The index of a group whose key may have this hash.
    #[inline]
    pub fn at(&self, hash: u64) -> Option<usize> {
        self.indices.get(self.place(hash)).copied()
    }

    /// Notes the index of a group, of which there are so many. There is room for four times as many, so that few have one
    /// place.
    pub fn note(
        &mut self,
        alloc: Global,
        hash: u64,
        index: usize,
        groups: usize,
    ) -> Result<(), NoMemory> {
        if groups > self.indices.len() / 4 {
            let count = self.indices.len().saturating_mul(2).max(64);
            self.indices = filled(alloc, count, 0)?;
        }
        let place = self.place(hash);
        if let Some(at) = self.indices.get_mut(place) {
            *at = index;
        }
        Ok(())
    }

    // The upper half of the hash, as a part of all places.
    #[inline]
    fn place(&self, hash: u64) -> usize {
        let count = self.indices.len() as u64;
        ((hash / UPPER_HALF).wrapping_mul(count) / UPPER_HALF) as usize
    }
}
