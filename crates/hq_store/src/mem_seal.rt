//! Seals in memory.
ghost use Rattle.std.specs.Prelude.{◌≡◌, ◌+◌, ◌^◌, ◌<◌, ◌≤◌, [], length, slice_range, IfOk};
ghost use Rattle.hq_store.specs.Pages.{bytes_in, AreWhole, AreGroups};

use crate::group::Group;
use crate::pages::{GROUP, PAGE};
use crate::read::read;
use crate::store::SealCopy;
use bytes::Bytes;
use hq_value::{FileId, NoMemory};
use std::alloc::Global;
use std::marker::Model;
use std::sync::Arc;

/// The bytes under a seal in memory, which its file and its copies share with it. A copy is one handle more.
#[derive(Drop)]
pub struct MemSeal {
    id: FileId,
    parts: Arc<Parts>,
    len: u64,
}

/// Finished groups of pages, the pages behind them, and runs of any length.
#[derive(Drop)]
pub(crate) struct Parts {
    pub(crate) groups: Vec<Group>,
    pub(crate) pages: Vec<Bytes>,
    pub(crate) runs: Vec<Bytes>,
}

impl Model for MemSeal {
    ghost use Rattle.std.specs.Prelude.{◌≡◌, ◌^◌, ◌<◌, [], length};
    ghost use Rattle.hq_store.specs.declared.pages.TheConstants.{PAGE, GROUP};
    ghost use Rattle.hq_store.specs.Pages.{Shared, bytes_in, AreWhole, AreGroups};

    ghost Value = { Shared };

    ghost view = { λ s. record {
      id = s.id;
      bytes = bytes_in s.parts.value.groups.items s.parts.value.pages.items s.parts.value.runs.items [];
    } };

    ghost invariant = { λ s. AreGroups PAGE GROUP s.parts.value.groups.items × AreWhole PAGE s.parts.value.pages.items
        × (s.len ≡ length (bytes_in s.parts.value.groups.items s.parts.value.pages.items s.parts.value.runs.items []))
        × (s.len < 2 ^ 64) };
}

impl MemSeal {
    /// A seal of the bytes of these parts.
    pub(crate) fn new(
        alloc: Global,
        id: FileId,
        parts: Parts,
        len: u64,
    ) -> Result<MemSeal, NoMemory>
        requires groups { AreGroups PAGE GROUP parts.groups.items }
        requires whole { AreWhole PAGE parts.pages.items }
        requires counted { len ≡ length (bytes_in parts.groups.items parts.pages.items parts.runs.items []) }
        ensures id { IfOk result (λ seal. seal.id ≡ id) }
        ensures bytes { IfOk result (λ seal. seal.bytes ≡ bytes_in parts.groups.items parts.pages.items parts.runs.items []) }
    {
        let parts = Arc::new(alloc, parts)?;
        Ok(MemSeal { id, parts, len })
    }

    /// Fills `into` with the bytes from `at` on.
    pub(crate) fn read(&self, at: u64, into: &mut [u8])
        requires { at + length into.old ≤ length self.now.bytes }
        ensures { into.new ≡ slice_range self.now.bytes at (at + length into.old) }
    {
        read(
            &self.parts.groups,
            &self.parts.pages,
            &self.parts.runs,
            &[],
            at as usize,
            into,
        );
    }
}

impl SealCopy for MemSeal {
    ghost use Rattle.std.specs.Prelude.{true, length, refl};

    ghost tells = { true };

    ghost state = { λ s. record { id = s.id; bytes = s.bytes; len = length s.bytes } };

    /// Copies no byte, and takes no memory.
    fn copy(&self) -> Result<MemSeal, NoMemory> {
        let parts = self.parts.clone()?;
        Ok(MemSeal {
            id: self.id,
            parts,
            len: self.len,
        })
    }

    fn len(&self) -> u64 {
        self.len
    }

    ghost told_len = { λ s t. refl };
}
