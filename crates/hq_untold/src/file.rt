//! Files and seals in memory that tell nothing.

use hq_store::{MemFile, MemSeal, SealCopy, StoredFile};
use hq_value::NoMemory;
use std::marker::Model;

/// A file in memory that doesn't tell its bytes, and has just its sure ones.
#[derive(Drop)]
pub struct UntoldFile {
    pub(crate) file: MemFile,
}

impl Model for UntoldFile {
    ghost use Rattle.std.specs.Prelude.{◌≡◌, length};
    ghost use Rattle.hq_store.specs.FileStep.{FileState};

    ghost Value = { FileState };

    ghost view = { λ f. f.file };

    ghost invariant = { λ f. length f.file.bytes ≡ f.file.sure };
}

/// A seal in memory that doesn't tell its bytes.
#[derive(Drop)]
pub struct UntoldSeal {
    pub(crate) seal: MemSeal,
}

impl Model for UntoldSeal {
    ghost use Rattle.hq_store.specs.Pages.{Shared};

    ghost Value = { Shared };

    ghost view = { λ s. s.seal };
}

impl StoredFile for UntoldFile {
    ghost use Rattle.std.specs.Prelude.{false};

    ghost tells = { false };

    ghost state = { λ f. f };
}

impl SealCopy for UntoldSeal {
    ghost use Rattle.std.specs.Prelude.{false, length, refl};

    ghost tells = { false };

    ghost state = { λ s. record { id = s.id; bytes = s.bytes; len = length s.bytes } };

    fn copy(&self) -> Result<UntoldSeal, NoMemory> {
        let seal = self.seal.copy()?;
        Ok(UntoldSeal { seal })
    }

    fn len(&self) -> u64 {
        self.seal.len()
    }

    ghost told_len = { λ s t. refl };
}
