//! Finished groups of pages.
ghost use Rattle.std.specs.Prelude.{◌≡◌, IfOk};

use bytes::Bytes;
use hq_value::NoMemory;
use std::alloc::{AllocError, Global};
use std::marker::Model;
use std::sync::Arc;

/// Pages in order, which a file and its seals share whole: a clone is one handle more.
#[derive(Drop)]
pub(crate) struct Group {
    pages: Arc<Vec<Bytes>>,
}

impl Model for Group {
    ghost use Rattle.std.specs.Prelude.{List, ℕ};

    ghost Value = { List (List ℕ) };

    ghost view = { λ g. g.pages.value.items };
}

impl Group {
    pub(crate) fn new(alloc: Global, pages: &[Bytes]) -> Result<Group, NoMemory>
        ensures { IfOk result (λ group. group ≡ pages.now) }
    {
        let pages = Vec::from_clones(alloc, pages)?;
        let pages = Arc::new(alloc, pages)?;
        Ok(Group { pages })
    }

    pub(crate) fn pages(&self) -> &[Bytes]
        ensures { result.now ≡ self.now }
    {
        self.pages.as_slice()
    }
}

impl Clone for Group {
    ghost use Rattle.std.specs.Prelude.{◌≡◌};

    ghost is_clone = { λ group copy. copy ≡ group };

    fn clone(&self) -> Result<Group, AllocError> {
        let pages = self.pages.clone()?;
        Ok(Group { pages })
    }
}
