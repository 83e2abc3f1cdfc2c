//! Where the lanes of a table are.
ghost use Rattle.std.specs.Prelude.{◌≡◌};

/// Where a lane of a table is. One that was never lent is `Unborn`. At home it is `Clean`, or `Dirty` where its
/// files have tails past the committed bytes. Else a session has it, to write or to cut off its tails: both are
/// called out.
#[derive(Clone, Copy, Debug, PartialEq, Eq)]
pub enum Place {
    Unborn,
    Clean,
    Dirty,
    Out(u32),
    Sweeping(u32),
}

impl Place {
    ghost use Rattle.hq_log.specs.Places.{is_unborn, is_clean, is_dirty, is_out};

    pub fn is_unborn(self) -> bool
        ensures { result ≡ is_unborn self }
    {
        matches!(self, Place::Unborn)
    }

    pub fn is_clean(self) -> bool
        ensures { result ≡ is_clean self }
    {
        matches!(self, Place::Clean)
    }

    pub fn is_dirty(self) -> bool
        ensures { result ≡ is_dirty self }
    {
        matches!(self, Place::Dirty)
    }

    /// Whether a session has the lane.
    pub fn is_out(self) -> bool
        ensures { result ≡ is_out self }
    {
        matches!(self, Place::Out(_) | Place::Sweeping(_))
    }
}

/// Which lane of a table is lent next.
#[derive(Clone, Copy, Debug, PartialEq, Eq)]
pub enum Next {
    Clean(u8),
    Dirty(u8),
    Unborn(u8),
    AllOut,
}
