//! Columns that change places.
ghost use Rattle.std.specs.Prelude.{◌+◌, ◌≤◌};

/// Columns that go behind those that follow them: behind the first `before` ones, the next `first` go behind the next
/// `second`.
#[derive(Clone, Copy, Debug, PartialEq, Eq)]
pub struct Turn {
    pub before: u16,
    pub first: u16,
    pub second: u16,
    ghost few: { before + first + second ≤ 512 },
}
