//! The rule of the lock, and what its steps tell.
use crate::view::View;
use atomic_table::{Join, Play, Split, TableRule};
use hq_value::Entry;
use std::marker::PhantomData;

/// A value that keeps a history. In contracts an entry of it carries what it left for good; `fixed` is a number
/// that no step of the value changes.
pub trait Logged {
    ghost use Rattle.std.specs.Prelude.{◌≡◌, ℕ, List};
    ghost use Rattle.hq_history.specs.declared.noted.Noted.{Noted};
    ghost use Rattle.hq_history.specs.History.{entries_of};

    ghost history: { Self → List Noted };

    ghost fixed: { Self → ℕ };

    /// The log: the history's entries.
    fn entries(&self) -> &[Entry]
        ensures { result.now ≡ entries_of (history self.now) };
}

pub(crate) struct Law<V> {
    of: PhantomData<V>,
}

impl<V: Logged> TableRule<Option<V>, View, u32> for Law<V> {
    ghost use Rattle.hq_histlock.specs.Kept.{Kept};
    ghost use Rattle.hq_histlock.specs.Views.{raw_view};

    ghost holds = { λ first. Kept V.history V.fixed };

    ghost first = { raw_view };
}

pub(crate) struct Take;

impl<V: Logged> Play<Option<V>, View> for Take {
    ghost use Rattle.hq_histlock.specs.Kept.{Takes};

    ghost then = { Takes V.history V.fixed };
}

pub(crate) struct Start;

impl<V: Logged> Play<Option<V>, View> for Start {
    ghost use Rattle.hq_histlock.specs.Kept.{Starts};

    ghost then = { Starts V.history V.fixed };
}

pub(crate) struct Win;

impl<V: Logged> Play<Option<V>, View> for Win {
    ghost use Rattle.hq_histlock.specs.Kept.{Wins};

    ghost then = { Wins V.history V.fixed };
}

pub(crate) struct Note;

impl<V: Logged> Play<Option<V>, View> for Note {
    ghost use Rattle.hq_histlock.specs.Kept.{Notes};

    ghost then = { Notes V.history V.fixed };
}

pub(crate) struct Free;

impl<V: Logged> Play<Option<V>, View> for Free {
    ghost use Rattle.hq_histlock.specs.Kept.{Frees};

    ghost then = { Frees V.history V.fixed };
}

pub(crate) struct LookAt;

impl<V: Logged> Play<Option<V>, View> for LookAt {
    ghost use Rattle.hq_histlock.specs.Kept.{Looks};

    ghost then = { Looks V.history V.fixed };
}

pub(crate) struct More;

impl Split<View> for More {
    ghost use Rattle.hq_histlock.specs.Views.{with_more, made_by};

    ghost left = { with_more };

    ghost right = { made_by };
}

pub(crate) struct Back;

impl Join<View> for Back {
    ghost use Rattle.hq_histlock.specs.Views.{with_ended, spent_view};

    ghost both = { with_ended };

    ghost spent = { spent_view };
}
