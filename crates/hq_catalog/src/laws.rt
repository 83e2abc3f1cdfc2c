//! Laws of catalogues.
ghost use Rattle.std.specs.Prelude.{◌≡◌, ℕ, Bool, List, []};
ghost use Rattle.hq_log.specs.Legal.{IsLegal};
ghost use Rattle.hq_history.specs.declared.noted.Noted.{Noted as OneNoted};
ghost use Rattle.hq_history.specs.History.{GrewByOthers, entries_of};
ghost use Rattle.hq_catalog.specs.declared.ask.Ask.{Ask as AnAsk};
ghost use Rattle.hq_catalog.specs.declared.ask.Answer.{Answer as AnAnswer};
ghost use Rattle.hq_catalog.specs.Asks.{MayAsk};
ghost use Rattle.hq_catalog.specs.CatStep.{CatStep};
ghost use Rattle.hq_catalog.specs.Causes.{AreAllOut, AreEnough, ComesExactly, HaveNoTail, IsOneMore, IsThere, MayLackMemory};
ghost use Rattle.hq_catalog.specs.Stands.{AreOwnSteps};

use crate::ask::Answer;
use hq_store::{SealCopy, StoredFile};

/// What a session may ask it may still ask once others have added to the history that it has seen.
pub fn others_change_nothing_that_may_be_asked<F: StoredFile, Z: SealCopy>()
    ensures { (told : Bool) (k nodes : ℕ) (seen history : List OneNoted) (ask : AnAsk F Z) →
        GrewByOthers k seen history → IsLegal nodes (entries_of history) → AreOwnSteps told [] history →
        MayAsk F.tells Z.tells k ask seen nodes → MayAsk F.tells Z.tells k ask history nodes }
{}

/// What a step leaves of the history, and why answers come that do not do what was asked. So an answer that is known by
/// its step alone, as at a shared desk, is known by its causes too.
pub fn a_step_has_its_causes<F: StoredFile, Z: SealCopy>()
    ensures one { (told : Bool) (nodes k m : ℕ) (old new : List OneNoted) (ask : AnAsk F Z) (given : AnAnswer F Z) →
        CatStep told nodes k m old ask new given → IsOneMore k m old new given }
    ensures no_memory { (told : Bool) (nodes k m : ℕ) (old new : List OneNoted) (ask : AnAsk F Z) (given : AnAnswer F Z) →
        CatStep told nodes k m old ask new given → given ≡ Answer.NoMemory → MayLackMemory ask }
    ensures all_out { (told : Bool) (nodes k m : ℕ) (old new : List OneNoted) (ask : AnAsk F Z) (given : AnAnswer F Z) →
        CatStep told nodes k m old ask new given → ComesExactly given (Answer.AllOut 64) (AreAllOut old ask) }
    ensures nothing { (told : Bool) (nodes k m : ℕ) (old new : List OneNoted) (ask : AnAsk F Z) (given : AnAnswer F Z) →
        CatStep told nodes k m old ask new given → ComesExactly given Answer.Nothing (HaveNoTail old ask) }
    ensures exists { (told : Bool) (nodes k m : ℕ) (old new : List OneNoted) (ask : AnAsk F Z) (given : AnAnswer F Z) →
        CatStep told nodes k m old ask new given → ComesExactly given Answer.Exists (IsThere old ask) }
    ensures too_many { (told : Bool) (nodes k m : ℕ) (old new : List OneNoted) (ask : AnAsk F Z) (given : AnAnswer F Z) →
        CatStep told nodes k m old ask new given → ComesExactly given (Answer.TooManyTables 64) (AreEnough old ask) }
{}
