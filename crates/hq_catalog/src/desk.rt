//! A catalogue under a lock that sessions share.
use crate::ask::{Answer, Ask};
use crate::catalogue::Catalogue;
use crate::laws::others_change_nothing_that_may_be_asked;
use hq_histlock::Logged;
use hq_shared::Answering;
use hq_store::{SealCopy, StoredFile};
use hq_value::Entry;

/// What no step changes is how many nodes there are.
impl<F: StoredFile, Z: SealCopy> Logged for Catalogue<F, Z> {
    ghost use Rattle.std.specs.Prelude.{◌&&◌, length};
    ghost use Rattle.hq_catalog.specs.History.{history as told_history};

    ghost history = { told_history (F.tells && Z.tells) };

    ghost fixed = { λ c. length c.marks };

    fn entries(&self) -> &[Entry] {
        self.log()
    }
}

impl<F: StoredFile, Z: SealCopy> Answering for Catalogue<F, Z> {
    ghost use Rattle.std.specs.Prelude.{◌&&◌};
    ghost use Rattle.hq_catalog.specs.Asks.{MayAsk};
    ghost use Rattle.hq_catalog.specs.Causes.{Steps};

    type Ask = Ask<F, Z>;

    type Answer = Answer<F, Z>;

    ghost may_ask = { MayAsk F.tells Z.tells };

    ghost steps = { Steps (F.tells && Z.tells) };

    fn answer(&mut self, session: u32, statement: u32, ask: Ask<F, Z>) -> Answer<F, Z> {
        Catalogue::answer(self, session, statement, ask)
    }

    fn others_change_nothing(&self) {
        self.stands();
        others_change_nothing_that_may_be_asked::<F, Z>();
    }
}
