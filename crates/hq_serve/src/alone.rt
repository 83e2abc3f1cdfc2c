//! The catalogue itself answers a session that is alone.
use crate::desk::Desk;
use hq_catalog::{Answer, Ask, Catalogue};
use hq_store::{SealCopy, StoredFile};

impl<F: StoredFile, Z: SealCopy> Desk for Catalogue<F, Z> {
    ghost use Rattle.std.specs.Prelude.{◌&&◌, length, true};
    ghost use Rattle.hq_catalog.specs.Asks.{MayAsk};
    ghost use Rattle.hq_catalog.specs.History.{history};
    ghost use Rattle.hq_serve.specs.Asking.{IsAnswered};

    type Ask = Ask<F, Z>;

    type Answer = Answer<F, Z>;

    ghost answers = { λ c k. Unit {0} };

    ghost nodes = { λ c. length c.marks };

    ghost shown = { history (F.tells && Z.tells) };

    ghost alone = { true };

    ghost may_ask = { MayAsk F.tells Z.tells };

    ghost answered = { IsAnswered (F.tells && Z.tells) };

    fn answer(&mut self, session: u32, statement: u32, ask: Ask<F, Z>) -> Answer<F, Z> {
        self.stands();
        Catalogue::answer(self, session, statement, ask)
    }
}
