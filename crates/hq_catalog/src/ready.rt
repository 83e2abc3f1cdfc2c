//! An ask between its two parts.
ghost use Rattle.std.specs.Prelude.{◌≡◌, ◌&&◌, length, IfOk, IfErr, IsErr};
ghost use Rattle.hq_value.specs.declared.entry.EntryKind.{EntryKind as OneKind};
ghost use Rattle.hq_catalog.specs.declared.ask.Ask.{Ask as OneAsk};
ghost use Rattle.hq_catalog.specs.Asks.{MayAsk};
ghost use Rattle.hq_catalog.specs.CatStep.{CatStep, Notes};
ghost use Rattle.hq_catalog.specs.Causes.{MayLackMemory};
ghost use Rattle.hq_catalog.specs.History.{history};
ghost use Rattle.hq_catalog.specs.Plans.{IsKind, Leads, left_by};

use crate::ask::{Answer, Ask};
use crate::books::Books;
use crate::catalogue::Catalogue;
use crate::plan::Plan;
use hq_store::{SealCopy, StoredFile};
use hq_value::{Entry, NoMemory};
use std::marker::Model;

/// A catalogue that has all the memory that an ask wants. Nothing that is seen has changed, and the one step that is
/// left can't fail: who keeps the entries of a catalogue elsewhere too keeps this one first.
pub struct Ready<F: StoredFile, Z: SealCopy> {
    books: Books<F, Z>,
    session: u32,
    statement: u32,
    plan: Plan<F, Z>,
}

impl<F: StoredFile, Z: SealCopy> Model for Ready<F, Z> {
    ghost use Rattle.std.specs.Prelude.{◌&&◌};
    ghost use Rattle.hq_catalog.specs.Kept.{cat_of, IsBooks};
    ghost use Rattle.hq_catalog.specs.Plans.{ReadyState, Fits};

    ghost Value = { ReadyState F Z };

    ghost view = { λ r. record { cat = cat_of r.books; session = r.session; statement = r.statement; plan = r.plan } };

    ghost invariant = { λ r. IsBooks (F.tells && Z.tells) r.books × Fits F.tells Z.tells r.session r.books r.plan };
}

impl<F: StoredFile, Z: SealCopy> Ready<F, Z> {
    /// The entry that the step will leave.
    pub fn entry(&self) -> Entry
        ensures by { (result.session ≡ self.now.session) × (result.statement ≡ self.now.statement) }
        ensures kind { IsKind (history (F.tells && Z.tells) self.now.cat) self.now.plan result.kind }
    {
        let kind = self.books.kind_left(&self.plan);
        Entry {
            session: self.session,
            statement: self.statement,
            kind,
        }
    }

    /// The step.
    pub fn settle(self) -> (Catalogue<F, Z>, Answer<F, Z>)
        ensures nodes { length result.0.marks ≡ length self.cat.marks }
        ensures one { (kind : OneKind) × IsKind (history (F.tells && Z.tells) self.cat) self.plan kind
            × Notes self.session self.statement kind (left_by (F.tells && Z.tells) self.plan) (history (F.tells && Z.tells) self.cat) (history (F.tells && Z.tells) result.0) }
        ensures step { (ask : OneAsk F Z) → Leads (F.tells && Z.tells) (history (F.tells && Z.tells) self.cat) self.plan ask →
            CatStep (F.tells && Z.tells) (length self.cat.marks) self.session self.statement (history (F.tells && Z.tells) self.cat) ask (history (F.tells && Z.tells) result.0) result.1 }
    {
        let Ready {
            mut books,
            session,
            statement,
            plan,
        } = self;
        let answer = books.settle(session, statement, plan);
        (Catalogue { books }, answer)
    }

    /// Gives the ask up, with the lanes in it. The catalogue is as it was.
    pub fn give_up(self) -> Catalogue<F, Z>
        ensures { result ≡ self.cat }
    {
        let Ready {
            books,
            session: _,
            statement: _,
            plan,
        } = self;
        plan.give_up();
        Catalogue { books }
    }
}

impl<F: StoredFile, Z: SealCopy> Catalogue<F, Z> {
    /// The first part of an answer: all that may want memory. Without it the catalogue comes back as it was.
    pub fn prepare(
        self,
        session: u32,
        statement: u32,
        ask: Ask<F, Z>,
    ) -> Result<Ready<F, Z>, Catalogue<F, Z>>
        requires { MayAsk F.tells Z.tells session ask (history (F.tells && Z.tells) self) (length self.marks) }
        ensures ready { IfOk result (λ ready. (ready.cat ≡ self) × (ready.session ≡ session) × (ready.statement ≡ statement)) }
        ensures leads { IfOk result (λ ready. Leads (F.tells && Z.tells) (history (F.tells && Z.tells) self) ready.plan ask) }
        ensures same { IfErr result (λ catalogue. catalogue ≡ self) }
        ensures memory { IsErr result → MayLackMemory ask }
    {
        let Catalogue { mut books } = self;
        match books.prepare(ask) {
            Ok(plan) => Ok(Ready {
                books,
                session,
                statement,
                plan,
            }),
            Err(NoMemory) => Err(Catalogue { books }),
        }
    }
}
