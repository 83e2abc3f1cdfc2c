//! The catalogue.
ghost use Rattle.std.specs.Prelude.{◌≡◌, ◌<◌, ◌≤◌, ◌&&◌, [], true, length, replicate, IfOk};
ghost use Rattle.hq_catalog.specs.Asks.{MayAsk};
ghost use Rattle.hq_catalog.specs.History.{history};
ghost use Rattle.hq_catalog.specs.CatStep.{CatStep};
ghost use Rattle.hq_catalog.specs.Causes.{AreAllOut, AreEnough, ComesExactly, HaveNoTail, IsOneMore, IsThere, MayLackMemory};
ghost use Rattle.hq_catalog.specs.Stands.{Stands};

use crate::ask::{Answer, Ask};
use crate::books::Books;
use hq_store::{SealCopy, StoredFile};
use hq_value::{Entry, Marks, NoMemory};
use indexmap::IndexSet;
use std::alloc::Global;
use std::marker::Model;

/// The one state of the engine: the tables, the lanes that are at home, the seals of what is committed, the marks of the
/// nodes, and the log of all that was answered.
#[derive(Drop)]
pub struct Catalogue<F: StoredFile, Z: SealCopy> {
    pub(crate) books: Books<F, Z>,
}

impl<F: StoredFile, Z: SealCopy> Model for Catalogue<F, Z> {
    ghost use Rattle.std.specs.Prelude.{◌&&◌};
    ghost use Rattle.hq_catalog.specs.State.{CatState};
    ghost use Rattle.hq_catalog.specs.Kept.{cat_of, IsBooks};

    ghost Value = { CatState };

    ghost view = { λ c. cat_of c.books };

    ghost invariant = { λ c. IsBooks (F.tells && Z.tells) c.books };
}

impl<F: StoredFile, Z: SealCopy> Catalogue<F, Z> {
    /// No table, an empty log, and so many nodes, all up.
    pub fn new(alloc: Global, nodes: u8) -> Result<Catalogue<F, Z>, NoMemory>
        requires some { 0 < nodes }
        requires few { nodes ≤ 16 }
        ensures { IfOk result (λ c. c ≡ record { marks = replicate nodes true; tables = []; log = []; changes = []; grown = [] }) }
    {
        let marks = Marks::all_up(nodes);
        let names = IndexSet::new(alloc);
        let tables = Vec::new(alloc);
        let log = Vec::new(alloc);
        let changes = Vec::new(alloc);
        let grown = Vec::new(alloc);
        Ok(Catalogue {
            books: Books {
                marks,
                names,
                tables,
                log,
                changes,
                grown,
            },
        })
    }

    /// The log of all that was answered.
    pub fn log(&self) -> &[Entry]
        ensures { result.now ≡ self.now.log }
    {
        &self.books.log
    }

    /// What holds of every catalogue.
    pub fn stands(&self)
        ensures { Stands (F.tells && Z.tells) self.now }
    {
        let _ = &self.books;
    }

    /// Answers what session `session` asks by its statement `statement`: one step, and one entry of the log.
    ///
    /// `NoMemory` changes nothing, and comes only to the asks that may want memory. `AllOut` comes exactly where all
    /// lanes of the table are out, `Nothing` exactly where no lane has a tail, `Exists` exactly where a table has the
    /// name, and `TooManyTables` exactly where none has it and there are 64, each unless memory is wanting.
    pub fn answer(&mut self, session: u32, statement: u32, ask: Ask<F, Z>) -> Answer<F, Z>
        requires { MayAsk F.tells Z.tells session ask (history (F.tells && Z.tells) self.old) (length self.old.marks) }
        ensures nodes { length self.new.marks ≡ length self.old.marks }
        ensures step { CatStep (F.tells && Z.tells) (length self.old.marks) session statement (history (F.tells && Z.tells) self.old) ask (history (F.tells && Z.tells) self.new) result }
        ensures one { IsOneMore session statement (history (F.tells && Z.tells) self.old) (history (F.tells && Z.tells) self.new) result }
        ensures no_memory { result ≡ Answer.NoMemory → MayLackMemory ask }
        ensures all_out { ComesExactly result (Answer.AllOut 64) (AreAllOut (history (F.tells && Z.tells) self.old) ask) }
        ensures nothing { ComesExactly result Answer.Nothing (HaveNoTail (history (F.tells && Z.tells) self.old) ask) }
        ensures exists { ComesExactly result Answer.Exists (IsThere (history (F.tells && Z.tells) self.old) ask) }
        ensures too_many { ComesExactly result (Answer.TooManyTables 64) (AreEnough (history (F.tells && Z.tells) self.old) ask) }
    {
        self.step(session, statement, ask)
    }

    // The same, without the causes.
    fn step(&mut self, session: u32, statement: u32, ask: Ask<F, Z>) -> Answer<F, Z>
        requires { MayAsk F.tells Z.tells session ask (history (F.tells && Z.tells) self.old) (length self.old.marks) }
        ensures nodes { length self.new.marks ≡ length self.old.marks }
        ensures step { CatStep (F.tells && Z.tells) (length self.old.marks) session statement (history (F.tells && Z.tells) self.old) ask (history (F.tells && Z.tells) self.new) result }
    {
        self.books.answer(session, statement, ask)
    }
}
