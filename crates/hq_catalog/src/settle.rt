//! The second part of an ask: one step that can't fail.
ghost use Rattle.std.specs.Prelude.{◌≡◌, ◌&&◌, length};
ghost use Rattle.hq_value.specs.declared.entry.EntryKind.{EntryKind as OneKind};
ghost use Rattle.hq_catalog.specs.declared.ask.Ask.{Ask as OneAsk};
ghost use Rattle.hq_catalog.specs.Asks.{MayAsk};
ghost use Rattle.hq_catalog.specs.CatStep.{CatStep, Notes};
ghost use Rattle.hq_catalog.specs.Kept.{IsBooks, told_by};
ghost use Rattle.hq_catalog.specs.Plans.{Fits, IsKind, Leads, left_by};

use crate::ask::{Answer, Ask};
use crate::books::Books;
use crate::plan::Plan;
use hq_store::{SealCopy, StoredFile};
use hq_value::{EntryKind, NoMemory};

impl<F: StoredFile, Z: SealCopy> Books<F, Z> {
    /// Answers an ask: first all that may want memory, and then one step that can't fail.
    pub(crate) fn answer(&mut self, session: u32, statement: u32, ask: Ask<F, Z>) -> Answer<F, Z>
        requires books { IsBooks (F.tells && Z.tells) self.old }
        requires may { MayAsk F.tells Z.tells session ask (told_by (F.tells && Z.tells) self.old) (length self.old.marks) }
        ensures kept { IsBooks (F.tells && Z.tells) self.new }
        ensures nodes { length self.new.marks ≡ length self.old.marks }
        ensures step { CatStep (F.tells && Z.tells) (length self.old.marks) session statement (told_by (F.tells && Z.tells) self.old) ask (told_by (F.tells && Z.tells) self.new) result }
    {
        match self.prepare(ask) {
            Ok(plan) => self.settle(session, statement, plan),
            Err(NoMemory) => Answer::NoMemory,
        }
    }

    /// One step, for which all is there. It leaves one entry, and answers whatever the plan is for.
    pub(crate) fn settle(&mut self, session: u32, statement: u32, plan: Plan<F, Z>) -> Answer<F, Z>
        requires books { IsBooks (F.tells && Z.tells) self.old }
        requires fits { Fits F.tells Z.tells session self.old plan }
        ensures kept { IsBooks (F.tells && Z.tells) self.new }
        ensures nodes { length self.new.marks ≡ length self.old.marks }
        ensures one { (kind : OneKind) × IsKind (told_by (F.tells && Z.tells) self.old) plan kind × Notes session statement kind (left_by (F.tells && Z.tells) plan) (told_by (F.tells && Z.tells) self.old) (told_by (F.tells && Z.tells) self.new) }
        ensures step { (ask : OneAsk F Z) → Leads (F.tells && Z.tells) (told_by (F.tells && Z.tells) self.old) plan ask → CatStep (F.tells && Z.tells) (length self.old.marks) session statement (told_by (F.tells && Z.tells) self.old) ask (told_by (F.tells && Z.tells) self.new) result }
    {
        match plan {
            Plan::Look(tables) => self.look(session, statement, tables),
            Plan::Make { name, def, table } => self.make(session, statement, name, def, table),
            Plan::Exists => {
                self.note(session, statement, EntryKind::Create);
                Answer::Exists
            }
            Plan::TooManyTables => {
                self.note(session, statement, EntryKind::Create);
                Answer::TooManyTables { made: 64 }
            }
            Plan::Add { table, def, column } => {
                self.add_column(session, statement, table, def, column)
            }
            Plan::NoTable => {
                self.note(session, statement, EntryKind::Alter);
                Answer::NoTable
            }
            Plan::TooManyColumns(columns) => {
                self.note(session, statement, EntryKind::Alter);
                Answer::TooManyColumns { columns }
            }
            Plan::ColumnThere => {
                self.note(session, statement, EntryKind::Alter);
                Answer::ColumnThere
            }
            Plan::Lend(table) => self.lend(session, statement, table),
            Plan::Adopt(lane) => self.adopt(session, statement, lane),
            Plan::Commit(lanes) => self.commit(session, statement, lanes),
            Plan::Back(lane) => self.back(session, statement, lane),
            Plan::SweepAny => self.sweep_any(session, statement),
            Plan::Mark { node, up } => self.mark(session, statement, node, up),
        }
    }
}
