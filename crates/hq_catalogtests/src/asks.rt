//! What a session asks.
ghost use Rattle.std.specs.Prelude.{◌≡◌, ◌≤◌, false, length, IfOk, IsTrue};
ghost use Rattle.hq_history.specs.Deposits.{tables_left};
ghost use Rattle.hq_catalog.specs.History.{history};
ghost use Rattle.hq_catalogtests.specs.Turns.{Has, HasTurned, IsMadeIn, IsReached, listed};

use crate::hand::Hand;
use crate::turns::{self, Said, Untold};
use hq_catalog::Ask;
use hq_snap::{Have, Scope};
use hq_value::{Column, Name, NoMemory, TableDef};
use std::alloc::Global;

/// What a session asks; the lanes are those that it has. A look names at most one table that the session has as it was.
#[derive(Drop)]
pub(crate) enum Turn {
    Look { scope: Scope, have: Option<Have> },
    Create(TableDef),
    Alter { table: Name, column: Column },
    Lend(u32),
    Adopt,
    Commit,
    Back,
    SweepAny,
    Mark { node: u8, up: bool },
}

fn list_of(alloc: Global, have: Option<Have>) -> Result<Vec<Have>, NoMemory>
    ensures { IfOk result (λ list. list.items ≡ listed have) }
{
    let mut list = Vec::new(alloc);
    if let Some(one) = have {
        list.push(one)?;
    }
    Ok(list)
}

// How long the history is.
fn length_of(catalogue: &Untold) -> u64
    ensures { result ≡ length (history false catalogue.now) }
{
    catalogue.stands();
    catalogue.log().len() as u64
}

// Whether the history has reached the place.
fn is_reached(catalogue: &Untold, have: Option<Have>) -> bool
    ensures { IsTrue result → IsReached (history false catalogue.now) have }
{
    match have {
        None => true,
        Some(one) => one.at <= length_of(catalogue),
    }
}

fn look(
    alloc: Global,
    catalogue: &mut Untold,
    session: u32,
    statement: u32,
    scope: Scope,
    have: Option<Have>,
    hand: Hand,
) -> (Hand, Said)
    requires has { Has session (history false catalogue.old) hand }
    ensures nodes { length catalogue.new.marks ≡ length catalogue.old.marks }
    ensures turned { HasTurned session (history false catalogue.old) (history false catalogue.new) result.0 }
    ensures made { IsMadeIn (history false catalogue.new) result.1 }
{
    if !is_reached(catalogue, have) {
        return (hand, Said::MayNotAsk);
    }
    match list_of(alloc, have) {
        Ok(have) => {
            let ask = Ask::Look { scope, have };
            turns::still(catalogue, session, statement, ask, hand)
        }
        Err(NoMemory) => (hand, Said::NoMemory),
    }
}

/// Asks, of a catalogue with so many tables, or more, and so many nodes.
pub(crate) fn ask(
    alloc: Global,
    catalogue: &mut Untold,
    tables: u32,
    nodes: u8,
    session: u32,
    statement: u32,
    turn: Turn,
    hand: Hand,
) -> (Hand, Said)
    requires tables { tables ≤ length (tables_left (history false catalogue.old)) }
    requires nodes { nodes ≡ length catalogue.old.marks }
    requires has { Has session (history false catalogue.old) hand }
    ensures nodes { length catalogue.new.marks ≡ length catalogue.old.marks }
    ensures turned { HasTurned session (history false catalogue.old) (history false catalogue.new) result.0 }
    ensures made { IsMadeIn (history false catalogue.new) result.1 }
{
    match turn {
        Turn::Look { scope, have } => {
            look(alloc, catalogue, session, statement, scope, have, hand)
        }
        Turn::Create(def) => turns::still(catalogue, session, statement, Ask::Create(def), hand),
        Turn::Alter { table, column } => {
            let ask = Ask::Alter { table, column };
            turns::still(catalogue, session, statement, ask, hand)
        }
        Turn::Mark { node, up } if node < nodes => {
            turns::still(catalogue, session, statement, Ask::Mark { node, up }, hand)
        }
        Turn::Lend(table) if table < tables => {
            turns::lend(catalogue, session, statement, table, hand)
        }
        Turn::Adopt => turns::adopt(catalogue, session, statement, hand),
        Turn::Commit => turns::commit(alloc, catalogue, session, statement, tables, hand),
        Turn::Back => turns::back(catalogue, session, statement, hand),
        Turn::SweepAny => turns::sweep_any(catalogue, session, statement, hand),
        Turn::Mark { .. } | Turn::Lend(_) => (hand, Said::MayNotAsk),
    }
}
