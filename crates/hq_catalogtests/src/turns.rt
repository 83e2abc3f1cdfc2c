//! What the catalogue answers a session, which asks just what it may.
ghost use Rattle.std.specs.Prelude.{◌≡◌, ◌<◌, ◌≤◌, false, length};
ghost use Rattle.hq_history.specs.Deposits.{tables_left};
ghost use Rattle.hq_catalog.specs.Asks.{MayAsk};
ghost use Rattle.hq_catalog.specs.CatStep.{CatStep};
ghost use Rattle.hq_catalog.specs.History.{history};
ghost use Rattle.hq_catalogtests.specs.Turns.{Has, HasMade, HasTurned, IsMadeIn, IsStill, OthersKeep, SaysMade, held_of};

use crate::hand::{Hand, Held, UntoldLane, are_below, has_table};
use hq_catalog::{Answer, Ask, Catalogue};
use hq_snap::TableDelta;
use hq_untold::{UntoldFile, UntoldSeal};
use hq_value::Marks;
use std::alloc::Global;

pub(crate) type Untold = Catalogue<UntoldFile, UntoldSeal>;

pub(crate) type UntoldAsk = Ask<UntoldFile, UntoldSeal>;

pub(crate) type UntoldAnswer = Answer<UntoldFile, UntoldSeal>;

/// A lane that was handed out.
#[derive(Clone, Copy, Debug)]
pub(crate) struct Handed {
    pub(crate) table: u32,
    pub(crate) lane: u8,
}

/// What a session is told: an answer without the lane that it hands out, or that it may not ask that.
#[derive(Drop)]
pub(crate) enum Said {
    Seen {
        at: u64,
        marks: Marks,
        tables: Vec<TableDelta<UntoldSeal>>,
    },
    Made(u32),
    Exists,
    TooManyTables(u8),
    Altered(u32),
    NoTable,
    TooManyColumns(u8),
    ColumnThere,
    Clean(Handed),
    Sweep(Handed),
    Fresh(Handed),
    AllOut(u8),
    Adopted(Handed),
    Done,
    Nothing,
    NoMemory,
    MayNotAsk,
}

fn given_out(lane: &UntoldLane) -> Handed {
    Handed {
        table: lane.table(),
        lane: lane.number(),
    }
}

// A lane to write that is handed out.
fn to_write(lane: UntoldLane) -> (Held, Handed)
    ensures { result.0 ≡ Held.Writes lane }
{
    let handed = given_out(&lane);
    (Held::Writes(lane), handed)
}

// The lane that the answer hands out, and the rest of it.
fn take(answer: UntoldAnswer) -> (Held, Said)
    ensures held { result.0 ≡ held_of answer }
    ensures made { SaysMade answer result.1 }
{
    match answer {
        Answer::Clean(lane) => {
            let (held, handed) = to_write(lane);
            (held, Said::Clean(handed))
        }
        Answer::Fresh(lane) => {
            let (held, handed) = to_write(lane);
            (held, Said::Fresh(handed))
        }
        Answer::Adopted(lane) => {
            let (held, handed) = to_write(lane);
            (held, Said::Adopted(handed))
        }
        Answer::Sweep(lane) => {
            let handed = given_out(&lane);
            (Held::Sweeps(lane), Said::Sweep(handed))
        }
        Answer::Seen { at, marks, tables } => (Held::Nothing, Said::Seen { at, marks, tables }),
        Answer::Made { table } => (Held::Nothing, Said::Made(table)),
        Answer::Exists => (Held::Nothing, Said::Exists),
        Answer::TooManyTables { made } => (Held::Nothing, Said::TooManyTables(made)),
        Answer::Altered { table } => (Held::Nothing, Said::Altered(table)),
        Answer::NoTable => (Held::Nothing, Said::NoTable),
        Answer::TooManyColumns { columns } => (Held::Nothing, Said::TooManyColumns(columns)),
        Answer::ColumnThere => (Held::Nothing, Said::ColumnThere),
        Answer::AllOut { out } => (Held::Nothing, Said::AllOut(out)),
        Answer::Done => (Held::Nothing, Said::Done),
        Answer::Nothing => (Held::Nothing, Said::Nothing),
        Answer::NoMemory => (Held::Nothing, Said::NoMemory),
    }
}

// One answer. What the other sessions have stays.
fn answered(catalogue: &mut Untold, session: u32, statement: u32, ask: UntoldAsk) -> UntoldAnswer
    requires may { MayAsk false false session ask (history false catalogue.old) (length catalogue.old.marks) }
    ensures nodes { length catalogue.new.marks ≡ length catalogue.old.marks }
    ensures step { CatStep false (length catalogue.old.marks) session statement (history false catalogue.old) ask (history false catalogue.new) result }
    ensures keep { OthersKeep session (history false catalogue.old) (history false catalogue.new) }
    ensures made { HasMade (history false catalogue.new) result }
{
    let answer = catalogue.answer(session, statement, ask);
    catalogue.stands();
    answer
}

/// Asks for what takes no lane and gives none: it is answered whatever the session has.
pub(crate) fn still(
    catalogue: &mut Untold,
    session: u32,
    statement: u32,
    ask: UntoldAsk,
    hand: Hand,
) -> (Hand, Said)
    requires may { MayAsk false false session ask (history false catalogue.old) (length catalogue.old.marks) }
    requires still { IsStill ask }
    requires has { Has session (history false catalogue.old) hand }
    ensures nodes { length catalogue.new.marks ≡ length catalogue.old.marks }
    ensures turned { HasTurned session (history false catalogue.old) (history false catalogue.new) result.0 }
    ensures made { IsMadeIn (history false catalogue.new) result.1 }
{
    let answer = answered(catalogue, session, statement, ask);
    let (none, said) = take(answer);
    none.give_up();
    (hand, said)
}

/// Asks for a lane of a table that is made, if the session has none of it and works on none.
pub(crate) fn lend(
    catalogue: &mut Untold,
    session: u32,
    statement: u32,
    table: u32,
    hand: Hand,
) -> (Hand, Said)
    requires made { table < length (tables_left (history false catalogue.old)) }
    requires has { Has session (history false catalogue.old) hand }
    ensures nodes { length catalogue.new.marks ≡ length catalogue.old.marks }
    ensures turned { HasTurned session (history false catalogue.old) (history false catalogue.new) result.0 }
    ensures made { IsMadeIn (history false catalogue.new) result.1 }
{
    let Hand { sealed, held } = hand;
    match held {
        Held::Nothing => {
            if has_table(&sealed, table) {
                return (
                    Hand {
                        sealed,
                        held: Held::Nothing,
                    },
                    Said::MayNotAsk,
                );
            }
            let (held, said) = take(answered(catalogue, session, statement, Ask::Lend(table)));
            (Hand { sealed, held }, said)
        }
        other => (
            Hand {
                sealed,
                held: other,
            },
            Said::MayNotAsk,
        ),
    }
}

/// Asks for any lane with a tail, if the session works on none.
pub(crate) fn sweep_any(
    catalogue: &mut Untold,
    session: u32,
    statement: u32,
    hand: Hand,
) -> (Hand, Said)
    requires has { Has session (history false catalogue.old) hand }
    ensures nodes { length catalogue.new.marks ≡ length catalogue.old.marks }
    ensures turned { HasTurned session (history false catalogue.old) (history false catalogue.new) result.0 }
    ensures made { IsMadeIn (history false catalogue.new) result.1 }
{
    let Hand { sealed, held } = hand;
    match held {
        Held::Nothing => {
            let (held, said) = take(answered(catalogue, session, statement, Ask::SweepAny));
            (Hand { sealed, held }, said)
        }
        other => (
            Hand {
                sealed,
                held: other,
            },
            Said::MayNotAsk,
        ),
    }
}

/// Asks to keep the lane that the session has swept, if it is clean and the session has sealed none of its table.
pub(crate) fn adopt(
    catalogue: &mut Untold,
    session: u32,
    statement: u32,
    hand: Hand,
) -> (Hand, Said)
    requires has { Has session (history false catalogue.old) hand }
    ensures nodes { length catalogue.new.marks ≡ length catalogue.old.marks }
    ensures turned { HasTurned session (history false catalogue.old) (history false catalogue.new) result.0 }
    ensures made { IsMadeIn (history false catalogue.new) result.1 }
{
    let Hand { sealed, held } = hand;
    match held {
        Held::Sweeps(lane) => {
            if !lane.is_clean() || has_table(&sealed, lane.table()) {
                return (
                    Hand {
                        sealed,
                        held: Held::Sweeps(lane),
                    },
                    Said::MayNotAsk,
                );
            }
            let (held, said) = take(answered(catalogue, session, statement, Ask::Adopt(lane)));
            (Hand { sealed, held }, said)
        }
        other => (
            Hand {
                sealed,
                held: other,
            },
            Said::MayNotAsk,
        ),
    }
}

/// Gives back the lane that the session works on.
pub(crate) fn back(catalogue: &mut Untold, session: u32, statement: u32, hand: Hand) -> (Hand, Said)
    requires has { Has session (history false catalogue.old) hand }
    ensures nodes { length catalogue.new.marks ≡ length catalogue.old.marks }
    ensures turned { HasTurned session (history false catalogue.old) (history false catalogue.new) result.0 }
    ensures made { IsMadeIn (history false catalogue.new) result.1 }
{
    let Hand { sealed, held } = hand;
    match held {
        Held::Nothing => (
            Hand {
                sealed,
                held: Held::Nothing,
            },
            Said::MayNotAsk,
        ),
        Held::Writes(lane) => {
            let (held, said) = take(answered(catalogue, session, statement, Ask::Back(lane)));
            (Hand { sealed, held }, said)
        }
        Held::Torn(lane) => {
            let (held, said) = take(answered(catalogue, session, statement, Ask::Back(lane)));
            (Hand { sealed, held }, said)
        }
        Held::Sweeps(lane) => {
            let (held, said) = take(answered(catalogue, session, statement, Ask::Back(lane)));
            (Hand { sealed, held }, said)
        }
    }
}

/// Asks to commit the lanes that the session has sealed, if there are some and it works on none. `tables` are made.
pub(crate) fn commit(
    alloc: Global,
    catalogue: &mut Untold,
    session: u32,
    statement: u32,
    tables: u32,
    hand: Hand,
) -> (Hand, Said)
    requires made { tables ≤ length (tables_left (history false catalogue.old)) }
    requires has { Has session (history false catalogue.old) hand }
    ensures nodes { length catalogue.new.marks ≡ length catalogue.old.marks }
    ensures turned { HasTurned session (history false catalogue.old) (history false catalogue.new) result.0 }
    ensures made { IsMadeIn (history false catalogue.new) result.1 }
{
    let Hand { sealed, held } = hand;
    match held {
        Held::Nothing => {
            if sealed.is_empty() || !are_below(&sealed, tables) {
                return (
                    Hand {
                        sealed,
                        held: Held::Nothing,
                    },
                    Said::MayNotAsk,
                );
            }
            let (held, said) = take(answered(catalogue, session, statement, Ask::Commit(sealed)));
            let sealed = Vec::new(alloc);
            (Hand { sealed, held }, said)
        }
        other => (
            Hand {
                sealed,
                held: other,
            },
            Said::MayNotAsk,
        ),
    }
}
