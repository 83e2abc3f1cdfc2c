//! The rows that a session inserts.
ghost use Rattle.std.specs.Prelude.{◌≡◌, ◌+◌, ◌<◌, ◌≤◌, ◌++◌, OnOk};
ghost use Rattle.std.specs.String.{string_bytes};
ghost use Rattle.hq_load.specs.Scripts.{tuple_text, row_text, rows_text};

use hq_value::NoMemory;
use rand_core::utils::NextWord;
use rand_pcg::Pcg32;
use std::marker::Model;

// Adds a row of three numbers.
fn write_tuple(id: u32, grp: u32, val: u32, script: &mut String) -> Result<(), NoMemory>
    ensures { OnOk result (string_bytes script.new ≡ string_bytes script.old ++ tuple_text id grp val) }
{
    write!(script, "({id},{grp},{val})")?;
    Ok(())
}

/// The rows of a session, of which `next` were taken. Numbers of sessions are at most 18, and rows at most 20,000.
#[derive(Drop)]
pub(crate) struct Rows {
    seed: u64,
    session: u32,
    next: u32,
    draws: Pcg32,
}

impl Model for Rows {
    ghost use Rattle.std.specs.Prelude.{◌≡◌, ◌≤◌};
    ghost use Rattle.hq_load.specs.Scripts.{RowsLeft, draws_at};

    ghost Value = { RowsLeft };

    ghost view = { λ r. record { seed = r.seed; session = r.session; next = r.next } };

    ghost invariant = { λ r. (r.draws ≡ draws_at r.seed r.session r.next) × (r.session ≤ 18) × (r.next ≤ 20000) };
}

impl Rows {
    /// All of them.
    pub(crate) fn new(seed: u64, session: u32) -> Rows
        requires { session ≤ 18 }
        ensures { result ≡ record { seed = seed; session = session; next = 0 } }
    {
        Rows {
            seed,
            session,
            next: 0,
            draws: Pcg32::new(seed, u64::from(session)),
        }
    }

    // Adds the next row.
    fn write_one(&mut self, script: &mut String) -> Result<(), NoMemory>
        requires { self.old.next < 20000 }
        ensures text { OnOk result (string_bytes script.new ≡ string_bytes script.old ++ row_text self.old.seed self.old.session self.old.next) }
        ensures next { self.new ≡ record self.old { next = self.old.next + 1 } }
    {
        let id = self.session * 1_000_000 + self.next;
        let word = self.draws.next_word();
        self.next += 1;
        write_tuple(id, word % 10, word % 1000, script)
    }

    /// Adds the next `count` rows, with a comma between each two.
    pub(crate) fn write(&mut self, count: u32, script: &mut String) -> Result<(), NoMemory>
        requires some { 0 < count }
        requires within { self.old.next + count ≤ 20000 }
        ensures text { OnOk result (string_bytes script.new ≡ string_bytes script.old ++ rows_text self.old.seed self.old.session self.old.next count) }
        ensures next { OnOk result (self.new ≡ record self.old { next = self.old.next + count }) }
    {
        self.write_one(script)?;
        for _ in 1..count {
            script.push_str(",")?;
            self.write_one(script)?;
        }
        Ok(())
    }
}
