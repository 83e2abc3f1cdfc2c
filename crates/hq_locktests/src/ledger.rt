//! The smallest value with a history: a log.
ghost use Rattle.std.specs.Prelude.{◌≡◌, ◌⊎◌, ◌++◌, ◌∷◌, [], map, vec_len};
ghost use Rattle.hq_value.specs.declared.entry.EntryKind.TheVariants as entry;

use hq_histlock::Logged;
use hq_shared::Answering;
use hq_value::{Entry, EntryKind};
use std::alloc::Global;
use std::marker::Model;

/// A log, in which no entry leaves anything.
#[derive(Drop)]
pub struct Ledger {
    log: Vec<Entry>,
}

impl Model for Ledger {
    ghost use Rattle.std.specs.Prelude.{List};
    ghost use Rattle.hq_value.specs.declared.entry.Entry.{Entry as LogEntry};

    ghost Value = { List LogEntry };

    ghost view = { λ ledger. ledger.log.items };
}

impl Logged for Ledger {
    ghost use Rattle.std.specs.Prelude.{map};
    ghost use Rattle.hq_locktests.specs.Ledgers.{bare};

    ghost history = { map bare };

    ghost fixed = { λ _. 0 };

    fn entries(&self) -> &[Entry] {
        self.log.as_slice()
    }
}

impl Answering for Ledger {
    ghost use Rattle.hq_locktests.specs.Ledgers.{Notes};

    type Ask = ();

    type Answer = usize;

    ghost may_ask = { λ _ _ _ _. Unit {0} };

    ghost steps = { Notes };

    /// Notes the statement. The answer is how long the log is then.
    fn answer(&mut self, session: u32, statement: u32, _ask: ()) -> usize {
        self.note(session, statement);
        self.log.len()
    }

    fn others_change_nothing(&self) {}
}

impl Ledger {
    /// An empty log.
    pub fn new(alloc: Global) -> Ledger
        ensures { result ≡ [] }
    {
        Ledger {
            log: Vec::new(alloc),
        }
    }

    /// Takes the room for so many entries more, where there is memory.
    pub fn reserve(&mut self, count: usize)
        ensures { self.new ≡ self.old }
    {
        let _ = self.log.reserve(count);
    }

    /// Adds an entry, or none without memory.
    pub fn note(&mut self, session: u32, statement: u32)
        ensures { (self.new ≡ self.old) ⊎ (self.new ≡ self.old ++ record { session = session; statement = statement; kind = entry.Look } ∷ []) }
    {
        let entry = Entry {
            session,
            statement,
            kind: EntryKind::Look,
        };
        let _ = self.log.push(entry);
    }
}
