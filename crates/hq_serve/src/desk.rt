//! Who answers what a session asks.

/// Answers what sessions ask: the catalogue, or one who stands before it. Other sessions may be answered in between.
pub trait Desk {
    ghost use Rattle.std.specs.Prelude.{◌≡◌, ℕ, Bool, List, IsTrue};
    ghost use Rattle.hq_history.specs.declared.noted.Noted.{Noted};
    ghost use Rattle.hq_serve.specs.Served.{GrewBy};

    type Ask;

    type Answer;

    // It answers this session.
    ghost answers: { Self → ℕ → Type 0 };

    // How many nodes the catalogue has.
    ghost nodes: { Self → ℕ };

    // The history of the catalogue, as it was last shown.
    ghost shown: { Self → List Noted };

    // A promise: no other session is answered.
    ghost alone: { Bool };

    // The session may ask this where it was shown this history, of a catalogue of so many nodes.
    ghost may_ask: { ℕ → Self.Ask → List Noted → ℕ → Type 0 };

    // Of a catalogue of so many nodes: the session and its statement, what it was shown before, what it asked, what it is
    // shown now, and the answer.
    ghost answered: { ℕ → ℕ → ℕ → List Noted → Self.Ask → List Noted → Self.Answer → Type 0 };

    /// Answers by one step of the catalogue, with one entry of its log. What may be asked is said over what was shown.
    fn answer(&mut self, session: u32, statement: u32, ask: Self::Ask) -> Self::Answer
        requires session { answers self.old session }
        requires may { may_ask session ask (shown self.old) (nodes self.old) }
        ensures session { answers self.new session }
        ensures nodes { nodes self.new ≡ nodes self.old }
        ensures alone { IsTrue alone → GrewBy session (shown self.old) (shown self.new) }
        ensures answered { answered (nodes self.old) session statement (shown self.old) ask (shown self.new) result };
}
