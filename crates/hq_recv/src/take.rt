//! What takes the bytes of streams.
ghost use Rattle.std.specs.Prelude.{◌≡◌, ℕ, List, OnOk, OnErr};
ghost use Rattle.hq_recv.specs.Taking.{with_more};

use hq_value::NoMemory;

/// What takes the bytes of streams as they come, by sender.
pub trait Take {
    /// The bytes that it took of each sender.
    ghost taken: { Self → ℕ → List ℕ };

    /// Takes the next bytes of a sender's stream. Want of memory leaves all as it was.
    fn take(&mut self, from: u8, bytes: &[u8]) -> Result<(), NoMemory>
        ensures more { OnOk result ((n : ℕ) → taken self.new n ≡ with_more (taken self.old) from bytes.now n) }
        ensures refused { OnErr result ((n : ℕ) → taken self.new n ≡ taken self.old n) };
}
