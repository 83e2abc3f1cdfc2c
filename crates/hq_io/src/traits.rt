//! What bytes are read from, and what they are written to.
ghost use Rattle.std.specs.Prelude.{◌≡◌, ◌<◌, ℕ, List, length, OnOk};
ghost use Rattle.std.specs.declared.option.Option.{Option};
ghost use Rattle.std.specs.Io.{ReadsAtMost};
ghost use Rattle.std.specs.Io.KnownBytes.{ReadConsumes};
ghost use Rattle.hq_value.specs.Causes.{HasCause};
ghost use Rattle.hq_io.specs.Told.{WritesPrefix};
ghost use Rattle.hq_io.specs.declared.label.Label.{Label};

use hq_value::Failed;

/// What gives bytes, in order, to its end.
pub trait Source: Drop + Send {
    /// The bytes that are left, where they are told.
    ghost left: { Self → Option (List ℕ) };

    /// What it was opened for, where that is told. No call changes it.
    ghost label: { Self → Option Label };

    /// How often it has failed.
    ghost faults: { Self → ℕ };

    /// A promise: no later call fails, and it stays so.
    ghost sound: { Self → Type 0 };

    /// Puts the next bytes at the front of `into`, which isn't empty, and says how many; 0 is the end.
    /// `Failed` comes only where the count of faults rose, and then no byte was taken.
    fn read(&mut self, into: &mut [u8]) -> Result<usize, Failed>
        requires { 0 < length into.old }
        ensures bound { ReadsAtMost result into.new }
        ensures bytes { ReadConsumes (left self.old) (left self.new) result into.new }
        ensures label { label self.new ≡ label self.old }
        ensures cause { HasCause (faults self.old) (faults self.new) result }
        ensures steady { OnOk result (faults self.new ≡ faults self.old) }
        ensures sound { sound self.old → (faults self.new ≡ faults self.old) × sound self.new };

    /// How often it has failed. The count never falls, and stays at its type's end.
    fn faults(&self) -> u64
        ensures { result ≡ faults self.now };
}

/// What takes bytes, in order.
pub trait Sink: Drop + Send {
    /// The bytes that it was given, where they are told.
    ghost given: { Self → Option (List ℕ) };

    /// What it was opened for, where that is told. No call changes it.
    ghost label: { Self → Option Label };

    /// How often it has failed.
    ghost faults: { Self → ℕ };

    /// A promise: no later call fails, and it stays so.
    ghost sound: { Self → Type 0 };

    /// Writes all the bytes. `Failed` comes only where the count of faults rose, and then a prefix of them was
    /// written.
    fn write_all(&mut self, bytes: &[u8]) -> Result<(), Failed>
        ensures bytes { WritesPrefix (given self.old) (given self.new) result bytes.now }
        ensures label { label self.new ≡ label self.old }
        ensures cause { HasCause (faults self.old) (faults self.new) result }
        ensures steady { OnOk result (faults self.new ≡ faults self.old) }
        ensures sound { sound self.old → (faults self.new ≡ faults self.old) × sound self.new };

    /// How often it has failed. The count never falls, and stays at its type's end.
    fn faults(&self) -> u64
        ensures { result ≡ faults self.now };
}
