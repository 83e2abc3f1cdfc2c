//! What opens sources and sinks.
ghost use Rattle.std.specs.Prelude.{◌≡◌, ◌≤◌, [], ℕ, List, IfOk, IfSome, IsSome, OnOk, OnErr, IsErrOf};
ghost use Rattle.std.specs.declared.option.Option.{Option};
ghost use Rattle.hq_value.specs.Causes.{Rose};
ghost use Rattle.hq_io.specs.declared.label.Label.{Label};
ghost use Rattle.hq_doors.specs.Doors.{label_of, ListsLabel, HasLabel, Gives, TellsScript};

use crate::{Opening, Parts};
use hq_io::{Sink, Source};
use hq_value::DoorFault;

/// What opens the sources and sinks of sessions. For a file the sink is the file of the same name with `.out` behind
/// it; a script's source gives the script.
pub trait Doors {
    type Source: Source;

    type Sink: Sink;

    /// What the sessions' ends are shown on.
    type Console: Sink;

    /// The labels of what was opened, in order, where they are told.
    ghost opened: { Self → Option (List Label) };

    /// The bytes of a file by its name, where they are told.
    ghost file: { Self → List ℕ → Option (List ℕ) };

    /// How often they have failed.
    ghost faults: { Self → ℕ };

    /// Opens a session's source and sink, which have no faults yet and bear the label of the session and the opening.
    /// `Failed` comes only where the count of faults rose.
    fn open(
        &mut self,
        session: u32,
        what: Opening,
    ) -> Result<Parts<Self::Source, Self::Sink>, DoorFault>
        ensures source_label { IfOk result (λ parts. HasLabel (Self.Source.label parts.source) (label_of session what.entry)) }
        ensures sink_label { IfOk result (λ parts. HasLabel (Self.Sink.label parts.sink) (label_of session what.entry)) }

        // Doors that tell what they opened hand out what tells its label, and a script's bytes.
        ensures source_told { IsSome (opened self.old) → IfOk result (λ parts. IsSome (Self.Source.label parts.source)) }
        ensures sink_told { IsSome (opened self.old) → IfOk result (λ parts. IsSome (Self.Sink.label parts.sink)) }

        ensures script_told { IsSome (opened self.old) → IfOk result (λ parts. TellsScript what.entry (Self.Source.left parts.source)) }
        ensures gives { IfOk result (λ parts. Gives (file self.old) what.entry (Self.Source.left parts.source)) }
        ensures empty { IfOk result (λ parts. IfSome (Self.Sink.given parts.sink) (λ bytes. bytes ≡ [])) }
        ensures source_faults { IfOk result (λ parts. Self.Source.faults parts.source ≡ 0) }
        ensures sink_faults { IfOk result (λ parts. Self.Sink.faults parts.sink ≡ 0) }

        ensures opened { OnOk result (ListsLabel (opened self.old) (opened self.new) (label_of session what.entry)) }
        ensures unopened { OnErr result (opened self.new ≡ opened self.old) }
        ensures files { (name : List ℕ) → file self.new name ≡ file self.old name }
        ensures later { faults self.old ≤ faults self.new }
        ensures failed { IsErrOf result DoorFault.Failed → Rose (faults self.old) (faults self.new) }

        // The count rises at no other answer.
        ensures steady { OnOk result (faults self.new ≡ faults self.old) }
        ensures kept { IsErrOf result DoorFault.NoMemory → faults self.new ≡ faults self.old };

    /// How often they have failed. The count never falls, and stays at its type's end.
    fn faults(&self) -> u64
        ensures { result ≡ faults self.now };
}
