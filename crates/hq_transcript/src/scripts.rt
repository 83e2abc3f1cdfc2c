//! Worked scripts.
ghost use Rattle.std.specs.Prelude.{◌≡◌, codes, true};
ghost use Rattle.hq_transcript.specs.Binds.{binds};
ghost use Rattle.hq_transcript.specs.Reading.{pieces_in};
ghost use Rattle.hq_transcript.specs.Transcript.{Transcript};
ghost use Rattle.hq_transcript.specs.Examples.{alone};
ghost use Rattle.hq_transcript.specs.Scripts.{text_filled, input_filled, log_filled, inputs_snapshot, log_snapshot, input_alter, log_alter};

/// A table is made, filled and read, from the bytes of the input to those of the replies; with another number in them
/// they are no transcript.
pub fn a_filled_table()
    ensures read { pieces_in text_filled ≡ input_filled }
    ensures replies { Transcript binds true 1 (alone input_filled) log_filled 1 input_filled
        (codes "CREATE TABLE\nINSERT 3\n1\n2\n2\nSELECT 3\n") }
    ensures no_other { Transcript binds true 1 (alone input_filled) log_filled 1 input_filled
        (codes "CREATE TABLE\nINSERT 3\n1\n2\n3\nSELECT 3\n") → ⊥ }
{}

/// A snapshot's count stays beside another session's INSERT.
pub fn a_snapshot()
    ensures { Transcript binds true 1 inputs_snapshot log_snapshot 1 (inputs_snapshot 1)
        (codes "BEGIN\n1\nSELECT 1\n1\nSELECT 1\nCOMMIT\n2\nSELECT 1\n") }
{}

/// A column that is added is NULL in older rows.
pub fn an_added_column()
    ensures { Transcript binds true 1 (alone input_alter) log_alter 1 input_alter
        (codes "CREATE TABLE\nINSERT 1\nALTER TABLE\nINSERT 1\n1|\\N\n2|x\nSELECT 2\n") }
{}
