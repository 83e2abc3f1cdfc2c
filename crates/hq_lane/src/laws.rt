//! Laws of lanes and of their files.
ghost use Rattle.std.specs.Prelude.{◌≡◌, ◌<◌, ℕ, [], List, length, slice_index};
ghost use Rattle.hq_value.specs.declared.value.Value.{Value as Datum};
ghost use Rattle.hq_value.specs.declared.kind.Kind.{Kind as Sort};
ghost use Rattle.hq_block.specs.declared.skip.ColumnTest.{ColumnTest as Test};
ghost use Rattle.hq_block.specs.Block.{FileRows};
ghost use Rattle.hq_lane.specs.FileBlocks.{blocks_in, joined_rows, joined_length, kept_rows, read_sum, passing};
ghost use Rattle.hq_lane.specs.Lanes.{LaneState, PartState, file_of, file_in, ArePartsOf, AreOneLane, IsWholeOf, HaveSameHeads};

/// Whatever is appended to the parts of a lane, they can be put together again, and each place of the lane of them is
/// that of its owner's part.
pub fn parts_make_a_lane()
    ensures one { (lane : LaneState) (owner : List ℕ) (parts new : List PartState) → ((b : ℕ) → b < 16 → slice_index owner b < 16) →
        ArePartsOf lane owner parts → HaveSameHeads parts new → AreOneLane new }
    ensures table { (lane whole : LaneState) (owner : List ℕ) (parts new : List PartState) →
        ArePartsOf lane owner parts → HaveSameHeads parts new → IsWholeOf new whole → (whole.table ≡ lane.table) × (whole.number ≡ lane.number) }
    ensures places { (lane whole : LaneState) (owner : List ℕ) (parts new : List PartState) → ((b : ℕ) → b < 16 → slice_index owner b < 16) →
        ArePartsOf lane owner parts → HaveSameHeads parts new → IsWholeOf new whole →
        (b : ℕ) → b < 16 → file_of whole.files b ≡ file_in new (slice_index owner b) b }
{}

/// A file's bytes are cut into its blocks: the rows of these are its rows, and they are as long as it.
pub fn files_have_their_blocks()
    ensures rows { (kinds : List Sort) (bytes : List ℕ) (rows : List (List Datum)) → FileRows kinds bytes rows →
        joined_rows (blocks_in kinds bytes) ≡ rows }
    ensures lengths { (kinds : List Sort) (bytes : List ℕ) (rows : List (List Datum)) → FileRows kinds bytes rows →
        joined_length (blocks_in kinds bytes) ≡ length bytes }
{}

/// Of a file's rows those that pass all tests are among the rows of the blocks that the tests do not skip. Without tests
/// no block is skipped, and each byte is read.
pub fn skipping_loses_no_row()
    ensures passing { (tests : List Test) (kinds : List Sort) (bytes : List ℕ) (rows : List (List Datum)) → FileRows kinds bytes rows →
        passing tests (kept_rows tests kinds bytes) ≡ passing tests rows }
    ensures all_rows { (kinds : List Sort) (bytes : List ℕ) (rows : List (List Datum)) → FileRows kinds bytes rows → kept_rows [] kinds bytes ≡ rows }
    ensures all_bytes { (kinds : List Sort) (bytes : List ℕ) (rows : List (List Datum)) → FileRows kinds bytes rows → read_sum [] kinds bytes ≡ length bytes }
{}
