//! Laws of rows, blocks and files.
ghost use Rattle.std.specs.Prelude.{◌≡◌, ◌<◌, ◌≤◌, ◌++◌, ℕ, [], List, length, map, take, drop, slice_index, slice_index_or, true, false, All, ◌/◌, ◌%◌, ◌^◌};
ghost use Rattle.std.specs.List.{AllByRecursion, list_all};
ghost use Rattle.hq_value.specs.declared.value.Value.{Value as Datum};
ghost use Rattle.hq_value.specs.declared.value.Value.TheVariants.{Bool as Flag};
ghost use Rattle.hq_value.specs.declared.kind.Kind.{Kind as Sort};
ghost use Rattle.hq_block.specs.declared.head.BlockHead.{BlockHead as FoundHead};
ghost use Rattle.hq_block.specs.declared.skip.ColumnTest.{ColumnTest as Test};
ghost use Rattle.hq_block.specs.Heads.{HeadIs, HeadLength};
ghost use Rattle.hq_block.specs.Skipping.{passes_test, skips};
ghost use Rattle.hq_block.specs.Row.{IsRow, IsStorable, null_bitmap, null_flag};
ghost use Rattle.hq_block.specs.Block.{IsBlock, FileRows, block_bytes, block_length, fitting_a_block, pack, padded};

/// In a row's null bitmap, bit i mod 8 of byte i / 8 is set exactly where column i is NULL, and no other bit.
pub fn nulls_have_their_bits()
    ensures { (row : List Datum) (i : ℕ) →
        slice_index (null_bitmap row) (i / 8) / 2 ^ (i % 8) % 2 ≡ null_flag (slice_index_or row i (Flag false)) }
{}

/// No row begins another row of the same kinds, and a list of kinds and a row have one spelling.
pub fn rows_are_apart()
    ensures apart { (kinds : List Sort) (row other : List Datum) (a b x y : List ℕ) →
        IsRow kinds row a → IsRow kinds other b → a ++ x ≡ b ++ y → (a ≡ b) × (row ≡ other) }
    ensures one_spelling { (kinds : List Sort) (row : List Datum) (a b : List ℕ) → IsRow kinds row a → IsRow kinds row b → a ≡ b }
{}

/// No block begins another block of the same kinds, so what was written is read again, whatever follows it.
pub fn blocks_are_apart()
    ensures { (kinds : List Sort) (rows others : List (List Datum)) (a b x y : List ℕ) →
        IsBlock kinds rows a → IsBlock kinds others b → a ++ x ≡ b ++ y → (a ≡ b) × (rows ≡ others) × (x ≡ y) }
{}

/// A file's rows are determined by its kinds and bytes.
pub fn files_have_their_rows()
    ensures { (kinds : List Sort) (bytes : List ℕ) (rows others : List (List Datum)) →
        FileRows kinds bytes rows → FileRows kinds bytes others → rows ≡ others }
{}

/// A file is written block by block: no bytes are a file, and so is a block, and so are files joined.
pub fn files_grow_by_blocks()
    ensures empty { (kinds : List Sort) → FileRows kinds [] [] }
    ensures block { (kinds : List Sort) (bytes : List ℕ) (rows : List (List Datum)) → IsBlock kinds rows bytes → FileRows kinds bytes rows }
    ensures joined { (kinds : List Sort) (a b : List ℕ) (rows others : List (List Datum)) →
        FileRows kinds a rows → FileRows kinds b others → FileRows kinds (a ++ b) (rows ++ others) }
{}

/// A file is read block by block: unless it is empty it begins with a block, and what follows a block in front is a
/// file of the other rows.
pub fn files_begin_with_blocks()
    ensures begins { (kinds : List Sort) (bytes : List ℕ) (rows : List (List Datum)) → FileRows kinds bytes rows → 0 < length bytes →
        (first : List (List Datum)) × ((len : ℕ) × IsBlock kinds first (take len bytes)) }
    ensures rest { (kinds : List Sort) (bytes : List ℕ) (rows first : List (List Datum)) (len : ℕ) →
        FileRows kinds bytes rows → IsBlock kinds first (take len bytes) →
        (rows ≡ first ++ drop (length first) rows) × FileRows kinds (drop len bytes) (drop (length first) rows) }
{}

/// Packed rows are a file of them. They are one block of as many of the first rows as fit, and the others packed.
pub fn packed_rows_are_a_file()
    ensures file { (kinds : List Sort) (rows : List (List Datum)) →
        0 < length kinds → length kinds ≤ 64 → AllByRecursion (IsStorable kinds) rows → FileRows kinds (pack kinds rows) rows }
    ensures nothing { (kinds : List Sort) → pack kinds [] ≡ [] }
    ensures step { (kinds : List Sort) (rows : List (List Datum)) → 0 < length rows →
        pack kinds rows ≡ block_bytes kinds (take (fitting_a_block kinds rows) rows) ++ pack kinds (drop (fitting_a_block kinds rows) rows) }
{}

/// A block begins with a head and bounds, which say how long it is, whatever follows it. What a head says is told by
/// its bytes alone: the first 16 say how long it is with its bounds, and these say how long the block is.
pub fn blocks_begin_with_heads()
    ensures begins { (kinds : List Sort) (rows : List (List Datum)) (bytes more : List ℕ) → IsBlock kinds rows bytes →
        (n : ℕ) × HeadLength (bytes ++ more) n × (n ≤ length bytes) ×
        ((head : FoundHead) × HeadIs kinds head (take n bytes) × (head.length ≡ length bytes)) }
    ensures first_16 { (bytes : List ℕ) (n : ℕ) → HeadLength bytes n → (16 ≤ length bytes) × HeadLength (take 16 bytes) n }
    ensures onward { (bytes more : List ℕ) (n : ℕ) → HeadLength bytes n → HeadLength (bytes ++ more) n }
    ensures one_length { (bytes : List ℕ) (m n : ℕ) → HeadLength bytes m → HeadLength bytes n → m ≡ n }
    ensures one_head { (kinds : List Sort) (a b : FoundHead) (bytes : List ℕ) → HeadIs kinds a bytes → HeadIs kinds b bytes → a.length ≡ b.length }
{}

/// A block that is skipped has no row that passes all tests.
pub fn skipped_blocks_have_no_row()
    ensures { (kinds : List Sort) (rows : List (List Datum)) (bytes : List ℕ) (n : ℕ) (head : FoundHead) (tests : List Test) →
        IsBlock kinds rows bytes → HeadIs kinds head (take n bytes) → skips tests head.bounds ≡ true →
        All (λ row. list_all (λ test. passes_test test row) tests ≡ false) rows }
{}

/// A block is as long as is told before it is written.
pub fn block_lengths()
    ensures { (kinds : List Sort) (rows : List (List Datum)) → length (block_bytes kinds rows) ≡ block_length kinds rows }
{}

/// What is read over more kinds is what is read over fewer, with NULLs in the columns more.
pub fn wider_rows_are_padded()
    ensures block { (kinds more : List Sort) (rows : List (List Datum)) (bytes : List ℕ) → IsBlock kinds rows bytes →
        IsBlock (kinds ++ more) (map (padded (length (kinds ++ more))) rows) bytes }
    ensures file { (kinds more : List Sort) (rows : List (List Datum)) (bytes : List ℕ) → FileRows kinds bytes rows →
        FileRows (kinds ++ more) bytes (map (padded (length (kinds ++ more))) rows) }
{}
