//! Rows and blocks of rows in bytes.
#![tactic(auto)]

mod bounds;
mod decode;
mod encode;
mod fault;
mod fields;
mod head;
mod laws;
mod nulls;
mod put;
mod read;
mod row_list;
mod skip;

pub use bounds::Bounds;
pub use decode::{decode_block, decode_block_into};
pub use encode::{encode_block, encode_list, fitting_in_list, fitting_rows};
pub use fault::{BlockFault, EncodeFault, RowFault};
pub use head::{BlockHead, head_length, read_head};
pub use laws::{
    block_lengths, blocks_are_apart, blocks_begin_with_heads, files_begin_with_blocks,
    files_grow_by_blocks, files_have_their_rows, nulls_have_their_bits, packed_rows_are_a_file,
    rows_are_apart, skipped_blocks_have_no_row, wider_rows_are_padded,
};
pub use put::{put_row, row_length};
pub use read::read_row;
pub use row_list::RowList;
pub use skip::{ColumnTest, skips};
