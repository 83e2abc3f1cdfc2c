//! A planned file of doors over memory.
ghost use Rattle.std.specs.Prelude.{◌<◌};

/// A file over memory: its name, its bytes, how many of them a read gives at most, which is at least 1, and which
/// calls of its source and of its sink fail, counted from 1.
#[derive(Drop)]
pub struct FilePlan {
    pub name: String,
    pub bytes: Vec<u8>,
    pub step: usize,
    pub reads: Vec<u64>,
    pub writes: Vec<u64>,
    ghost gives: { 0 < step },
}
