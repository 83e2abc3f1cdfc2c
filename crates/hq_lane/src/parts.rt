//! A lane is cut into parts, one for each node, and put together again.
ghost use Rattle.std.specs.Prelude.{◌≡◌, ◌≢◌, ℕ, ◌+◌, ◌<◌, ◌≤◌, ◌++◌, ◌∷◌, [], true, false, vec_len, vec_capacity, slice_index, slice_index_or, IfOk, IfErr, nat_eq};
ghost use Rattle.hq_lane.specs.Lanes.{LaneState, PartState, HaveIds, file_of, part_at, file_in, owns, ArePartsOf, AreOneLane, IsWholeOf};

use crate::lane::Lane;
use crate::part::LanePart;
use crate::slot::Slots;
use hq_store::{SealCopy, StoredFile};
use hq_value::{BUCKETS, NoMemory};
use std::alloc::Global;

impl<F: StoredFile, Z: SealCopy> Lane<F, Z> {
    /// A part for each node from 0 to 15, with the files of the buckets that it owns. Without memory the lane is given
    /// back.
    pub fn part(
        self,
        alloc: Global,
        owner: &[u8; BUCKETS],
    ) -> Result<Vec<LanePart<F, Z>>, (Lane<F, Z>, NoMemory)>
        requires { (b : ℕ) → b < 16 → slice_index owner.now b < 16 }
        ensures parts { IfOk result (λ parts. ArePartsOf self owner.now parts.items) }
        ensures back { IfErr result (λ fault. fault.0 ≡ self) }
    {
        match make_parts(alloc, self.table(), self.number(), owner) {
            Err(NoMemory) => Err((self, NoMemory)),
            Ok(parts) => {
                let mut parts = parts;
                let mut files = self.take_apart();
                share(&mut files, &mut parts, owner);
                Ok(parts)
            }
        }
    }
}

impl<F: StoredFile, Z: SealCopy> LanePart<F, Z> {
    /// The lane of these parts. It takes no memory.
    pub fn whole(parts: Vec<LanePart<F, Z>>) -> Lane<F, Z>
        requires { AreOneLane parts.items }
        ensures { IsWholeOf parts.items result }
    {
        let mut parts = parts;
        let Some(last) = parts.pop() else {
            unreachable!();
        };
        let (table, number, mut files) = last.take_apart();
        while let Some(part) = parts.pop() {
            let mut part = part;
            merge(&mut files, &mut part);
            part.discard();
        }
        parts.destroy_empty();
        Lane::of(table, number, files)
    }
}

// Moves the files that the part has.
fn merge<F: StoredFile, Z: SealCopy>(files: &mut Slots<F, Z>, part: &mut LanePart<F, Z>)
    requires { HaveIds part.old.table part.old.number files.old }
    ensures ids { HaveIds part.old.table part.old.number files.new }
    ensures moved { (b : ℕ) → b < 16 → owns part.old b ≡ true → file_of files.new b ≡ file_of part.old.files b }
    ensures others { (b : ℕ) → b < 16 → owns part.old b ≡ false → file_of files.new b ≡ file_of files.old b }
{
    for bucket in 0..16u8 {
        if part.has(bucket) {
            files[bucket as usize] = part.take(bucket);
        }
    }
}

// Moves each file to the part that owns it.
fn share<F: StoredFile, Z: SealCopy>(
    files: &mut Slots<F, Z>,
    parts: &mut Vec<LanePart<F, Z>>,
    owner: &[u8; BUCKETS],
)
    requires parts { vec_len parts.old ≡ 16 }
    requires owner { (b : ℕ) → b < 16 → slice_index owner.now b < 16 }
    requires ids { (n : ℕ) → n < 16 → HaveIds (part_at parts.old.items n).table (part_at parts.old.items n).number files.old }
    ensures sixteen { vec_len parts.new ≡ 16 }
    ensures table { (n : ℕ) → (part_at parts.new.items n).table ≡ (part_at parts.old.items n).table }
    ensures number { (n : ℕ) → (part_at parts.new.items n).number ≡ (part_at parts.old.items n).number }
    ensures here { (n : ℕ) → (part_at parts.new.items n).here ≡ (part_at parts.old.items n).here }
    ensures moved { (b : ℕ) → b < 16 → file_in parts.new.items (slice_index owner.now b) b ≡ file_of files.old b }
{
    for bucket in 0..16u8 {
        let file = files[bucket as usize].take();
        parts[owner[bucket as usize] as usize].put(bucket, file);
    }
}

// A part without files for each node.
fn make_parts<F: StoredFile, Z: SealCopy>(
    alloc: Global,
    table: u32,
    number: u8,
    owner: &[u8; BUCKETS],
) -> Result<Vec<LanePart<F, Z>>, NoMemory>
    ensures sixteen { IfOk result (λ parts. vec_len parts ≡ 16) }
    ensures table { IfOk result (λ parts. (n : ℕ) → n < 16 → (part_at parts.items n).table ≡ table) }
    ensures number { IfOk result (λ parts. (n : ℕ) → n < 16 → (part_at parts.items n).number ≡ number) }
    ensures owned { IfOk result (λ parts. (n b : ℕ) → n < 16 → b < 16 → owns (part_at parts.items n) b ≡ nat_eq (slice_index owner.now b) n) }
{
    let Ok(mut parts) = Vec::with_capacity(alloc, BUCKETS) else {
        return Err(NoMemory);
    };
    for node in 0..16u8 {
        let here = buckets_of(owner, node);
        push_sure(&mut parts, LanePart::empty(table, number, here));
    }
    Ok(parts)
}

// The buckets that a node owns.
fn buckets_of(owner: &[u8; BUCKETS], node: u8) -> [bool; BUCKETS]
    ensures { (b : ℕ) → b < 16 → slice_index_or result b false ≡ nat_eq (slice_index owner.now b) node }
{
    let mut here = [false; BUCKETS];
    for b in 0..BUCKETS {
        here[b] = owner[b] == node;
    }
    here
}

// A push with room to spare.
fn push_sure<T>(items: &mut Vec<T>, item: T)
    requires { vec_len items.old < vec_capacity items.old }
    ensures items { items.new.items ≡ items.old.items ++ item ∷ [] }
    ensures len { vec_len items.new ≡ vec_len items.old + 1 }
    ensures capacity { vec_capacity items.old ≤ vec_capacity items.new }
{
    match items.push(item) {
        Ok(()) => (),
        Err(_back) => unreachable!(),
    }
}
