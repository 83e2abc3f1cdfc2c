//! Which source comes next, and how it meets those before it. What is chosen here is tried before it is taken, so
//! nothing is said of its keys.
ghost use Rattle.std.specs.Prelude.{◌≡◌, ◌≤◌, ◌<◌, ◌⊎◌, [], IfOk, IfSome, IsTrue, Some, length};
ghost use Rattle.hq_whole.specs.Choices.{copies};

use crate::step::{Step, Way};
use crate::tables::{width_of, width_of_all};
use hq_algebra::{CompareKind, Expr, Keys16, Query, copy_keys};
use hq_value::{NoMemory, TableDef};
use std::alloc::Global;

// Copying a side is taken to cost as much as moving so many of it.
const COPIES: u128 = 8;

/// What is known of a table that is to be joined to the rows so far.
#[derive(Clone, Copy)]
pub struct Meeting<'a> {
    pub table: u32,
    /// The numbers of columns so far, and of the table.
    pub width: u16,
    pub columns: u16,
    /// The table's own keys, and those by which the rows so far lie.
    pub own: &'a [u16],
    pub homes: &'a [Keys16],
    /// The sizes of the rows so far, and of the table.
    pub size: u128,
    pub table_size: u128,
}

// Two columns that a condition equates: one of the rows so far, and one of the table.
#[derive(Clone, Copy, Debug, PartialEq, Eq)]
struct Pair {
    left: u16,
    right: u16,
}

/// The size of a table, 0 where none is told.
pub fn size_of(defs: &[(u32, TableDef)], sizes: &[u128], table: u32) -> u128 {
    for i in 0..defs.len() {
        if defs[i].0 == table {
            return told(sizes, i);
        }
    }
    0
}

fn told(sizes: &[u128], i: usize) -> u128 {
    match sizes.get(i) {
        Some(size) => *size,
        None => 0,
    }
}

/// The source that comes next, where those before place `at` stand: the largest first, then the smallest of those that
/// a condition links with one that stands, or else of all.
pub fn next_source(query: &Query, defs: &[(u32, TableDef)], sizes: &[u128], at: usize) -> usize
    requires { at < length query.now.sources }
    ensures from { at ≤ result }
    ensures within { result < length query.now.sources }
{
    let sources = query.sources.as_slice();
    if at == 0 {
        return largest(sources, defs, sizes);
    }
    match smallest(query, defs, sizes, at, true) {
        Some(place) => place,
        None => match smallest(query, defs, sizes, at, false) {
            Some(place) => place,
            None => at,
        },
    }
}

fn largest(sources: &[u32], defs: &[(u32, TableDef)], sizes: &[u128]) -> usize
    requires { 0 < length sources.now }
    ensures { result < length sources.now }
{
    let mut found = 0;
    for i in 1..sources.len() {
        if size_of(defs, sizes, sources[i]) > size_of(defs, sizes, sources[found]) {
            found = i;
        }
    }
    found
}

// The smallest source from place `at` on, where it has to be linked of those that are.
fn smallest(
    query: &Query,
    defs: &[(u32, TableDef)],
    sizes: &[u128],
    at: usize,
    linked: bool,
) -> Option<usize>
    ensures { IfSome result (λ place. (at ≤ place) × (place < length query.now.sources)) }
{
    let sources = query.sources.as_slice();
    let mut found = None;
    for i in at..sources.len() {
        if linked && !is_linked(query, defs, at, i) {
            continue;
        }
        found = smaller(sources, defs, sizes, found, i);
    }
    found
}

fn smaller(
    sources: &[u32],
    defs: &[(u32, TableDef)],
    sizes: &[u128],
    found: Option<usize>,
    place: usize,
) -> Option<usize>
    requires found { IfSome found (λ i. i < length sources.now) }
    requires place { place < length sources.now }
    ensures { (result ≡ found) ⊎ (result ≡ Some place) }
{
    let Some(best) = found else {
        return Some(place);
    };
    if size_of(defs, sizes, sources[place]) < size_of(defs, sizes, sources[best]) {
        return Some(place);
    }
    found
}

// A condition equates a column of the sources before place `at` with one of the source at a place.
fn is_linked(query: &Query, defs: &[(u32, TableDef)], at: usize, place: usize) -> bool
    requires order { at ≤ place }
    requires within { place < length query.now.sources }
{
    let sources = query.sources.as_slice();
    let width = width_of_all(defs, &sources[..at]);
    let start = width_of_all(defs, &sources[..place]);
    let end = start + width_of(defs, sources[place]);
    for cond in query.conds.as_slice() {
        if links(cond, width, start, end) {
            return true;
        }
    }
    false
}

fn links(e: &Expr, width: u16, start: u16, end: u16) -> bool {
    match e {
        Expr::Compare {
            kind: CompareKind::Equal,
            left,
            right,
        } => meet(left.get(), right.get(), width, start, end),
        Expr::And { left, right } => {
            links(left.get(), width, start, end) || links(right.get(), width, start, end)
        }
        _ => false,
    }
}

fn meet(left: &Expr, right: &Expr, width: u16, start: u16, end: u16) -> bool {
    let Some(left) = column(left) else {
        return false;
    };
    let Some(right) = column(right) else {
        return false;
    };
    (left < width && start <= right && right < end)
        || (right < width && start <= left && left < end)
}

fn column(e: &Expr) -> Option<u16> {
    match e {
        Expr::Column(place) => Some(*place),
        _ => None,
    }
}

/// A step without keys: the smaller side goes to all nodes.
pub fn without_keys(alloc: Global, meeting: Meeting) -> Step
    ensures table { result.table ≡ meeting.entry.table }
    ensures left { result.left_keys ≡ [] }
    ensures right { result.right_keys ≡ [] }
    ensures way { IsTrue (copies result.way) }
{
    Step {
        table: meeting.table,
        left_keys: Keys16::new(alloc),
        right_keys: Keys16::new(alloc),
        way: copied(meeting),
    }
}

fn copied(meeting: Meeting) -> Way
    ensures { IsTrue (copies result) }
{
    if meeting.size < meeting.table_size {
        Way::CopyLeft
    } else {
        Way::CopyRight
    }
}

/// The step by which the fewest rows are likely to travel: none, where both sides lie by keys that conditions equate;
/// else those of the smaller side, where the other one lies by such keys; else copies of a much smaller side; else those
/// of the larger side, or of both.
pub fn preferred(alloc: Global, conds: &[Expr], meeting: Meeting) -> Result<Step, NoMemory>
    ensures { IfOk result (λ step. step.table ≡ meeting.entry.table) }
{
    let pairs = pairs(alloc, conds, meeting)?;
    by_pairs(alloc, pairs.as_slice(), meeting)
}

fn by_pairs(alloc: Global, pairs: &[Pair], meeting: Meeting) -> Result<Step, NoMemory>
    ensures { IfOk result (λ step. step.table ≡ meeting.entry.table) }
{
    if pairs.is_empty() {
        return Ok(without_keys(alloc, meeting));
    }
    if let Some(step) = staying(alloc, pairs, meeting)? {
        return Ok(step);
    }
    moving(alloc, pairs, meeting)
}

fn moving(alloc: Global, pairs: &[Pair], meeting: Meeting) -> Result<Step, NoMemory>
    ensures { IfOk result (λ step. step.table ≡ meeting.entry.table) }
{
    let left_is_less = meeting.size < meeting.table_size;
    if let Some(step) = moving_one(alloc, pairs, meeting, left_is_less)? {
        return Ok(step);
    }
    if is_much_less(meeting.size, meeting.table_size)
        || is_much_less(meeting.table_size, meeting.size)
    {
        return by_all(alloc, pairs, meeting, copied(meeting));
    }
    if let Some(step) = moving_one(alloc, pairs, meeting, !left_is_less)? {
        return Ok(step);
    }
    by_all(alloc, pairs, meeting, Way::MoveBoth)
}

fn is_much_less(a: u128, b: u128) -> bool {
    a < b / COPIES
}

fn pairs(alloc: Global, conds: &[Expr], meeting: Meeting) -> Result<Vec<Pair>, NoMemory> {
    let mut pairs = Vec::new(alloc);
    for cond in conds {
        push_pairs(&mut pairs, cond, meeting)?;
    }
    Ok(pairs)
}

fn push_pairs(pairs: &mut Vec<Pair>, e: &Expr, meeting: Meeting) -> Result<(), NoMemory> {
    match e {
        Expr::Compare {
            kind: CompareKind::Equal,
            left,
            right,
        } => push_pair(pairs, left.get(), right.get(), meeting),
        Expr::And { left, right } => {
            push_pairs(pairs, left.get(), meeting)?;
            push_pairs(pairs, right.get(), meeting)
        }
        _ => Ok(()),
    }
}

fn push_pair(
    pairs: &mut Vec<Pair>,
    left: &Expr,
    right: &Expr,
    meeting: Meeting,
) -> Result<(), NoMemory> {
    let Some(left) = column(left) else {
        return Ok(());
    };
    let Some(right) = column(right) else {
        return Ok(());
    };
    if let Some(pair) = pair_of(left, right, meeting) {
        pairs.push(pair)?;
    }
    if let Some(pair) = pair_of(right, left, meeting) {
        pairs.push(pair)?;
    }
    Ok(())
}

fn pair_of(left: u16, right: u16, meeting: Meeting) -> Option<Pair> {
    if left >= meeting.width || right < meeting.width {
        return None;
    }
    let right = right - meeting.width;
    if right >= meeting.columns {
        return None;
    }
    Some(Pair { left, right })
}

// Both sides lie by keys that conditions equate.
fn staying(alloc: Global, pairs: &[Pair], meeting: Meeting) -> Result<Option<Step>, NoMemory>
    ensures { IfOk result (λ found. IfSome found (λ step. step.table ≡ meeting.entry.table)) }
{
    for home in meeting.homes {
        if are_paired(pairs, home.as_slice(), meeting.own) {
            let left = copy_keys(alloc, home.as_slice())?;
            let right = copy_keys(alloc, meeting.own)?;
            return Ok(Some(joined_by(meeting, left, right, Way::Stay)));
        }
    }
    Ok(None)
}

fn joined_by(meeting: Meeting, left_keys: Keys16, right_keys: Keys16, way: Way) -> Step
    ensures { result.table ≡ meeting.entry.table }
{
    Step {
        table: meeting.table,
        left_keys,
        right_keys,
        way,
    }
}

fn are_paired(pairs: &[Pair], left: &[u16], right: &[u16]) -> bool {
    if left.is_empty() || left.len() != right.len() {
        return false;
    }
    for i in 0..left.len() {
        let pair = Pair {
            left: left[i],
            right: right[i],
        };
        if !pairs.contains(&pair) {
            return false;
        }
    }
    true
}

// One side goes where the other one lies.
fn moving_one(
    alloc: Global,
    pairs: &[Pair],
    meeting: Meeting,
    left_moves: bool,
) -> Result<Option<Step>, NoMemory>
    ensures { IfOk result (λ found. IfSome found (λ step. step.table ≡ meeting.entry.table)) }
{
    if left_moves {
        return moving_left(alloc, pairs, meeting);
    }
    moving_right(alloc, pairs, meeting)
}

fn moving_left(alloc: Global, pairs: &[Pair], meeting: Meeting) -> Result<Option<Step>, NoMemory>
    ensures { IfOk result (λ found. IfSome found (λ step. step.table ≡ meeting.entry.table)) }
{
    if meeting.own.is_empty() {
        return Ok(None);
    }
    let mut left = Keys16::new(alloc);
    for key in meeting.own {
        let Some(partner) = left_of(pairs, *key) else {
            return Ok(None);
        };
        left.push(partner)?;
    }
    let right = copy_keys(alloc, meeting.own)?;
    Ok(Some(joined_by(meeting, left, right, Way::MoveLeft)))
}

fn moving_right(alloc: Global, pairs: &[Pair], meeting: Meeting) -> Result<Option<Step>, NoMemory>
    ensures { IfOk result (λ found. IfSome found (λ step. step.table ≡ meeting.entry.table)) }
{
    for home in meeting.homes {
        if let Some(right) = partners(alloc, pairs, home.as_slice())? {
            let left = copy_keys(alloc, home.as_slice())?;
            return Ok(Some(joined_by(meeting, left, right, Way::MoveRight)));
        }
    }
    Ok(None)
}

// The columns of the table that conditions equate with these.
fn partners(alloc: Global, pairs: &[Pair], left: &[u16]) -> Result<Option<Keys16>, NoMemory> {
    let mut right = Keys16::new(alloc);
    for key in left {
        let Some(partner) = right_of(pairs, *key) else {
            return Ok(None);
        };
        right.push(partner)?;
    }
    Ok(Some(right))
}

// The column of the rows so far that a condition equates with one of the table.
fn left_of(pairs: &[Pair], right: u16) -> Option<u16> {
    for pair in pairs {
        if pair.right == right {
            return Some(pair.left);
        }
    }
    None
}

// The column of the table that a condition equates with one of the rows so far.
fn right_of(pairs: &[Pair], left: u16) -> Option<u16> {
    for pair in pairs {
        if pair.left == left {
            return Some(pair.right);
        }
    }
    None
}

// All that conditions equate are keys.
fn by_all(alloc: Global, pairs: &[Pair], meeting: Meeting, way: Way) -> Result<Step, NoMemory>
    ensures { IfOk result (λ step. step.table ≡ meeting.entry.table) }
{
    let mut left = Keys16::new(alloc);
    let mut right = Keys16::new(alloc);
    for pair in pairs {
        left.push(pair.left)?;
        right.push(pair.right)?;
    }
    Ok(joined_by(meeting, left, right, way))
}
