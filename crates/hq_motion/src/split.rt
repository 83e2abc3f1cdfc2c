//! Rows shared out to the receivers of a motion.
ghost use Rattle.std.specs.Prelude.{◌≡◌, ◌<◌, ◌∷◌, ◌++◌, ℕ, false, [], All, length, map, replicate, slice_set, slice_index, slice_index_or, IfOk, OnOk, if◌then◌else◌};
ghost use Rattle.hq_value.specs.Bucket.{HasColumns};
ghost use Rattle.hq_algebra.specs.declared.plan.Motion.TheVariants as motions;
ghost use Rattle.hq_meaning.specs.Nodes.{nodes_of, moved};
ghost use Rattle.hq_motion.specs.Split.{nodes_up, split, CanMove};
ghost use Rattle.hq_motion.specs.Lists.{list_at, listed};

use hq_algebra::{Keys16, Motion};
use hq_value::{Marks, NoMemory, Row, Sequence, bucket_of_places};
use std::alloc::Global;

const NODES: u8 = 16;

/// The rows that a slice gave on a node, for each receiver, ascending: all rows to the lowest node for Gather, all rows
/// to each node for Broadcast, and each row to the node that owns its bucket by the keys for Redistribute. Rows keep
/// their order, and are copied for a Broadcast to several nodes alone. `nodes` says which nodes are in use: they are
/// those that own a bucket.
pub fn split_rows(
    alloc: Global,
    motion: &Motion,
    rows: Vec<Row>,
    owner: &[u8; 16],
    nodes: &Marks,
) -> Result<Vec<(u8, Vec<Row>)>, NoMemory>
    requires motion { CanMove motion.now rows.items }
    requires some { 0 < length (nodes_up nodes.now) }
    requires owners { All (λ node. node < 16) owner.now }
    requires in_use { nodes_of owner.now ≡ nodes_up nodes.now }
    ensures { IfOk result (λ lists. listed lists.items ≡ split motion.now owner.now rows.items) }
{
    let up = up_nodes(alloc, nodes)?;
    match motion {
        Motion::Gather => to_one(alloc, up.as_slice(), rows),
        Motion::Broadcast => to_each(alloc, up.as_slice(), rows),
        Motion::Redistribute(keys) => {
            let lists = by_owner(alloc, rows, keys, owner)?;
            of_nodes(alloc, nodes, lists)
        }
        Motion::Result => unreachable!(),
    }
}

// The nodes that are up, ascending.
fn up_nodes(alloc: Global, nodes: &Marks) -> Result<Vec<u8>, NoMemory>
    ensures { IfOk result (λ up. up.items ≡ nodes_up nodes.now) }
{
    let mut up = Vec::new(alloc);
    for node in 0..NODES {
        add_if_up(&mut up, nodes, node)?;
    }
    Ok(up)
}

fn add_if_up(up: &mut Vec<u8>, nodes: &Marks, node: u8) -> Result<(), NoMemory>
    ensures { OnOk result (up.new.items ≡ up.old.items ++ (if slice_index_or nodes.now node false then node ∷ [] else [])) }
{
    if !is_up(nodes, node) {
        return Ok(());
    }
    up.push(node)?;
    Ok(())
}

fn is_up(nodes: &Marks, node: u8) -> bool
    ensures { result ≡ slice_index_or nodes.now node false }
{
    node < nodes.nodes() && nodes.is_up(node)
}

fn to_one(alloc: Global, up: &[u8], rows: Vec<Row>) -> Result<Vec<(u8, Vec<Row>)>, NoMemory>
    requires { 0 < length up.now }
    ensures { IfOk result (λ lists. listed lists.items ≡ (slice_index up.now 0, rows.items) ∷ []) }
{
    let mut lists = Vec::new(alloc);
    lists.push((up[0], rows))?;
    Ok(lists)
}

// All rows to each node. The last one gets the rows themselves.
fn to_each(alloc: Global, up: &[u8], rows: Vec<Row>) -> Result<Vec<(u8, Vec<Row>)>, NoMemory>
    requires { 0 < length up.now }
    ensures { IfOk result (λ lists. listed lists.items ≡ map (λ n. (n, rows.items)) up.now) }
{
    let mut lists = Vec::new(alloc);
    let last = up.len() - 1;
    for i in 0..last {
        let copy = copied(alloc, rows.as_slice())?;
        lists.push((up[i], copy))?;
    }
    lists.push((up[last], rows))?;
    Ok(lists)
}

fn copied(alloc: Global, rows: &[Row]) -> Result<Vec<Row>, NoMemory>
    ensures { IfOk result (λ copy. copy.items ≡ rows.now) }
{
    let mut copy = Vec::with_capacity(alloc, rows.len())?;
    for row in rows {
        copy.push(row.copy(alloc)?)?;
    }
    Ok(copy)
}

fn empty_lists(alloc: Global) -> Result<Vec<Sequence<Row>>, NoMemory>
    ensures { IfOk result (λ lists. lists.items ≡ replicate 16 []) }
{
    let mut lists = Vec::with_capacity(alloc, NODES as usize)?;
    for _ in 0..NODES {
        lists.push(Sequence::new(alloc))?;
    }
    Ok(lists)
}

// The rows of each node, in their order.
fn by_owner(
    alloc: Global,
    rows: Vec<Row>,
    keys: &Keys16,
    owner: &[u8; 16],
) -> Result<Vec<Sequence<Row>>, NoMemory>
    requires some { 0 < length keys.now }
    requires keyed { All (HasColumns keys.now) rows.items }
    requires owners { All (λ node. node < 16) owner.now }
    ensures sixteen { IfOk result (λ lists. length lists.items ≡ 16) }
    ensures lists { IfOk result (λ lists. (n : ℕ) → n < 16 → list_at lists.items n ≡ moved (motions.Redistribute keys.now) owner.now rows.items n) }
{
    let mut lists = empty_lists(alloc)?;
    for row in rows {
        let bucket = bucket_of_places(&row, keys) as usize;
        add(&mut lists, owner[bucket] as usize, row)?;
    }
    Ok(lists)
}

// Adds a row to a list.
fn add(lists: &mut Vec<Sequence<Row>>, node: usize, row: Row) -> Result<(), NoMemory>
    requires { node < length lists.old.items }
    ensures { OnOk result (lists.new.items ≡ slice_set lists.old.items node (list_at lists.old.items node ++ row ∷ [])) }
{
    lists[node].push(row)
}

// The lists of the nodes that are up.
fn of_nodes(
    alloc: Global,
    nodes: &Marks,
    lists: Vec<Sequence<Row>>,
) -> Result<Vec<(u8, Vec<Row>)>, NoMemory>
    requires { length lists.items ≡ 16 }
    ensures { IfOk result (λ found. listed found.items ≡ map (λ n. (n, list_at lists.items n)) (nodes_up nodes.now)) }
{
    let mut found = Vec::new(alloc);
    let mut node = 0;
    for list in lists {
        keep(&mut found, nodes, node, list)?;
        node += 1;
    }
    Ok(found)
}

// Adds a node's list, where it is up.
fn keep(
    found: &mut Vec<(u8, Vec<Row>)>,
    nodes: &Marks,
    node: u8,
    list: Sequence<Row>,
) -> Result<(), NoMemory>
    ensures { OnOk result (listed found.new.items ≡ listed found.old.items ++ (if slice_index_or nodes.now node false then (node, list) ∷ [] else [])) }
{
    if !is_up(nodes, node) {
        return Ok(());
    }
    found.push((node, list.into_vec()))?;
    Ok(())
}
