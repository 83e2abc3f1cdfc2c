//! What a look brings of a table, and what a cache makes of it.

use hq_cases as cases;
use hq_snap::{Changed, Have, LaneSeals, Scope, SnapCache, TableDelta, TableSnap, copy_since};
use hq_store::{MemSeal, MemStore, SealCopy, Store, StoreFault};
use hq_value::{Column, Columns, FileId, Keys, Kind, Name, NoMemory, TableDef};
use std::alloc::Global;
use std::test::Fail;

// A table whose files are sealed one by one, each at a place of a log, and a cache that looks at it.
#[derive(Drop)]
struct Case {
    store: MemStore,
    def: TableDef,
    lanes: Vec<LaneSeals<MemSeal>>,
    changed: Changed,
    cache: SnapCache<MemSeal>,
    place: u32,
}

// A seal of a file with these bytes.
fn sealed<S: Store>(store: &mut S, id: FileId, bytes: &[u8]) -> Result<S::Seal, StoreFault> {
    let mut file = store.create(id)?;
    store.append(&mut file, bytes)?;
    store.flush(&mut file)?;
    Ok(store.seal(&mut file))
}

// The table `t` of the column `a` of integers, which is its key and takes no NULL.
fn table_of_one_column(alloc: Global) -> Result<TableDef, NoMemory> {
    let mut columns = Columns::new(alloc);
    columns.push(Column {
        name: Name::new(b"a".to_vec(alloc)?),
        kind: Kind::Int,
        not_null: true,
    })?;
    let mut keys = Keys::new(alloc);
    keys.push(0)?;
    TableDef::new(alloc, Name::new(b"t".to_vec(alloc)?), columns, keys)
}

fn empty_lanes(alloc: Global) -> Result<Vec<LaneSeals<MemSeal>>, NoMemory> {
    let mut lanes = Vec::new(alloc);
    for _ in 0..64usize {
        lanes.push(LaneSeals::empty(alloc)?)?;
    }
    Ok(lanes)
}

// The names of a text, parted by blanks. Without any the scope is all tables.
fn scope_of(alloc: Global, text: &str) -> Result<Scope, Fail> {
    let mut names = Vec::new(alloc);
    for word in text.split_whitespace() {
        let bytes = word.as_bytes();
        if !bytes.is_empty() && bytes.len() <= Name::MOST {
            names.push(Name::new(bytes.to_vec(alloc)?))?;
        }
    }
    if names.is_empty() {
        return Ok(Scope::All);
    }
    Ok(Scope::Names(names))
}

// The seals that a look brought, as lane, bucket and length.
fn show_changed(rt: HostRuntime, delta: &TableDelta<MemSeal>) -> Result<(), Fail> {
    let mut bytes = 0u64;
    for file in delta.files() {
        bytes = bytes.saturating_add(file.seal().len());
    }
    print!(rt; " table {}, {bytes} bytes:", delta.table())?;
    for file in delta.files() {
        print!(rt; " {}.{} {}", file.lane(), file.bucket(), file.seal().len())?;
    }
    println!(rt; "")?;
    Ok(())
}

// The seals of a table, as lane, bucket and length.
fn show_seals(rt: HostRuntime, snap: &TableSnap<MemSeal>) -> Result<(), Fail> {
    print!(rt; " table {}, {} bytes:", snap.table(), snap.length())?;
    let mut n = 0u32;
    for lane in snap.lanes() {
        for bucket in 0..16u8 {
            if let Some(seal) = lane.get(bucket) {
                print!(rt; " {n}.{bucket} {}", seal.len())?;
            }
        }
        n = n.saturating_add(1);
    }
    println!(rt; "")?;
    Ok(())
}

impl Case {
    fn new(alloc: Global) -> Result<Case, Fail> {
        Ok(Case {
            store: MemStore::new(alloc, Vec::new(alloc)),
            def: table_of_one_column(alloc)?,
            lanes: empty_lanes(alloc)?,
            changed: Changed::none(alloc)?,
            cache: SnapCache::new(alloc),
            place: 0,
        })
    }

    // Seals a file with these bytes, and puts the seal in its place.
    fn commit(&mut self, n: usize, bucket: u8, text: &str) -> Result<(), Fail> {
        if n >= 64 || n >= self.lanes.len() || bucket > 15 || !self.lanes[n].has_place(bucket) {
            return Ok(());
        }
        let id = FileId {
            table: 3,
            lane: n as u8,
            bucket,
        };
        let seal = sealed(&mut self.store, id, text.as_bytes())?;
        self.lanes[n].put(bucket, seal);
        self.place = self.place.saturating_add(1);
        self.changed.note(n as u8, bucket, u64::from(self.place));
        Ok(())
    }

    // What the cache has of all tables: the place of the only one, or 0.
    fn at(&self, alloc: Global) -> Result<u64, Fail> {
        let have = self.cache.have(alloc, &Scope::All)?;
        Ok(match have.first() {
            None => 0,
            Some(one) => one.at,
        })
    }

    // Shows what changed since the last look, and the cache with it.
    fn look(&mut self, rt: HostRuntime) -> Result<(), Fail> {
        let alloc = rt.alloc();
        let at = self.at(alloc)?;
        if self.lanes.len() != 64 {
            return Ok(());
        }
        let delta = copy_since(alloc, 3, &self.def, &self.lanes, &self.changed, at)?;
        print!(rt; "  since {at},")?;
        show_changed(rt, &delta)?;
        self.cache
            .merge(u64::from(self.place), vec![in alloc; delta]?)?;
        self.place = self.place.saturating_add(1);
        for cached in self.cache.tables() {
            print!(rt; "  cached,")?;
            show_seals(rt, cached)?;
        }
        Ok(())
    }

    // Shows what the cache has of a scope.
    fn have(&self, rt: HostRuntime, text: &str) -> Result<(), Fail> {
        let alloc = rt.alloc();
        let scope = scope_of(alloc, text)?;
        let have = self.cache.have(alloc, &scope)?;
        print!(rt; "  {text}:")?;
        for Have { table, at } in have.as_slice() {
            print!(rt; " table {table} at {at}")?;
        }
        println!(rt; "")?;
        Ok(())
    }

    fn line(&mut self, rt: HostRuntime, word: &str, rest: &str) -> Result<(), Fail> {
        match word {
            "commit" => {
                let (n, rest) = cases::counted(rest);
                let (bucket, text) = cases::counted(rest);
                self.commit(n, bucket.min(255) as u8, text)?;
            }
            "look" => self.look(rt)?,
            "have" => self.have(rt, rest)?,
            _ => {
                println!(rt; "{word} {rest}")?;
                *self = Case::new(rt.alloc())?;
            }
        }
        Ok(())
    }
}

/// Shows the cases of `snaps.txt`.
pub fn run(rt: HostRuntime) -> Result<(), Fail> {
    let alloc = rt.alloc();
    let text = cases::text_of(rt, "snaps.txt")?;
    let mut case = Case::new(alloc)?;
    for line in text.as_str().lines() {
        if let Some((word, rest)) = cases::line_of(line) {
            case.line(rt, word, rest)?;
        }
    }
    Ok(())
}
