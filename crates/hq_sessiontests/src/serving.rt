//! One script, served alone.
ghost use Rattle.std.specs.Prelude.{◌≡◌, ◌<◌, length, IfOk};

use hq_catalog::Catalogue;
use hq_detect::{Bench, Benches, SureHost};
use hq_io::{MemSink, MemSource};
use hq_serve::serve_alone;
use hq_sim::SimLink;
use hq_store::{MemFile, MemSeal, MemStore};
use hq_transcript::EndWhy;
use hq_value::NoMemory;
use std::alloc::Global;
use std::test::Fail;

type MemBenches = Benches<MemStore, SureHost, SimLink>;

// One node, whose store, host and link do not fail.
fn benches(alloc: Global) -> Result<MemBenches, NoMemory>
    ensures { IfOk result (λ benches. length benches.items ≡ 1) }
{
    let mut benches = Vec::new(alloc);
    benches.push(Bench {
        store: MemStore::new(alloc, Vec::new(alloc)),
        host: SureHost::new(),
        link: SimLink::scripted(alloc, Vec::new(alloc)),
    })?;
    Ok(benches)
}

/// What a session gave.
#[derive(Drop)]
pub(crate) struct Ran {
    pub why: EndWhy,
    pub entries: usize,
    pub out: Vec<u8>,
}

/// Serves these bytes as the input of session 1, read a step at a time; these reads and writes fail.
pub(crate) fn serve(
    alloc: Global,
    input: Vec<u8>,
    step: usize,
    reads: Vec<u64>,
    writes: Vec<u64>,
) -> Result<Ran, Fail>
    requires { 0 < step }
{
    let mut catalogue: Catalogue<MemFile, MemSeal> = Catalogue::new(alloc, 1)?;
    let mut benches = benches(alloc)?;
    let mut source = MemSource::new(input, step, reads);
    let mut sink = MemSink::new(alloc, writes);
    let why = serve_alone(
        alloc,
        &mut catalogue,
        1,
        &mut benches,
        &mut source,
        &mut sink,
    );
    Ok(Ran {
        why,
        entries: catalogue.log().len(),
        out: sink.bytes().to_vec(alloc)?,
    })
}
