//! What doors over memory hand out.
ghost use Rattle.std.specs.Prelude.{◌≡◌, ◌↔◌, IsTrue, map, is_none, option_map, IfOk, IsErrOf};
ghost use Rattle.hq_doors.specs.Doors.{label_of};
ghost use Rattle.hq_doors.specs.Memory.{planned, plan_named, plan_for, script_plan, unlabelled_source, unlabelled_sink, IsMade};

use crate::{FilePlan, Opening, Parts};
use hq_io::{Bytes, Label, MemSink, MemSource, Opened};
use hq_value::{DoorFault, NoMemory};
use std::alloc::Global;

/// A source, a sink, and their label once more.
#[derive(Drop)]
pub struct Made {
    pub parts: Parts<MemSource, MemSink>,
    pub label: Label,
}

// The first plan of this name.
fn find_plan<'a>(files: &'a [FilePlan], name: &str) -> Option<&'a FilePlan>
    ensures { option_map (λ plan. planned plan.now) result ≡ plan_named (map planned files.now) name.now }
{
    for plan in files {
        if plan.name.as_str() == name {
            return Some(plan);
        }
    }
    None
}

// The source and the sink of a planned file.
fn parts_by(alloc: Global, plan: &FilePlan) -> Result<Parts<MemSource, MemSink>, NoMemory>
    ensures source { IfOk result (λ parts. parts.source ≡ unlabelled_source (planned plan.now)) }
    ensures sink { IfOk result (λ parts. parts.sink ≡ unlabelled_sink (planned plan.now)) }
{
    let bytes = plan.bytes.as_slice().to_vec(alloc)?;
    let reads = plan.reads.as_slice().to_vec(alloc)?;
    let writes = plan.writes.as_slice().to_vec(alloc)?;
    Ok(Parts {
        source: MemSource::new(bytes, plan.step, reads),
        sink: MemSink::new(alloc, writes),
    })
}

// The source and the sink of a script.
fn script_parts(alloc: Global, text: &[u8]) -> Result<Parts<MemSource, MemSink>, NoMemory>
    ensures source { IfOk result (λ parts. parts.source ≡ unlabelled_source (script_plan text.now)) }
    ensures sink { IfOk result (λ parts. parts.sink ≡ unlabelled_sink (script_plan text.now)) }
{
    let bytes = text.to_vec(alloc)?;
    Ok(Parts {
        source: MemSource::new(bytes, 4096, Vec::new(alloc)),
        sink: MemSink::new(alloc, Vec::new(alloc)),
    })
}

fn label(alloc: Global, session: u32, what: &Opening) -> Result<Label, NoMemory>
    ensures { IfOk result (λ label. label ≡ label_of session what.now) }
{
    match what {
        Opening::File(name) => {
            let name = Bytes::copy_of(alloc, name.as_bytes())?;
            Ok(Label {
                session,
                opened: Opened::File(name),
            })
        }
        Opening::Script(text) => {
            let text = Bytes::copy_of(alloc, text)?;
            Ok(Label {
                session,
                opened: Opened::Script(text),
            })
        }
    }
}

// The same source and sink under the label of the session and the opening.
fn labelled(
    alloc: Global,
    parts: Parts<MemSource, MemSink>,
    session: u32,
    what: &Opening,
) -> Result<Made, NoMemory>
    ensures source { IfOk result (λ made. made.parts.source ≡ record parts.source { label = Some (label_of session what.now) }) }
    ensures sink { IfOk result (λ made. made.parts.sink ≡ record parts.sink { label = Some (label_of session what.now) }) }
    ensures label { IfOk result (λ made. made.label ≡ label_of session what.now) }
{
    let Parts { source, sink } = parts;
    let source_label = label(alloc, session, what)?;
    let sink_label = label(alloc, session, what)?;
    let label = label(alloc, session, what)?;
    let parts = Parts {
        source: source.labelled(source_label),
        sink: sink.labelled(sink_label),
    };
    Ok(Made { parts, label })
}

fn parts_for(
    alloc: Global,
    files: &[FilePlan],
    what: &Opening,
) -> Result<Parts<MemSource, MemSink>, DoorFault>
    ensures source { IfOk result (λ parts. option_map unlabelled_source (plan_for (map planned files.now) what.now) ≡ Some parts.source) }
    ensures sink { IfOk result (λ parts. option_map unlabelled_sink (plan_for (map planned files.now) what.now) ≡ Some parts.sink) }
    ensures failed { IsErrOf result DoorFault.Failed ↔ IsTrue (is_none (plan_for (map planned files.now) what.now)) }
{
    let made = match what {
        Opening::File(name) => match find_plan(files, name) {
            Some(plan) => parts_by(alloc, plan),
            None => return Err(DoorFault::Failed),
        },
        Opening::Script(text) => script_parts(alloc, text),
    };
    match made {
        Ok(parts) => Ok(parts),
        Err(NoMemory) => Err(DoorFault::NoMemory),
    }
}

/// What the opening asks for. `Failed` exactly where it asks for a file that no plan names.
pub fn make(
    alloc: Global,
    files: &[FilePlan],
    session: u32,
    what: &Opening,
) -> Result<Made, DoorFault>
    ensures made { IfOk result (λ made. IsMade (plan_for (map planned files.now) what.now) (label_of session what.now) made.parts.source made.parts.sink) }
    ensures label { IfOk result (λ made. made.label ≡ label_of session what.now) }
    ensures failed { IsErrOf result DoorFault.Failed ↔ IsTrue (is_none (plan_for (map planned files.now) what.now)) }
{
    let parts = parts_for(alloc, files, what)?;
    match labelled(alloc, parts, session, what) {
        Ok(made) => Ok(made),
        Err(NoMemory) => Err(DoorFault::NoMemory),
    }
}
