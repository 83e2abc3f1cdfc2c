//! The names of a folder's files and folders.
ghost use Rattle.std.specs.Prelude.{◌≡◌, IfOk, string_bytes};
ghost use Rattle.hq_dir.specs.LaneNames.{lane_path, node_path};

use hq_value::{FileId, NoMemory};
use std::alloc::{AllocError, Global};
use std::marker::Model;

/// Where the file of a lane lies in a folder.
#[derive(Drop)]
pub(crate) struct LanePath {
    id: FileId,
    text: String,
}

impl Model for LanePath {
    ghost use Rattle.std.specs.Prelude.{string_bytes};
    ghost use Rattle.hq_dir.specs.LaneNames.{PathOfLane};

    ghost Value = { PathOfLane };

    ghost view = { λ p. record { id = p.id; bytes = string_bytes p.text } };
}

impl LanePath {
    pub(crate) fn new(alloc: Global, folder: &str, id: FileId) -> Result<LanePath, NoMemory>
        ensures id { IfOk result (λ path. path.id ≡ id) }
        ensures bytes { IfOk result (λ path. path.bytes ≡ lane_path folder.now id) }
    {
        let FileId {
            table,
            lane,
            bucket,
        } = id;
        let text = format!(in alloc; "{folder}/t{table}-l{lane}-b{bucket}")?;
        Ok(LanePath { id, text })
    }

    pub(crate) fn id(&self) -> FileId
        ensures { result ≡ self.now.id }
    {
        self.id
    }

    pub(crate) fn as_str(&self) -> &str
        ensures { result.now ≡ self.now.bytes }
    {
        self.text.as_str()
    }
}

/// Where the folder of a node lies in a folder.
pub(crate) fn node_path(alloc: Global, folder: &str, node: u8) -> Result<String, AllocError>
    ensures { IfOk result (λ path. string_bytes path ≡ node_path folder.now node) }
{
    let path = format!(in alloc; "{folder}/seg-{node}")?;
    Ok(path)
}

/// Where a file is made and removed, to see whether a folder can be written.
pub(crate) fn probe_path(alloc: Global, folder: &str) -> Result<String, AllocError> {
    format!(in alloc; "{folder}/hawq-probe")
}
