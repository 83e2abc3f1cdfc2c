//! Laws of names.
ghost use Rattle.std.specs.Prelude.{◌≡◌};
ghost use Rattle.hq_value.specs.declared.entry.FileId.{FileId};
ghost use Rattle.hq_dir.specs.LaneNames.{lane_name, FitsId, BeginsAsLane};

/// No two files of lanes have one name, and each name begins with `t` and a digit.
pub fn lane_files_have_names_of_their_own()
    ensures own { (a b : FileId) → FitsId a → FitsId b → lane_name a ≡ lane_name b → a ≡ b }
    ensures begins { (id : FileId) → FitsId id → BeginsAsLane (lane_name id) }
{}
