// Laws of the keys of projections. Each function does nothing, and its contract is the law.
ghost use Rattle.key_finder.specs.Laws.{AgreeSetsTellKeys, EvidenceTellsKeys, SnapshotsTellKeys};

/// The minimal keys of a projection are those that the agree sets of all live rows leave.
pub fn agree_sets_tell_keys()
    ensures { AgreeSetsTellKeys }
{}

/// The minimal keys of a projection are those that any agree sets leave that leave the relation's covers.
pub fn evidence_tells_keys()
    ensures { EvidenceTellsKeys }
{}

/// The minimal keys of a projection are those that the agree sets of a snapshot leave that shows the rows.
pub fn snapshots_tell_keys()
    ensures { SnapshotsTellKeys }
{}
