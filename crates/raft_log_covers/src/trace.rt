//! What memtables keep for cleaning.

ghost use Rattle.std.specs.Prelude.{ℕ, List};
ghost use Rattle.raft_log_covers.specs.Trace.{ChangesKeepBounds, ChangesKeepKnown, TracesTellMarks};
ghost use Rattle.raft_log_covers.specs.Trace.{RewritesKeepBounds, RewritesKeepKnown, TracesLetGo};
ghost use Rattle.raft_log_covers.specs.Trace.{ChangesKeepRemoved};
ghost use Rattle.raft_log_covers.specs.Trace.{ChangesKeepFiles, RewritesKeepFiles};

/// By what memtables keep of a group, its cells were changed in no earlier append file than the
/// one that they have for it.
pub fn traces_bound_the_account()
    ensures changes { ChangesKeepBounds (List ℕ) }
    ensures rewrites { RewritesKeepBounds (List ℕ) }
    ensures let_go { TracesLetGo (List ℕ) }
{}

/// What memtables keep of a group tells the marks of what was removed from it.
pub fn traces_tell_marks()
    ensures known { ChangesKeepKnown (List ℕ) }
    ensures removed { ChangesKeepRemoved (List ℕ) }
    ensures rewrites { RewritesKeepKnown (List ℕ) }
    ensures marks { TracesTellMarks (List ℕ) }
{}

/// For each entry and each key that is there, what memtables keep is the very append file in which
/// it stands, or none where it stands in the rewrite queue.
pub fn traces_tell_files()
    ensures changes { ChangesKeepFiles (List ℕ) }
    ensures rewrites { RewritesKeepFiles (List ℕ) }
{}
