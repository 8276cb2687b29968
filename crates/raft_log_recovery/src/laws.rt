//! Laws of openings, each the contract of a call that does nothing.

ghost use Rattle.raft_log_recovery.specs.Crashed.{AnyFaultIsTolerated, CrashedPipesAreFound, OneDirectoryIsEnough, TornTailsAreOpened};

/// Whatever a crash leaves of a pipe whose files are the last ones of its queue, an opening finds
/// files that read as the batches on the disk and a front of the others, unless bytes that nobody
/// wrote pass as records.
pub fn crashed_pipes_are_found()
    ensures { CrashedPipesAreFound }
{}

/// Of a pipe of which a crash leaves at most the newest file torn, as of one that no call was refused
/// on (`pipes_are_torn_at_end`), an opening that tolerates a torn tail refuses no fault, unless a file
/// before the last one has no bytes.
pub fn torn_tails_are_opened()
    ensures { TornTailsAreOpened }
{}

/// An opening that tolerates any corruption refuses no fault of a file.
pub fn any_fault_is_tolerated()
    ensures { AnyFaultIsTolerated }
{}

/// Where there is no spill directory no two log files of a queue have one number.
pub fn one_directory_is_enough()
    ensures { OneDirectoryIsEnough }
{}
