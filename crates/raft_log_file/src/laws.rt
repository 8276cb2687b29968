//! Laws of one log file, each the contract of a call that does nothing.

ghost use Rattle.raft_log_file.specs.Laws.{StillFilesReadTheSame, SyncedFilesReadTheSame, WrittenBatchesAreRead};
ghost use Rattle.raft_log_file.specs.Unsynced.{RecycledFilesBegin, RoomStaysUnread, SyncedBatchesBegin, UnsyncedBatchesAreAFront, UnsyncedBatchesGrow};

/// Whatever a crash leaves of a file that has nothing unsynced reads as the file does: the same
/// batches, up to the same place, with the same fault behind them.
pub fn synced_files_read_the_same()
    ensures still { StillFilesReadTheSame }
    ensures synced { SyncedFilesReadTheSame }
{}

/// Batches whose records were written behind a header are read as they were, whatever follows them:
/// then reading goes on behind the last of them.
pub fn written_batches_are_read()
    ensures { WrittenBatchesAreRead }
{}

/// Whatever a crash leaves of a file with unsynced batches reads as the synced ones and a front of
/// the others, unless bytes that nobody wrote pass as records. One more record at the end, also one
/// whose write was refused, is one more such batch; room behind them isn't read. A file of batches
/// that is synced has none unsynced, and a recycled file has none at all once its header is synced.
pub fn unsynced_batches_are_a_front()
    ensures front { UnsyncedBatchesAreAFront }
    ensures grows { UnsyncedBatchesGrow }
    ensures room { RoomStaysUnread }
    ensures begins { SyncedBatchesBegin }
    ensures recycled { RecycledFilesBegin }
{}
