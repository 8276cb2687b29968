//! Laws of pipes, each the contract of a call that does nothing.

ghost use Rattle.raft_log_disk.specs.Disk.{Disk};
ghost use Rattle.raft_log_pipe.specs.Pipe.{Holds, Leaves, Numbered};
ghost use Rattle.raft_log_pipe.specs.Torn.{TearsAtEnd};
ghost use Rattle.raft_log_pipe.specs.declared.pipe.SinglePipe.{SinglePipe};

/// Whatever a crash leaves of a pipe reads as the batches that are on the disk and a front of the
/// others, unless bytes that nobody wrote pass as records.
pub fn pipes_leave_a_front()
    ensures { (p : SinglePipe) (d : Disk) (synced unsynced : Numbered) → Holds p d synced unsynced → Leaves p d synced unsynced }
{}

/// Whatever a crash leaves of a pipe whose files are the last ones of its queue, at most the newest
/// of them is torn.
pub fn pipes_are_torn_at_end()
    ensures { (p : SinglePipe) (d : Disk) → TearsAtEnd p d p d }
{}
