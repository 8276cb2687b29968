//! The items of a path's log files.

ghost use Rattle.std.specs.Prelude.{◌≡◌, ◌∷◌, List, IfOk, IfErr, map};
ghost use Rattle.raft_log_items.specs.Found.{Found};
ghost use Rattle.raft_log_items.specs.Items.{IsReading, file_items, files_left, nothing};
ghost use Rattle.raft_log_tools.specs.Paths.{IsPathFault, StandsFor};

use raft_log_files::{Error, FileSystem};
use raft_log_items::LogItemReader;
use std::alloc::Global;

/// A reader of what stands in log files (raft-engine's `Engine::dump_with_file_system`): of all those
/// of a directory, or of the one that a path names. The rewrite queue's come first, then the append
/// queue's, each by rising numbers. A path that isn't there, and a file's that isn't a log file's
/// name, are `InvalidArgument`. Nothing is opened yet, and no file changes.
pub fn dump<F: FileSystem>(files: &F, alloc: Global, path: &str) -> Result<LogItemReader, Error>
    ensures ok { IfOk result (λ r. (found : List Found) × StandsFor (F.disk files.now) path.now found
        × (files_left r (F.disk files.now) ≡ nothing ∷ map (file_items (F.disk files.now)) found)) }
    ensures reading { IfOk result (λ r. IsReading r (F.disk files.now)) }
    ensures err { IfErr result (λ e. IsPathFault (F.disk files.now) path.now e) }
{
    if files.is_dir(path) {
        LogItemReader::new_directory_reader(files, alloc, path)
    } else {
        LogItemReader::new_file_reader(files, alloc, path)
    }
}
