//! An append, and a sync behind it.
ghost use Rattle.std.specs.Prelude.{◌≡◌, ◌+◌, ◌^◌, ◌<◌, ◌++◌, ◌∷◌, [], ℕ, IfErr, IfOk, OnOk, OnErr, true};
ghost use Rattle.raft_log_disk.specs.Cause.{NothingRefuses, RefusesNoMore, Spends};
ghost use Rattle.raft_log_blocks.specs.Held.{HoldsMore};
ghost use Rattle.raft_log_pipe.specs.Alone.{IsAlone, IsNearlyAlone};
ghost use Rattle.raft_log_pipe.specs.Appending.{LeavesAppended, Stands};
ghost use Rattle.raft_log_pipe.specs.Blocks.{KeepsFiles};
ghost use Rattle.raft_log_pipe.specs.Caused.{IsAppendFault};
ghost use Rattle.raft_log_pipe.specs.Pipe.{Holds, IsPopulated, Numbered};
ghost use Rattle.raft_log_pipe.specs.Taken.{IsAppendTaken};
ghost use Rattle.raft_log_pipe.specs.Torn.{TearsAtEnd};
ghost use Rattle.raft_log_pipes.specs.Kept.{KeepSettings};
ghost use Rattle.raft_log_pipes.specs.Pipes.{ArePipes, IsAsBefore};
ghost use Rattle.raft_log_records.specs.Spelling.{AreItems, record_len};

use raft_log_files::{Error, FileSystem};
use raft_log_pipes::DualPipes;
use raft_log_records::{FileBlockHandle, LogBatch, LogQueue};

/// Appends a batch to the append queue, and syncs this queue where that is asked for.
pub(crate) fn append_batch<F: FileSystem>(
    files: &mut F,
    pipes: &mut DualPipes,
    batch: &mut LogBatch,
    sync: bool,
) -> Result<FileBlockHandle, Error>
    requires pipes { ArePipes pipes.old (F.disk files.old) }
    requires populated { IsPopulated batch.old }
    requires items { AreItems batch.old.items }
    ensures pipes { OnOk result (ArePipes pipes.new (F.disk files.new)) }
    ensures paths { pipes.new.append.paths ≡ pipes.old.append.paths }
    ensures set { KeepSettings pipes.old pipes.new }
    ensures alone { OnOk result (IsAlone pipes.old.append (F.disk files.old) → IsAlone pipes.new.append (F.disk files.new)) }
    ensures nearly { OnErr result (IsAlone pipes.old.append (F.disk files.old) → IsNearlyAlone pipes.new.append (F.disk files.new)) }
    ensures other { IsAsBefore pipes.old.rewrite (F.disk files.old) pipes.new.rewrite (F.disk files.new) }
    ensures batch { batch.new.items ≡ batch.old.items }
    ensures files { OnOk result (KeepsFiles pipes.old.append pipes.new.append) }
    ensures ok { IfOk result (λ h. (synced unsynced : Numbered) → Holds pipes.old.append (F.disk files.old) synced unsynced
        → HoldsMore pipes.new.append (F.disk files.new) sync synced (unsynced ++ (h.id.seq, batch.old.items) ∷ [])) }
    ensures stands { IfOk result (Stands pipes.old.append (F.disk files.old) pipes.new.append batch.old.items) }
    ensures err { OnErr result ((synced unsynced : Numbered) → Holds pipes.old.append (F.disk files.old) synced unsynced
        → LeavesAppended pipes.new.append (F.disk files.new) synced unsynced batch.old.items) }
    ensures torn { OnErr result (TearsAtEnd pipes.old.append (F.disk files.old) pipes.new.append (F.disk files.new)) }
    ensures fits { IfOk result (λ h. h.offset + record_len batch.old.items < 2 ^ 64) }
    ensures later { RefusesNoMore (F.is_bounded files.old) (F.is_bounded files.new) (F.meter files.old) (F.meter files.new) }
    ensures taken { NothingRefuses (F.is_bounded files.old) (F.meter files.old) → IsAppendTaken pipes.old.append (F.disk files.old) batch.old.items result }
    ensures cause { IfErr result (λ e. IsAppendFault pipes.old.append (F.disk files.old) (F.meter files.old) (F.meter files.new) e) }
    ensures spends { OnOk result (sync ≡ true → Spends (F.meter files.old) (F.meter files.new)) }
{
    let handle = pipes.append(files, LogQueue::Append, batch)?;
    if !sync {
        return Ok(handle);
    }
    pipes.sync(files, LogQueue::Append)?;
    Ok(handle)
}
