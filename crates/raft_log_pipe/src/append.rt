//! Appends to a pipe.

ghost use Rattle.std.specs.Prelude.{◌≡◌, ◌⊎◌, ◌+◌, ◌-◌, ◌<◌, ◌≤◌, ◌^◌, ◌++◌, ◌∷◌, [], length, min, IfErr, IfOk, IsErrOf, OnOk, OnErr};
ghost use Rattle.raft_log_records.specs.Spelling.{AreItems, record_len};
ghost use Rattle.raft_log_disk.specs.declared.fault.IoFault.TheVariants.{NoSpace};
ghost use Rattle.raft_log_disk.specs.Cause.{IsTaken, Lacks, NothingRefuses, RefusesNoMore, Rises, UnlessRefused};
ghost use Rattle.raft_log_file.specs.Writer.{IsWriter};
ghost use Rattle.raft_log_pipe.specs.Alone.{IsAlone, IsNearlyAlone};
ghost use Rattle.raft_log_pipe.specs.Kept.{KeepsSettings};
ghost use Rattle.raft_log_pipe.specs.Others.{KeepsOthers};
ghost use Rattle.raft_log_pipe.specs.Pipe.{IsPipe, IsPopulated, Holds, Leaves, Numbered, first_of};
ghost use Rattle.raft_log_pipe.specs.Appending.{IsHandle, Appends, LeavesAppended, Stands};
ghost use Rattle.raft_log_pipe.specs.Blocks.{KeepsFiles};
ghost use Rattle.raft_log_pipe.specs.Caused.{IsAppendFault, IsCaused, IsGivenUpFault, IsSecondAppendFault, LacksPlace};
ghost use Rattle.raft_log_pipe.specs.Purging.{AreLastOf};
ghost use Rattle.raft_log_pipe.specs.Torn.{TearsAtEnd};
ghost use Rattle.raft_log_pipe.specs.Taken.{IsAppendTaken, IsBarred, IsFull, IsRotationTaken, IsTakenBy, IsTooLarge, IsUnmade, IsUnnumbered};

use crate::pipe::SinglePipe;
use raft_log_files::{Error, FileSystem, IoFault};
use raft_log_records::{FileBlockHandle, FileId, LogBatch, LogFileContext};

impl SinglePipe {
    /// Appends a batch to the last file.
    fn put<F: FileSystem>(
        &mut self,
        files: &mut F,
        batch: &mut LogBatch,
    ) -> Result<FileBlockHandle, IoFault>
        requires pipe { IsPipe self.old (F.disk files.old) }
        requires populated { IsPopulated batch.old }
        requires items { AreItems batch.old.items }
        ensures pipe { IsPipe self.new (F.disk files.new) }
        ensures same { (self.new.active ≡ self.old.active) × (self.new.older ≡ self.old.older) × (self.new.queue ≡ self.old.queue) }
        ensures paths { self.new.paths ≡ self.old.paths }
        ensures reserved { self.new.reserved ≡ self.old.reserved }
        ensures set { KeepsSettings self.old self.new }
        ensures others { KeepsOthers self.old.queue (F.disk files.old) (F.disk files.new) }
        ensures names { (F.disk files.new).names ≡ (F.disk files.old).names }
        ensures batch { (batch.new.items ≡ batch.old.items) × IsPopulated batch.new }
        ensures ok { IfOk result (λ h. IsHandle self.old batch.old.items h × ((synced : Numbered) (unsynced : Numbered) → Holds self.old (F.disk files.old) synced unsynced
            → Holds self.new (F.disk files.new) synced (unsynced ++ (self.old.active.seq, batch.old.items) ∷ []))) }
        ensures stands { IfOk result (Stands self.old (F.disk files.old) self.new batch.old.items) }
        ensures err { OnErr result ((synced : Numbered) (unsynced : Numbered) → Holds self.old (F.disk files.old) synced unsynced
            → Leaves self.new (F.disk files.new) synced (unsynced ++ (self.old.active.seq, batch.old.items) ∷ [])) }
        ensures torn { OnErr result (TearsAtEnd self.old (F.disk files.old) self.new (F.disk files.new)) }
        ensures unwritten { UnlessRefused result ((synced : Numbered) (unsynced : Numbered) → Holds self.old (F.disk files.old) synced unsynced
            → Holds self.new (F.disk files.new) synced unsynced) }
        ensures next { (F.disk files.new).next ≡ (F.disk files.old).next }
        ensures later { RefusesNoMore (F.is_bounded files.old) (F.is_bounded files.new) (F.meter files.old) (F.meter files.new) }
        ensures taken { NothingRefuses (F.is_bounded files.old) (F.meter files.old) → IsTaken ⊥ (IsTooLarge self.old batch.old.items) result }
        ensures fits { IfOk result (λ h. h.offset + record_len batch.old.items < 2 ^ 64) }
        ensures cause { IsTaken ⊥ (Rises 1 (F.meter files.old) (F.meter files.new)) result }
        ensures lacks { IsErrOf result NoSpace → Lacks 1 (F.meter files.old) (F.meter files.new) }
    {
        let id = FileId::new(self.queue, self.active.seq);
        let context = LogFileContext::new(id, self.active.format.version);
        batch.prepare_write(&context);
        let offset = self.writer.offset();
        let bytes = batch.encoded_bytes();
        if let Err(fault) = self.writer.write(files, bytes, self.target_file_size) {
            return Err(fault);
        }
        // Read, so that the record is known to end at a number.
        let _end = self.writer.offset();
        Ok(FileBlockHandle {
            id,
            offset,
            len: bytes.len() as u64,
        })
    }

    /// Goes on with a new file where the last one has reached the target size.
    fn make_room<F: FileSystem>(&mut self, files: &mut F) -> Result<(), Error>
        requires pipe { IsPipe self.old (F.disk files.old) }
        ensures pipe { OnOk result (IsPipe self.new (F.disk files.new)) }
        ensures writer { IsWriter self.new.writer (F.disk files.new) }
        ensures queue { self.new.queue ≡ self.old.queue }
        ensures paths { self.new.paths ≡ self.old.paths }
        ensures reserved { AreLastOf self.old.reserved.items self.new.reserved.items }
        ensures set { KeepsSettings self.old self.new }
        ensures others { KeepsOthers self.old.queue (F.disk files.old) (F.disk files.new) }
        ensures alone { OnOk result (IsAlone self.old (F.disk files.old) → IsAlone self.new (F.disk files.new)) }
        ensures nearly { OnErr result (IsAlone self.old (F.disk files.old) → IsNearlyAlone self.new (F.disk files.new)) }
        ensures files { OnOk result (KeepsFiles self.old self.new) }
        ensures first { OnOk result (first_of self.new ≡ first_of self.old) }
        ensures ok { OnOk result ((synced : Numbered) (unsynced : Numbered) → Holds self.old (F.disk files.old) synced unsynced
            → Holds self.new (F.disk files.new) synced unsynced ⊎ Holds self.new (F.disk files.new) (synced ++ unsynced) []) }
        ensures err { OnErr result ((synced : Numbered) (unsynced : Numbered) → Holds self.old (F.disk files.old) synced unsynced → Leaves self.new (F.disk files.new) synced unsynced) }
        ensures torn { OnErr result (TearsAtEnd self.old (F.disk files.old) self.new (F.disk files.new)) }
        ensures room { OnOk result (((self.new ≡ self.old) × (F.disk files.new ≡ F.disk files.old)) ⊎ (self.new.writer.offset ≤ 69)) }
        ensures later { RefusesNoMore (F.is_bounded files.old) (F.is_bounded files.new) (F.meter files.old) (F.meter files.new) }
        ensures taken { NothingRefuses (F.is_bounded files.old) (F.meter files.old) → IsTakenBy (IsFull self.old × IsUnnumbered self.old)
            (IsFull self.old × IsUnmade self.old (F.disk files.old)) (IsFull self.old × IsBarred self.old (F.disk files.old)) result }
        ensures begins { OnOk result ((self.new.active ≡ self.old.active) ⊎ (IsFull self.old × (self.new.active.seq ≡ self.old.active.seq + 1))) }
        ensures cause { IfErr result (λ e. IsCaused (Rises 1 (F.meter files.old) (F.meter files.new)) ⊥
            (IsFull self.old × IsUnnumbered self.old) (IsFull self.old × LacksPlace self.old (F.disk files.old) 1) e) }
    {
        if self.writer.offset() < self.target_file_size {
            return Ok(());
        }
        self.rotate(files)
    }

    /// Appends a batch, written as a record, and answers where the record stands. It goes to the
    /// last file, or to a new one where that has reached the target size. Where there is no space
    /// the file is rotated and the batch appended once more; then `TryAgain` tells of want of space.
    /// After an `Err` a crash leaves at most the newest file torn.
    pub fn append<F: FileSystem>(
        &mut self,
        files: &mut F,
        batch: &mut LogBatch,
    ) -> Result<FileBlockHandle, Error>
        requires pipe { IsPipe self.old (F.disk files.old) }
        requires populated { IsPopulated batch.old }
        requires items { AreItems batch.old.items }
        ensures pipe { OnOk result (IsPipe self.new (F.disk files.new)) }
        ensures writer { IsWriter self.new.writer (F.disk files.new) }
        ensures queue { self.new.queue ≡ self.old.queue }
        ensures paths { self.new.paths ≡ self.old.paths }
        ensures reserved { AreLastOf self.old.reserved.items self.new.reserved.items }
        ensures set { KeepsSettings self.old self.new }
        ensures others { KeepsOthers self.old.queue (F.disk files.old) (F.disk files.new) }
        ensures alone { OnOk result (IsAlone self.old (F.disk files.old) → IsAlone self.new (F.disk files.new)) }
        ensures nearly { OnErr result (IsAlone self.old (F.disk files.old) → IsNearlyAlone self.new (F.disk files.new)) }
        ensures batch { batch.new.items ≡ batch.old.items }
        ensures files { OnOk result (KeepsFiles self.old self.new) }
        ensures first { OnOk result (first_of self.new ≡ first_of self.old) }
        ensures ok { IfOk result (λ h. Appends self.old (F.disk files.old) self.new (F.disk files.new) h.id.seq batch.old.items) }
        ensures stands { IfOk result (Stands self.old (F.disk files.old) self.new batch.old.items) }
        ensures err { OnErr result ((synced : Numbered) (unsynced : Numbered) → Holds self.old (F.disk files.old) synced unsynced
            → LeavesAppended self.new (F.disk files.new) synced unsynced batch.old.items) }
        ensures torn { OnErr result (TearsAtEnd self.old (F.disk files.old) self.new (F.disk files.new)) }
        ensures later { RefusesNoMore (F.is_bounded files.old) (F.is_bounded files.new) (F.meter files.old) (F.meter files.new) }
        ensures taken { NothingRefuses (F.is_bounded files.old) (F.meter files.old) → IsAppendTaken self.old (F.disk files.old) batch.old.items result }
        ensures fits { IfOk result (λ h. h.offset + record_len batch.old.items < 2 ^ 64) }
        ensures cause { IfErr result (λ e. IsAppendFault self.old (F.disk files.old) (F.meter files.old) (F.meter files.new) e) }
    {
        self.make_room(files)?;
        match self.put(files, batch) {
            Ok(handle) => Ok(handle),
            Err(IoFault::NoSpace) => self.put_again(files, batch),
            Err(fault) => Err(Error::from(fault)),
        }
    }

    /// Appends a batch once more, to a new file: the append before found no space, and what it left
    /// is cut away. Without space again that file is ended too.
    fn put_again<F: FileSystem>(
        &mut self,
        files: &mut F,
        batch: &mut LogBatch,
    ) -> Result<FileBlockHandle, Error>
        requires pipe { IsPipe self.old (F.disk files.old) }
        requires populated { IsPopulated batch.old }
        requires items { AreItems batch.old.items }
        ensures pipe { OnOk result (IsPipe self.new (F.disk files.new)) }
        ensures writer { IsWriter self.new.writer (F.disk files.new) }
        ensures queue { self.new.queue ≡ self.old.queue }
        ensures paths { self.new.paths ≡ self.old.paths }
        ensures reserved { AreLastOf self.old.reserved.items self.new.reserved.items }
        ensures set { KeepsSettings self.old self.new }
        ensures others { KeepsOthers self.old.queue (F.disk files.old) (F.disk files.new) }
        ensures alone { OnOk result (IsAlone self.old (F.disk files.old) → IsAlone self.new (F.disk files.new)) }
        ensures nearly { OnErr result (IsAlone self.old (F.disk files.old) → IsNearlyAlone self.new (F.disk files.new)) }
        ensures batch { batch.new.items ≡ batch.old.items }
        ensures files { OnOk result (KeepsFiles self.old self.new) }
        ensures first { OnOk result (first_of self.new ≡ first_of self.old) }
        ensures ok { IfOk result (λ h. Appends self.old (F.disk files.old) self.new (F.disk files.new) h.id.seq batch.old.items) }
        ensures stands { IfOk result (Stands self.old (F.disk files.old) self.new batch.old.items) }
        ensures err { OnErr result ((synced : Numbered) (unsynced : Numbered) → Holds self.old (F.disk files.old) synced unsynced
            → LeavesAppended self.new (F.disk files.new) synced unsynced batch.old.items) }
        ensures torn { OnErr result (TearsAtEnd self.old (F.disk files.old) self.new (F.disk files.new)) }
        ensures later { RefusesNoMore (F.is_bounded files.old) (F.is_bounded files.new) (F.meter files.old) (F.meter files.new) }
        ensures taken { NothingRefuses (F.is_bounded files.old) (F.meter files.old) → IsRotationTaken self.old (F.disk files.old) result }
        ensures fits { IfOk result (λ h. h.offset + record_len batch.old.items < 2 ^ 64) }
        ensures cause { IfErr result (λ e. IsSecondAppendFault self.old (F.disk files.old) (F.meter files.old) (F.meter files.new) e) }
    {
        self.finish(files)?;
        match self.go_on(files) {
            Ok(()) => {}
            Err(fault) => return Err(Error::of_second_append(fault)),
        }
        match self.put(files, batch) {
            Ok(handle) => Ok(handle),
            Err(IoFault::NoSpace) => Err(self.give_up(files)),
            Err(fault) => Err(Error::from(fault)),
        }
    }

    /// Ends the file in which the second append found no space, and goes on with a new one: the
    /// next append begins there.
    fn give_up<F: FileSystem>(&mut self, files: &mut F) -> Error
        requires { IsPipe self.old (F.disk files.old) }
        ensures writer { IsWriter self.new.writer (F.disk files.new) }
        ensures queue { self.new.queue ≡ self.old.queue }
        ensures paths { self.new.paths ≡ self.old.paths }
        ensures reserved { AreLastOf self.old.reserved.items self.new.reserved.items }
        ensures set { KeepsSettings self.old self.new }
        ensures others { KeepsOthers self.old.queue (F.disk files.old) (F.disk files.new) }
        ensures nearly { IsAlone self.old (F.disk files.old) → IsNearlyAlone self.new (F.disk files.new) }
        ensures leaves { (synced : Numbered) (unsynced : Numbered) → Holds self.old (F.disk files.old) synced unsynced → Leaves self.new (F.disk files.new) synced unsynced }
        ensures torn { TearsAtEnd self.old (F.disk files.old) self.new (F.disk files.new) }
        ensures later { RefusesNoMore (F.is_bounded files.old) (F.is_bounded files.new) (F.meter files.old) (F.meter files.new) }
        ensures cause { IsGivenUpFault self.old (F.disk files.old) (F.meter files.old) (F.meter files.new) result }
    {
        if let Err(error) = self.finish(files) {
            return error;
        }
        match self.go_on(files) {
            Ok(()) => Error::TryAgain,
            Err(fault) => Error::of_second_append(fault),
        }
    }
}
