//! The file system in memory stops and crashes.

use crate::crashing::{check_chance, check_images, crash_all, names_files};
use crate::memory::MemoryFileSystem;
use crate::{CrashChoice, CrashFiles, CrashRefusal};

impl CrashFiles for MemoryFileSystem {
    fn fuse(&mut self, first_refused: Option<u64>) {
        self.fuse.calls_left = match first_refused {
            None => None,
            Some(first) => Some(first.saturating_sub(1)),
        };
    }

    fn refuse_reads(&mut self, paths: Vec<String>) {
        self.fuse.unreadable = paths;
    }

    fn crash(&mut self, choice: &CrashChoice) -> Result<(), CrashRefusal> {
        self.may_crash(choice)?;
        let Ok(files) = crash_all(self.alloc, &self.files, choice) else {
            return Err(CrashRefusal::Memory);
        };
        self.files = files;
        Ok(())
    }

    fn may_crash(&self, choice: &CrashChoice) -> Result<(), CrashRefusal> {
        if !names_files(choice, &self.files) {
            return Err(CrashRefusal::NotAnImage);
        }
        match check_images(self.alloc, &self.files, choice) {
            Err(refusal) => Err(refusal),
            Ok(()) => check_chance(self.alloc, &self.files, choice),
        }
    }
}
