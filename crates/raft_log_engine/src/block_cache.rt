//! The blocks of entries that were read last.
ghost use Rattle.std.specs.Prelude.{◌≡◌, ◌⊎◌, ◌+◌, ◌-◌, ◌^◌, ◌++◌, ℕ, List, IfSome, min};
ghost use Rattle.std.specs.Hash as fed;
ghost use Rattle.std.specs.Cmp.Rules.{hashing};
ghost use Rattle.std.proofs.Common.{rules};
ghost use Rattle.raft_log_engine.specs.Cached.{Keeps};
ghost use Rattle.raft_log_records.specs.declared.file_id.FileBlockHandle.{FileBlockHandle};

use lru::LruCache;
use raft_log_records::FileBlockHandle;
use std::alloc::Global;
use std::hash::{Hash, Hasher};
use std::num::NonZeroUsize;

/// So many blocks are kept.
const MOST_BLOCKS: usize = 8;

/// Where a block stands, as a key.
#[derive(Clone, Copy, PartialEq, Eq)]
pub(crate) struct BlockKey {
    handle: FileBlockHandle,
}

impl Hash for BlockKey {
    ghost hash_input = { λ key. fed.u64 key.handle.id.seq ++ fed.u64 key.handle.offset };

    ghost respects_eq = { Prim.search (hashing, rules) };

    fn hash<H: Hasher>(&self, state: &mut H) {
        state.write_u64(self.handle.id.seq);
        state.write_u64(self.handle.offset);
    }
}

/// The entries of blocks that were read last, 8 at most, and how many were read from files. Where
/// memory is lacking none is kept.
#[derive(Drop)]
pub(crate) struct BlockCache {
    alloc: Global,
    blocks: Option<LruCache<BlockKey, Vec<u8>>>,
    reads: u64,
}

impl BlockCache {
    /// No block yet. Takes no memory.
    pub(crate) fn new(alloc: Global) -> BlockCache
        ensures none { (handle : FileBlockHandle) (entries : List ℕ) → Keeps result handle entries → ⊥ }
        ensures reads { result.reads ≡ 0 }
    {
        BlockCache {
            alloc,
            blocks: None,
            reads: 0,
        }
    }

    /// How many blocks were read from files.
    pub(crate) fn reads(&self) -> u64
        ensures { result ≡ self.now.reads }
    {
        self.reads
    }

    /// One more block is read from its file. The count stays at its greatest number.
    pub(crate) fn count(&mut self)
        ensures kept { (handle : FileBlockHandle) (entries : List ℕ) → Keeps self.new handle entries → Keeps self.old handle entries }
        ensures reads { self.new.reads ≡ min (self.old.reads + 1) (2 ^ 64 - 1) }
    {
        self.reads = self.reads.saturating_add(1);
    }

    /// No block is kept any more. The count stays.
    pub(crate) fn clear(&mut self)
        ensures none { (handle : FileBlockHandle) (entries : List ℕ) → Keeps self.new handle entries → ⊥ }
        ensures reads { self.new.reads ≡ self.old.reads }
    {
        self.blocks = None;
    }

    /// The block at this place becomes the one that was used last, if it is kept.
    pub(crate) fn promote(&mut self, handle: FileBlockHandle)
        ensures kept { (at : FileBlockHandle) (entries : List ℕ) → Keeps self.new at entries → Keeps self.old at entries }
        ensures reads { self.new.reads ≡ self.old.reads }
    {
        if let Some(blocks) = &mut self.blocks {
            let _ = blocks.promote(&BlockKey { handle });
        }
    }

    /// The entries of the block at this place, if it is kept.
    pub(crate) fn find(&self, handle: FileBlockHandle) -> Option<&[u8]>
        ensures { IfSome result (λ entries. Keeps self.now handle entries.now) }
    {
        match &self.blocks {
            Some(blocks) => match blocks.peek(&BlockKey { handle }) {
                Some(entries) => Some(entries),
                None => None,
            },
            None => None,
        }
    }

    // Makes the cache, where there is memory for it.
    fn make(&mut self)
        ensures kept { (handle : FileBlockHandle) (entries : List ℕ) → Keeps self.new handle entries → Keeps self.old handle entries }
        ensures reads { self.new.reads ≡ self.old.reads }
    {
        if self.blocks.is_some() {
            return;
        }
        let Some(most) = NonZeroUsize::new(MOST_BLOCKS) else {
            return;
        };
        self.blocks = LruCache::new(self.alloc, most).ok();
    }

    /// Keeps a block, as the one that was used last. The one that wasn't used for longest goes.
    pub(crate) fn keep(&mut self, handle: FileBlockHandle, entries: Vec<u8>)
        ensures kept { (at : FileBlockHandle) (bytes : List ℕ) → Keeps self.new at bytes → Keeps self.old at bytes ⊎ (at ≡ handle) × (bytes ≡ entries.items) }
        ensures reads { self.new.reads ≡ self.old.reads }
    {
        self.make();
        if let Some(blocks) = &mut self.blocks {
            let _ = blocks.put(BlockKey { handle }, entries);
        }
    }
}
