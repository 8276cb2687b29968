//! Laws of the spellings and of streams, each the contract of a call that does nothing.
ghost use Rattle.raft_wire.specs.StreamLaws.{FoundIsSpelled, SpelledIsFound, RefusedIsNoFrame, FoundStays};
ghost use Rattle.raft_wire.specs.StreamLaws.{WaitsOnlySoLong, NoFrameBeginsAnother, NoEntryBeginsAnother};
ghost use Rattle.raft_wire.specs.StreamLaws.{FramesAreShort};
ghost use Rattle.raft_wire.specs.Cuts.{CallsSayTheStream, StreamsSayOneThing, CutsDontMatter};

/// A frame that stands at the front of a stream is spelled so.
pub fn found_frames_are_spelled_so()
    ensures { FoundIsSpelled }
{}

/// A frame that is spelled so is found at the front, whatever follows it.
pub fn spelled_frames_are_found()
    ensures { SpelledIsFound }
{}

/// Where a fault is found no frame begins, however the stream goes on.
pub fn refused_streams_begin_no_frame()
    ensures { RefusedIsNoFrame }
{}

/// What is found at the front of a stream stays, whatever follows.
pub fn found_stays()
    ensures { FoundStays }
{}

/// A feeder waits only until the length is whole and, where it fits, the frame's last byte is there.
pub fn feeders_wait_only_so_long()
    ensures { WaitsOnlySoLong }
{}

/// No spelling of a frame begins another, and none of an entry.
pub fn no_spelling_begins_another()
    ensures frames { NoFrameBeginsAnother }
    ensures entries { NoEntryBeginsAnother }
{}

/// A frame within the limits of its parts is within the limit of frames.
pub fn frames_are_short()
    ensures { FramesAreShort }
{}

/// What calls of a feeder answer is what the bytes say that they took, and a stream says one thing.
/// So calls that took the same bytes in other pieces answered the same frames and faults.
pub fn cuts_do_not_matter()
    ensures calls { CallsSayTheStream }
    ensures one_thing { StreamsSayOneThing }
    ensures cuts { CutsDontMatter }
{}
