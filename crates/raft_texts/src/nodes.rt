//! Why frames aren't read, and why stores, clusters and scripts refuse.

use crate::texts::print_texts;
use raft_cluster::RoundRefusal;
use raft_cluster_conditions::ClusterRefusal;
use raft_script_lines::{NoEvent, ReadLineError};
use raft_store::StoreRefusal;
use raft_wire::{FrameError, FrameFault};
use std::io;

fn print_frames(rt: &impl Print) -> io::Result<()> {
    print_texts(
        rt,
        "FrameError",
        &[
            FrameError::Fault(FrameFault::TooLong),
            FrameError::Fault(FrameFault::BadKind),
            FrameError::Fault(FrameFault::BadTag),
            FrameError::Fault(FrameFault::NotRising),
            FrameError::Fault(FrameFault::NotUtf8),
            FrameError::Fault(FrameFault::TrailingBytes),
            FrameError::Fault(FrameFault::CutShort),
            FrameError::StreamFailed,
            FrameError::Memory,
        ],
    )
}

fn print_stores(rt: &impl Print) -> io::Result<()> {
    print_texts(
        rt,
        "StoreRefusal",
        &[
            StoreRefusal::Memory,
            StoreRefusal::Gap,
            StoreRefusal::BelowPurge,
            StoreRefusal::NoPlace,
            StoreRefusal::TooLong,
            StoreRefusal::Value(FrameFault::BadTag),
            StoreRefusal::BadEnd,
        ],
    )
}

fn print_clusters(rt: &impl Print) -> io::Result<()> {
    print_texts(
        rt,
        "ClusterRefusal",
        &[
            ClusterRefusal::NoNode,
            ClusterRefusal::NodeDown,
            ClusterRefusal::NodeUp,
            ClusterRefusal::NoFrame,
            ClusterRefusal::SetupDiffers,
            ClusterRefusal::ByChance,
            ClusterRefusal::NotAnImage,
            ClusterRefusal::BadCut,
        ],
    )?;
    print_texts(
        rt,
        "RoundRefusal",
        &[RoundRefusal::SameNode, RoundRefusal::Memory],
    )
}

fn print_scripts(rt: &impl Print) -> io::Result<()> {
    print_texts(
        rt,
        "NoEvent",
        &[
            NoEvent::TooLong,
            NoEvent::NotUtf8,
            NoEvent::SpareSpace,
            NoEvent::UnknownWord,
            NoEvent::WrongCount,
            NoEvent::NotANumber,
            NoEvent::OutOfRange,
            NoEvent::IdTwice,
            NoEvent::UnknownChoice,
        ],
    )?;
    print_texts(
        rt,
        "ReadLineError",
        &[
            ReadLineError::NoEvent(NoEvent::TooLong),
            ReadLineError::Memory,
        ],
    )
}

pub fn print(rt: &impl Print) -> io::Result<()> {
    print_frames(rt)?;
    print_stores(rt)?;
    print_clusters(rt)?;
    print_scripts(rt)
}
