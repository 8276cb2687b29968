//! A number of bytes.

ghost use Rattle.std.specs.Prelude.{◌≡◌, ◌<◌, ◌*◌, ◌^◌};

const KIB: u64 = 1024;

/// A number of bytes, made from larger units (raft-engine's `ReadableSize`).
#[derive(Clone, Copy, Debug, PartialEq, Eq, PartialOrd, Ord)]
pub struct ReadableSize(pub u64);

impl ReadableSize {
    /// So many times 1,024 bytes.
    pub const fn kb(count: u64) -> ReadableSize
        requires { count * 1024 < 2 ^ 64 }
        ensures { result.0 ≡ count * 1024 }
    {
        ReadableSize(count * KIB)
    }

    /// So many times 1,024^2 bytes.
    pub const fn mb(count: u64) -> ReadableSize
        requires { count * 1048576 < 2 ^ 64 }
        ensures { result.0 ≡ count * 1048576 }
    {
        ReadableSize(count * (KIB * KIB))
    }

    /// So many times 1,024^3 bytes.
    pub const fn gb(count: u64) -> ReadableSize
        requires { count * 1073741824 < 2 ^ 64 }
        ensures { result.0 ≡ count * 1073741824 }
    {
        ReadableSize(count * (KIB * KIB * KIB))
    }
}
