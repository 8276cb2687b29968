//! Indexes that may be none.
ghost use Rattle.std.specs.Prelude.{◌≡◌, ◌+◌, ◌<◌, ◌^◌, Option, ℕ, IsSome};
ghost use Rattle.raft_values.specs.LogIndex.{next_of, place_before};

/// The indexes before and behind one that may be none (openraft).
pub trait LogIndexOptionExt {
    // The index, if there is one.
    ghost place: { Self → Option ℕ };

    /// The index behind it; 0 behind none.
    fn next_index(&self) -> u64
        requires { next_of (place self.now) < 2 ^ 64 }
        ensures { result ≡ next_of (place self.now) };

    /// The index before it; none before 0. None itself has none before it.
    fn prev_index(&self) -> Self
        requires { IsSome (place self.now) }
        ensures { next_of (place result) + 1 ≡ next_of (place self.now) };

    /// The index so many places behind it; none counts as the place before 0.
    fn add(&self, v: u64) -> Self
        requires { next_of (place self.now) + v < 2 ^ 64 }
        ensures { next_of (place result) ≡ next_of (place self.now) + v };
}

impl LogIndexOptionExt for Option<u64> {
    ghost place = { λ index. index };

    fn next_index(&self) -> u64 {
        match self {
            None => 0,
            Some(index) => *index + 1,
        }
    }

    fn prev_index(&self) -> Option<u64> {
        match self {
            None => None,
            Some(index) => index.checked_sub(1),
        }
    }

    fn add(&self, v: u64) -> Option<u64> {
        (self.next_index() + v).checked_sub(1)
    }
}
