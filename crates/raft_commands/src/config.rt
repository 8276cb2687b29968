//! What a runtime is set up with.
ghost use Rattle.std.specs.Prelude.{◌≡◌};

/// What a runtime is set up with; times are in ticks (openraft, of which the parts that need
/// tasks, files or a clock are left out).
#[derive(Clone, Copy, PartialEq, Eq)]
pub struct Config {
    /// A leader sends a heartbeat this often.
    pub heartbeat_interval: u64,
    /// A follower stands for election after at least this long.
    pub election_timeout_min: u64,
    /// A follower stands for election after less than this long.
    pub election_timeout_max: u64,
}

impl Default for Config {
    ghost is_default = { λ x. x ≡ record { heartbeat_interval = 50; election_timeout_min = 150; election_timeout_max = 300 } };

    fn default() -> Config {
        Config {
            heartbeat_interval: 50,
            election_timeout_min: 150,
            election_timeout_max: 300,
        }
    }
}
