//! How long an engine waits.
ghost use Rattle.std.specs.Prelude.{◌≡◌};

/// How long an engine waits, in ticks (openraft, which has milliseconds).
#[derive(Clone, Copy, PartialEq, Eq)]
pub struct Config {
    /// A follower stands for election once it has heard nothing for this long.
    pub election_timeout: u64,
    /// A node that knows of a greater log than its own waits this much longer.
    pub smaller_log_timeout: u64,
    /// A vote that is granted to a leader bars others for this long after it was renewed.
    pub leader_lease: u64,
}

impl Default for Config {
    ghost is_default = { λ x. x ≡ record { election_timeout = 150; smaller_log_timeout = 200; leader_lease = 150 } };

    fn default() -> Config {
        Config {
            election_timeout: 150,
            smaller_log_timeout: 200,
            leader_lease: 150,
        }
    }
}
