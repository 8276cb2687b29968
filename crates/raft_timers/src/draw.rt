//! How long a voter waits for its leader: a time by chance.
ghost use Rattle.std.specs.Prelude.{◌≡◌, ◌≤◌};
ghost use Rattle.rand_xoshiro.specs.SplitMix64.{mix_u64, next_state};
ghost use Rattle.raft_timers.specs.Draw.{timeout_of};

use crate::config::TimerConfig;
use rand_core::utils::NextWord;
use rand_xoshiro::SplitMix64;

/// An election timeout in ticks, drawn by the next word of the generator (SplitMix64), within the
/// two bounds of the settings.
pub fn draw_timeout(config: &TimerConfig, random: &mut SplitMix64) -> u64
    ensures value { result ≡ timeout_of config.now.settings (mix_u64 random.old).0 }
    ensures state { random.new ≡ next_state random.old }
    ensures least { config.now.settings.election_min ≤ result }
    ensures most { result ≤ config.now.settings.election_max }
{
    let settings = config.settings;
    let count = settings.election_max - settings.election_min + 1;
    settings.election_min + random.next_word() % count
}
