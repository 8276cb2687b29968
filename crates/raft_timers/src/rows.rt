//! Worked values: each a contract of a function without a body.
ghost use Rattle.std.specs.Prelude.{◌≡◌, ◌^◌, ◌-◌, [], ◌∷◌, Some, None, true, false};
ghost use Rattle.rand_xoshiro.specs.SplitMix64.{mix_u64};
ghost use Rattle.raft_timers.specs.declared.config.TimerFault.TheVariants as fault;
ghost use Rattle.raft_timers.specs.Config.{usual};
ghost use Rattle.raft_timers.specs.Draw.{timeout_of};
ghost use Rattle.raft_timers.specs.Fault.{fault_of};
ghost use Rattle.raft_timers.specs.Interval.{have_passed};
ghost use Rattle.raft_timers.specs.Majority.{hears_majority};
ghost use Rattle.raft_timers.specs.Policy.{is_snapshot_due, purge_place};
ghost use Rattle.raft_timers.specs.Rows.{log_at, losses, word_at};

/// The first words of SplitMix64 from the state 1234567 on, as its authors' program prints them,
/// and the timeouts that they pick.
pub fn words_of_the_generator()
    ensures first { word_at 0 ≡ 6457827717110365317 }
    ensures second { word_at 1 ≡ 3203168211198807973 }
    ensures third { word_at 2 ≡ 9817491932198370423 }
    ensures fourth { word_at 3 ≡ 4593380528125082431 }
    ensures fifth { word_at 4 ≡ 16408922859458223821 }
    ensures first_timeout { timeout_of usual (word_at 0) ≡ 224 }
    ensures second_timeout { timeout_of usual (word_at 1) ≡ 336 }
    ensures third_timeout { timeout_of usual (word_at 2) ≡ 236 }
    ensures least { timeout_of usual 0 ≡ 200 }
    ensures most { timeout_of usual 200 ≡ 400 }
    ensures around { timeout_of usual 201 ≡ 200 }
{}

/// What is wrong with settings that differ in one number from the usual ones.
pub fn faults_of_settings()
    ensures usual { fault_of usual ≡ None }
    ensures heartbeat { fault_of (record usual { heartbeat_interval = 0 })
        ≡ Some fault.NoHeartbeatInterval }
    ensures silence { fault_of (record usual { heartbeat_interval = 200 })
        ≡ Some fault.ElectionWithinHeartbeat }
    ensures range { fault_of (record usual { election_max = 200 }) ≡ Some fault.NoElectionRange }
    ensures request { fault_of (record usual { request_timeout = 0 })
        ≡ Some fault.NoRequestTimeout }
    ensures limit { fault_of (record usual { request_timeout_max = 99 })
        ≡ Some fault.RequestLimitTooLow }
    ensures entries { fault_of (record usual { snapshot_entries = 0 })
        ≡ Some fault.NoSnapshotEntries }
    ensures clean { fault_of (record usual { clean_interval = 0 }) ≡ Some fault.NoCleanInterval }
    ensures fits { fault_of (record usual { heartbeat_interval = 199; election_max = 201 }) ≡ None }
    ensures nothing_kept { fault_of (record usual { keep_entries = 0 }) ≡ None }
    ensures one_timeout { fault_of (record usual { request_timeout_max = 100 }) ≡ None }
{}

/// When 50 ticks have passed since moment 100; and at the end of the clock.
pub fn ticks_that_have_passed()
    ensures before { have_passed 50 100 149 ≡ false }
    ensures then { have_passed 50 100 150 ≡ true }
    ensures behind { have_passed 50 100 1000 ≡ true }
    ensures back { have_passed 50 100 7 ≡ false }
    ensures all { have_passed (2 ^ 64 - 1) 0 (2 ^ 64 - 1) ≡ true }
    ensures end { have_passed (2 ^ 64 - 1) 1 (2 ^ 64 - 1) ≡ false }
{}

/// The timeouts of a request that is never answered, and of the first one behind an answer.
pub fn timeouts_of_requests()
    ensures doubled { losses 1 7 ≡ 100 ∷ 200 ∷ 400 ∷ 800 ∷ 1600 ∷ 1600 ∷ 1600 ∷ [] }
{}

/// Which places are purged, and when a snapshot is asked for.
pub fn logs_by_policy()
    ensures none { purge_place usual (log_at (Some 9000) None None) ≡ None }
    ensures short { purge_place usual (log_at (Some 9000) (Some 999) None) ≡ None }
    ensures one { purge_place usual (log_at (Some 9000) (Some 1000) None) ≡ Some 0 }
    ensures many { purge_place usual (log_at (Some 9000) (Some 4999) None) ≡ Some 3999 }
    ensures purged { purge_place usual (log_at (Some 9000) (Some 4999) (Some 3999)) ≡ None }
    ensures further { purge_place usual (log_at (Some 9000) (Some 5000) (Some 3999)) ≡ Some 4000 }
    ensures empty { is_snapshot_due usual (log_at None None None) ≡ false }
    ensures few { is_snapshot_due usual (log_at (Some 4998) None None) ≡ false }
    ensures enough { is_snapshot_due usual (log_at (Some 4999) None None) ≡ true }
    ensures again { is_snapshot_due usual (log_at (Some 9998) (Some 4999) None) ≡ false }
    ensures due { is_snapshot_due usual (log_at (Some 9999) (Some 4999) None) ≡ true }
    ensures ahead { is_snapshot_due usual (log_at (Some 4999) (Some 9999) None) ≡ false }
{}

/// Three voters are a majority of five, and two aren't one of four.
pub fn majorities_that_are_heard()
    ensures three { hears_majority (Some 9 ∷ Some 7 ∷ None ∷ Some 5 ∷ Some 1 ∷ []) 5 ≡ true }
    ensures two { hears_majority (Some 9 ∷ Some 7 ∷ None ∷ Some 5 ∷ Some 1 ∷ []) 6 ≡ false }
    ensures half { hears_majority (Some 9 ∷ Some 7 ∷ None ∷ None ∷ []) 7 ≡ false }
    ensures alone { hears_majority (Some 9 ∷ []) 9 ≡ true }
    ensures nobody { hears_majority [] 0 ≡ false }
{}
