//! What holds of a clock behind each history of its calls: each a contract of a function without
//! a body.
ghost use Rattle.std.specs.Prelude.{◌≡◌, ◌<◌, ◌≤◌, ◌+◌, ◌-◌, ◌%◌, ℕ, List};
ghost use Rattle.std.specs.Prelude.{true, false, Some, None, unwrap_or};
ghost use Rattle.raft_values.specs.declared.server_state.ServerState.TheVariants.{Leader, Learner};
ghost use Rattle.raft_timers.specs.declared.config.TimerConfig.{TimerConfig as Config};
ghost use Rattle.raft_timers.specs.declared.lead.Lead.{Lead as LeadOf};
ghost use Rattle.raft_timers.specs.declared.view.GroupView.{GroupView as View};
ghost use Rattle.raft_timers.specs.Draw.{timeout_of};
ghost use Rattle.raft_timers.specs.Election.{IsDrawn, leads, may_stand, quiet_since};
ghost use Rattle.raft_timers.specs.History.{AsksElection, AsksHeartbeat, Call};
ghost use Rattle.raft_timers.specs.History.{History, TellsLost, TellsNoQuorum};
ghost use Rattle.raft_timers.specs.History.{after_calls, clock_of};
ghost use Rattle.raft_timers.specs.Laws.{HasWaited};
ghost use Rattle.raft_timers.specs.Lead.{unheard_since};
ghost use Rattle.raft_timers.specs.Policy.{is_snapshot_due, entries_up_to, purge_place};
ghost use Rattle.raft_timers.specs.Timers.{moment, ticked};

/// A timeout lies within its two bounds, whatever word picks it; and each time within them is
/// picked by a word.
pub fn timeouts_lie_within_their_bounds()
    ensures least { (c : Config) (word : ℕ) → c.settings.election_min ≤ timeout_of c.settings word }
    ensures most { (c : Config) (word : ℕ) → timeout_of c.settings word ≤ c.settings.election_max }
    ensures each { (c : Config) (ticks : ℕ) → c.settings.election_min ≤ ticks
        → ticks ≤ c.settings.election_max
        → timeout_of c.settings (ticks - c.settings.election_min) ≡ ticks }
{}

/// An election is asked for behind the least silence at the earliest, and behind the greatest one
/// at the latest; never of a node that leads or learns.
pub fn elections_come_neither_early_nor_late()
    ensures drawn { (h : History) → IsDrawn h.config.settings (clock_of h).election }
    ensures early { (h : History) (view : View) (now : ℕ) → AsksElection (clock_of h) view now
        → quiet_since (clock_of h).election view + h.config.settings.election_min
        ≤ moment (clock_of h) now }
    ensures late { (h : History) (view : View) (now : ℕ) → may_stand view.role ≡ true
        → quiet_since (clock_of h).election view + h.config.settings.election_max
        ≤ moment (clock_of h) now
        → AsksElection (clock_of h) view now }
    ensures standing { (h : History) (view : View) (now : ℕ) → AsksElection (clock_of h) view now
        → may_stand view.role ≡ true }
{}

/// Between two elections that are asked for lies the least silence, whatever happens between.
pub fn elections_are_apart()
    ensures { (h : History) (view later : View) (waiting : List ℕ) (now then : ℕ)
        (calls : List Call)
        → AsksElection (clock_of h) view now
        → AsksElection (after_calls calls (ticked view waiting now (clock_of h))) later then
        → moment (clock_of h) now + h.config.settings.election_min
        ≤ moment (after_calls calls (ticked view waiting now (clock_of h))) then }
{}

/// A heartbeat is asked for of a leader alone, and between two of them lies the interval.
pub fn heartbeats_are_apart()
    ensures leads { (h : History) (view : View) (now : ℕ) → AsksHeartbeat (clock_of h) view now
        → leads view.role ≡ true }
    ensures apart { (h : History) (view later : View) (waiting : List ℕ) (now then : ℕ)
        (calls : List Call)
        → AsksHeartbeat (clock_of h) view now
        → AsksHeartbeat (after_calls calls (ticked view waiting now (clock_of h))) later then
        → moment (clock_of h) now + h.config.settings.heartbeat_interval
        ≤ moment (after_calls calls (ticked view waiting now (clock_of h))) then }
{}

/// A peer is told lost only where its request has been seen to wait for its timeout, which is the
/// first one at least.
pub fn lost_requests_have_waited()
    ensures { (h : History) (waiting : List ℕ) (now peer : ℕ)
        → TellsLost (clock_of h) waiting now peer
        → HasWaited (clock_of h) waiting now peer }
{}

/// Want of a quorum is told of a leader alone: for the least silence it has heard of none, and was
/// the leader already.
pub fn want_of_a_quorum_is_told_in_time()
    ensures leads { (h : History) (view : View) (now : ℕ) → TellsNoQuorum (clock_of h) view now
        → leads view.role ≡ true }
    ensures early { (h : History) (view : View) (now heard : ℕ) → view.quorum_heard ≡ Some heard
        → TellsNoQuorum (clock_of h) view now
        → heard + h.config.settings.election_min ≤ moment (clock_of h) now }
    ensures late { (h : History) (view : View) (lead : LeadOf) (now : ℕ) → leads view.role ≡ true
        → (clock_of h).lead ≡ Some lead
        → unheard_since lead view + h.config.settings.election_min ≤ moment (clock_of h) now
        → TellsNoQuorum (clock_of h) view now }
{}

/// A purge leaves the entries that are to be kept, goes on from the last one, and is asked for
/// wherever there is such a place; a snapshot is, where so many entries are applied behind the
/// last one.
pub fn logs_are_made_shorter_by_policy()
    ensures keeps { (c : Config) (view : View) (place : ℕ)
        → purge_place c.settings view ≡ Some place
        → place + c.settings.keep_entries + 1 ≡ entries_up_to view.snapshot }
    ensures further { (c : Config) (view : View) (place : ℕ)
        → purge_place c.settings view ≡ Some place
        → entries_up_to view.purged ≤ place }
    ensures done { (c : Config) (view : View) → purge_place c.settings view ≡ None
        → entries_up_to view.snapshot ≤ entries_up_to view.purged + c.settings.keep_entries }
    ensures asked { (c : Config) (view : View) → is_snapshot_due c.settings view ≡ true
        → entries_up_to view.snapshot + c.settings.snapshot_entries ≤ entries_up_to view.applied }
    ensures unasked { (c : Config) (view : View) → is_snapshot_due c.settings view ≡ false
        → entries_up_to view.applied < entries_up_to view.snapshot + c.settings.snapshot_entries }
{}
