//! What is asked of a log that can be made to crash.
ghost use Rattle.std.specs.Prelude.{◌≡◌, ◌↔◌, ℕ, List, Option, IfErr, OnErr, OnOk};
ghost use Rattle.raft_log_memtables.specs.Content.{Content};

use crate::content_log::ContentLog;

/// A log whose machine can be made to stop, for simulations (own).
pub trait CrashLog: ContentLog {
    /// What a crash may leave.
    type Choice;

    /// Why it doesn't crash so.
    type Refusal: Drop;

    /// What the log is behind a crash that left what was chosen.
    ghost crashed: { Self → Self.Choice → Self → Type 0 };

    /// It can't crash so, for this reason.
    ghost refuses: { Self → Self.Choice → Self.Refusal → Type 0 };

    /// What the log is behind a fuse: its files refuse each changing call from that one on.
    ghost fused: { Self → Option ℕ → Self → Type 0 };

    /// Leaves what the choice says. The log is only to be given back then. A refusal, want of memory
    /// too, leaves it as it was.
    fn crash(&mut self, choice: &Self::Choice) -> Result<(), Self::Refusal>
        ensures crashed { OnOk result (crashed self.old choice.now self.new) }
        ensures why { IfErr result (λ why. refuses self.old choice.now why) }
        ensures err { OnErr result (self.new ≡ self.old) };

    /// Its files refuse each changing call from this one on, the first one counted as 1; with none
    /// they refuse no call any more. Nothing else changes.
    fn fuse(&mut self, first_refused: Option<u64>)
        ensures fused { fused self.old first_refused self.new }
        ensures sound { Self.ContentLog.is_sound self.new ↔ Self.ContentLog.is_sound self.old }
        ensures answers { Self.ContentLog.answers self.new ≡ Self.ContentLog.answers self.old }
        ensures leaves { (left : Content (List ℕ)) → Self.ContentLog.leaves self.new left ↔ Self.ContentLog.leaves self.old left };
}
