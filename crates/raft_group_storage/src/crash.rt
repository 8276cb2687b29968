//! What is asked of a storage that can be made to crash.
ghost use Rattle.std.specs.Prelude.{◌≡◌, IfErr, OnErr, OnOk};

use crate::storage::GroupStorage;

/// A storage whose machine can be made to stop, for simulations (own).
pub trait CrashStorage: GroupStorage {
    /// What a crash may leave.
    type Choice;

    /// Why it doesn't crash so.
    type Refusal: Drop;

    /// What the storage is behind a crash that left what was chosen.
    ghost crashed: { Self → Self.Choice → Self → Type 0 };

    /// It can't crash so, for this reason.
    ghost refuses: { Self → Self.Choice → Self.Refusal → Type 0 };

    /// Leaves what the choice says. The storage is only to be given back then. A refusal, want of
    /// memory too, leaves it as it was.
    fn crash(&mut self, choice: &Self::Choice) -> Result<(), Self::Refusal>
        ensures crashed { OnOk result (crashed self.old choice.now self.new) }
        ensures why { IfErr result (λ why. refuses self.old choice.now why) }
        ensures err { OnErr result (self.new ≡ self.old) };
}
