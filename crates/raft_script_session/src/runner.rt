//! What runs the lines of a script.
ghost use Rattle.std.specs.Prelude.{ℕ, List, Option, IfOk, string_bytes};
ghost use Rattle.std.specs.Option.{option_map};
ghost use Rattle.std.specs.Thread.{IsSync};

use std::alloc::AllocError;
use std::thread::Threads;

/// What runs the lines of a script, one after another (own).
pub trait LineRunner {
    /// What a line does: it takes the script from the one state to the other, and is answered by this
    /// text; by none where it is no event.
    ghost runs: { Self → List ℕ → Option (List ℕ) → Self → Type 0 };

    /// Runs a line, its newline not among the bytes, and answers with the text of its answer; none
    /// where it is no event. An `Err` is want of memory, and may leave the line run. The line may
    /// do its work on threads that the handle makes: they share it, and the clause says so again, since
    /// an implementor's proof has no bounds of a method.
    fn run_line<R: Threads + Sync>(
        &mut self,
        rt: &R,
        line: &[u8],
    ) -> Result<Option<String>, AllocError>
        requires shared { IsSync R.row }
        ensures { IfOk result (λ text. runs self.old line.now (option_map string_bytes text) self.new) };
}
