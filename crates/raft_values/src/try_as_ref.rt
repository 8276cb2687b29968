//! Parts that a value may have.
ghost use Rattle.std.specs.Prelude.{◌≡◌, Option};
ghost use Rattle.std.specs.Option.{option_copied};

/// A value that may have a part of another type (openraft).
pub trait TryAsRef<T> {
    // The part, if the value has it.
    ghost part: { Self → Option T };

    /// The part, if the value has it.
    fn try_as_ref(&self) -> Option<&T>
        ensures { option_copied result ≡ part self.now };
}
