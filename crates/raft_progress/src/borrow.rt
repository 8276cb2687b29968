//! What of a value is compared.
ghost use Rattle.std.specs.Prelude.{◌≡◌};

/// What of a value is compared (openraft takes std's `Borrow`).
pub trait Borrow<P> {
    // The part that is compared.
    ghost borrowed: { Self → P };

    /// The part of the value that is compared.
    fn borrow(&self) -> &P
        ensures { result.now ≡ borrowed self.now };
}

impl Borrow<u64> for u64 {
    ghost borrowed = { λ x. x };

    fn borrow(&self) -> &u64 {
        self
    }
}

impl Borrow<bool> for bool {
    ghost borrowed = { λ x. x };

    fn borrow(&self) -> &bool {
        self
    }
}

impl Borrow<Option<u64>> for Option<u64> {
    ghost borrowed = { λ x. x };

    fn borrow(&self) -> &Option<u64> {
        self
    }
}
