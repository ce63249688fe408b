//! The names of reasons and faults.

ghost use Rattle.std.specs.Prelude.{◌≡◌, ℕ, List};

/// A reason or a fault with a name, which is that of its variant. It is printed as this name.
pub trait Named {
    /// The octets of the name.
    ghost text: { Self → List ℕ };

    /// Returns the name.
    fn name(self) -> &'static str
        ensures { result.now ≡ text self };
}
