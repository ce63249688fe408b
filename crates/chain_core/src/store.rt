//! Storage for the octets of a message.

ghost use Rattle.std.specs.Prelude.{◌≡◌, ℕ, ◌+◌, ◌≤◌, ◌++◌, List, length, take};
ghost use Rattle.std.specs.Borrow.{GName};
ghost use Rattle.octet_core.specs.Octets.{AreOctets};

use crate::collected::Collected;

/// Storage for the octets of a message as they come: memory that the receiver owns, or a buffer that it borrows.
pub(crate) trait MessageStore {
    /// The octets in it, those of the message first.
    ghost kept: { Self → List ℕ };

    /// How many octets it has room for.
    ghost room: { Self → ℕ };

    /// Octets can be put after this many.
    ghost ends_after: { Self → ℕ → Type 0 };

    /// Which buffer it is, if it is borrowed.
    ghost loan: { Self → GName };

    /// Puts octets after the first `held`.
    fn put(&mut self, held: usize, run: &[u8])
        requires after { ends_after self.old held }
        requires fits { held + length run.now ≤ room self.old }
        ensures after { ends_after self.new (held + length run.now) }
        ensures text { take (held + length run.now) (kept self.new)
            ≡ take held (kept self.old) ++ run.now }
        ensures room { room self.old ≤ room self.new }
        ensures loan { loan self.new ≡ loan self.old }
        ensures octets { AreOctets (kept self.old) → AreOctets (kept self.new) };

    /// Borrows the octets.
    fn octets(&self) -> &[u8]
        ensures { result.now ≡ kept self.now };

    /// It has at least as many octets as octets can be put after.
    ghost inside: { (store : Self) (held : ℕ) → ends_after store held
        → held ≤ length (kept store) };
}

/// Owned memory has the octets of the message and no others.
impl MessageStore for Collected {
    ghost use Rattle.std.specs.Prelude.{◌≡◌, length};
    ghost use Rattle.std.proofs.Common.{rules};

    ghost kept = { λ message. message.octets };

    ghost room = { λ message. message.room };

    ghost ends_after = { λ message held. length message.octets ≡ held };

    ghost loan = { λ _. 0 };

    ghost inside = { λ message held after. Prim.search rules };

    fn put(&mut self, _held: usize, run: &[u8]) {
        self.append(run);
    }

    fn octets(&self) -> &[u8] {
        self.as_slice()
    }
}

/// A borrowed buffer for the octets of a message.
#[derive(Drop)]
pub(crate) struct LentBuffer<'a> {
    pub(crate) octets: &'a mut [u8],
}

/// A buffer has as many octets as it has room for.
impl MessageStore for LentBuffer<'_> {
    ghost use Rattle.std.specs.Prelude.{◌≤◌, length};

    ghost kept = { λ buffer. buffer.octets.now };

    ghost room = { λ buffer. length buffer.octets.now };

    ghost ends_after = { λ buffer held. held ≤ length buffer.octets.now };

    ghost loan = { λ buffer. buffer.octets.ghost_name };

    ghost inside = { λ buffer held after. after };

    fn put(&mut self, held: usize, run: &[u8]) {
        self.octets[held..held + run.len()].copy_from_slice(run);
    }

    fn octets(&self) -> &[u8] {
        self.octets
    }
}
