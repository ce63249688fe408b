//! Laws of APDUs, as contracts.

ghost use Rattle.std.specs.Prelude.{◌≡◌, ◌<◌, ◌≤◌, ◌↔◌, ℕ, List, IsTrue, length};
ghost use Rattle.octet_core.specs.Octets.{AreOctets};
ghost use Rattle.octet_core.specs.Grammar.{Begins, OneVerdict, whole};
ghost use Rattle.block_core.specs.declared.pcb.Number.{Number};
ghost use Rattle.chain_core.specs.Longest.{longest_command, longest_response};
ghost use Rattle.apdu_core.specs.Arrival.{ArrivesAs};
ghost use Rattle.apdu_core.specs.Command.{CommandParts, IsCommand, IsTrailing, IsReason as IsCommandReason};
ghost use Rattle.apdu_core.specs.Response.{ResponseParts, IsResponse, IsReason as IsResponseReason};
ghost use Rattle.apdu_core.specs.Status.{IsOfClass};
ghost use Rattle.apdu_core.specs.declared.status.StatusClass.{StatusClass as AnyClass};

use crate::{Command, Response};

/// `==` says whether two commands have the same header and body.
pub fn are_equal_commands(a: &Command, b: &Command) -> bool
    ensures { IsTrue result ↔ (a.now ≡ b.now) }
{
    a == b
}

/// `==` says whether two responses have the same data field and status bytes.
pub fn are_equal_responses(a: &Response, b: &Response) -> bool
    ensures { IsTrue result ↔ (a.now ≡ b.now) }
{
    a == b
}

/// Octets encode at most one command and at most one response. Status bytes have exactly one class.
pub fn one_value()
    ensures command { (v w : CommandParts) (b : List ℕ) → IsCommand v b → IsCommand w b → v ≡ w }
    ensures response { (v w : ResponseParts) (b : List ℕ) → IsResponse v b
        → IsResponse w b → v ≡ w }
    ensures class { (c d : AnyClass) (sw1 sw2 : ℕ) → IsOfClass c sw1 sw2
        → IsOfClass d sw1 sw2 → c ≡ d }
    ensures some_class { (sw1 sw2 : ℕ) → (c : AnyClass) × IsOfClass c sw1 sw2 }
{}

/// A command begins with these octets if and only if no octet of them trails. A response begins with these
/// octets if and only if they are at most 65,538.
pub fn goes_on()
    ensures command_stops { (b : List ℕ) → IsTrailing b → Begins IsCommand b → ⊥ }
    ensures command_begins { (b : List ℕ) → AreOctets b → (IsTrailing b → ⊥) → Begins IsCommand b }
    ensures response_stops { (b : List ℕ) → longest_response < length b → Begins IsResponse b → ⊥ }
    ensures response_begins { (b : List ℕ) → AreOctets b → length b ≤ longest_response
        → Begins IsResponse b }
{}

/// Encoded commands and responses have lengths within these bounds.
pub fn lengths()
    ensures command { (c : CommandParts) (b : List ℕ) → IsCommand c b
        → (4 ≤ length b) × (length b ≤ longest_command) }
    ensures response { (r : ResponseParts) (b : List ℕ) → IsResponse r b
        → (2 ≤ length b) × (length b ≤ longest_response) }
{}

/// An APDU that is cut into a chain arrives as that APDU, for all sizes and whatever follows the chain.
pub fn arrives()
    ensures command { (c : CommandParts) (b : List ℕ) (size ifs max : ℕ) (number : Number)
        (more : List ℕ) → IsCommand c b → 1 ≤ size → size ≤ ifs → length b ≤ max
        → ArrivesAs IsCommand c b size ifs max number more }
    ensures response { (r : ResponseParts) (b : List ℕ) (size ifs max : ℕ) (number : Number)
        (more : List ℕ) → IsResponse r b → 1 ≤ size → size ≤ ifs → length b ≤ max
        → ArrivesAs IsResponse r b size ifs max number more }
{}

/// Every input is accepted or refused as a command, and as a response, with one value, one place and one reason.
pub fn one_verdict()
    ensures command { (b : List ℕ) → AreOctets b → OneVerdict whole IsCommand IsCommandReason b }
    ensures response { (b : List ℕ) → AreOctets b → OneVerdict whole IsResponse IsResponseReason b }
{}
