//! What holds for replay and for records, as contracts of functions. Call one to use its law in a proof.

ghost use Rattle.std.specs.Prelude.{◌≡◌, ◌↔◌, ℕ, List, Option, None};
ghost use Rattle.octet_core.specs.Octets.{AreOctets};
ghost use Rattle.exchange_text.specs.Exchange.{ExchangeParts, migrated};
ghost use Rattle.exchange_text.specs.declared.line.Line.{Line};
ghost use Rattle.exchange_core.specs.Replay.{Replays};
ghost use Rattle.exchange_core.specs.Run.{IsRun};
ghost use Rattle.exchange_core.specs.Records.{EachRecordTells};
ghost use Rattle.block_core.specs.declared.side.Side.{Side};

use atr_core::laws::{one_accepted, one_verdict};
pub use exchange_text::laws::{exchange_or_fault, migration_keeps, one_exchange, written_is_read};

/// A migrated exchange replays as before, at both ends.
pub fn migrated_replays_alike()
    ensures { (e : ExchangeParts) (side : Side) (difference : Option (ℕ × List ℕ))
        → Replays (migrated e).atr (migrated e).lines side difference
        ↔ Replays e.atr e.lines side difference }
{}

/// An exchange replays in one way.
pub fn replays_in_one_way()
    ensures some { (atr : List ℕ) (lines : List Line) (side : Side)
        → AreOctets atr → (difference : Option (ℕ × List ℕ)) × Replays atr lines side difference }
    ensures one { (atr : List ℕ) (lines : List Line) (side : Side) (a b : Option (ℕ × List ℕ))
        → Replays atr lines side a → Replays atr lines side b → a ≡ b }
{
    one_verdict();
    one_accepted();
}

/// If an end agrees with an exchange, the exchange is a run of that end. The end refuses none of its calls among the
/// lines. The lines that the file says it gives are, in order, all that it gives.
pub fn agreeing_is_a_run()
    ensures { (atr : List ℕ) (lines : List Line) (side : Side)
        → Replays atr lines side None → IsRun atr lines side }
{}

/// Whatever happens to a recorder, the lines of its record say at each end what happened there at the link. So each
/// `answer` line has the octets of the `reply` line to the same command.
pub fn each_record_tells()
    ensures { EachRecordTells }
{}
