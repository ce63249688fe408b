//! A sentence on each reason for a refusal.

ghost use Rattle.std.specs.Prelude.{◌≡◌};
ghost use Rattle.c_lent.specs.Names.{ended};
ghost use Rattle.c_lent.specs.Sentences.{reason_sentence};

use c_lent::names::CText;

/// Returns a sentence on a reason of a codec: what is wrong with the refused octet; "" if the codec has no reason with
/// this number.
#[unsafe(no_mangle)]
pub extern "C" fn scard_reason_sentence_text(codec: u8, reason: u8, out: &mut CText)
    ensures { out.new.octets.now ≡ ended (reason_sentence codec reason) }
{
    c_lent::sentence::reason_sentence_text(codec, reason, out)
}
