//! The field of the last I-block, as the contracts of the two ends name it.

ghost use Rattle.std.specs.Prelude.{◌≡◌, ◌≤◌, length};
ghost use Rattle.t1_core.specs.Views.{field_at};

use crate::turns::Cut;

/// Returns the octets of a message from the cut's place, at most as many as its size.
pub(crate) fn field_in(message: &[u8], cut: Cut) -> &[u8]
    requires { cut.place ≤ length message.now }
    ensures octets { result.now ≡ field_at cut message.now }
    ensures most { length result.now ≤ cut.size }
{
    let rest = &message[cut.place..];
    &rest[..rest.len().min(cut.size as usize)]
}
