//! The names of statuses, turns, reasons, classes of status bytes, shapes of commands and subjects of S-blocks.

ghost use Rattle.std.specs.Prelude.{◌≡◌};
ghost use Rattle.c_lent.specs.Names.{ended, status_name, turn_name, class_name, shape_name, about_name, reason_name};

use c_lent::names::CText;

/// Returns the name of a status; "" for any other number.
#[unsafe(no_mangle)]
pub extern "C" fn scard_status_text(status: u8, out: &mut CText)
    ensures { out.new.octets.now ≡ ended (status_name status) }
{
    c_lent::names::status_text(status, out)
}

/// Returns the name of the kind of a turn, or of what a session does next; "" for any other number.
#[unsafe(no_mangle)]
pub extern "C" fn scard_turn_text(kind: u8, out: &mut CText)
    ensures { out.new.octets.now ≡ ended (turn_name kind) }
{
    c_lent::names::turn_text(kind, out)
}

/// Returns the name of a class of status bytes; "" for any other number.
#[unsafe(no_mangle)]
pub extern "C" fn scard_status_class_text(kind: u8, out: &mut CText)
    ensures { out.new.octets.now ≡ ended (class_name kind) }
{
    c_lent::names::class_text(kind, out)
}

/// Returns the name of the shape of a command; "" for any other number.
#[unsafe(no_mangle)]
pub extern "C" fn scard_shape_text(shape: u8, out: &mut CText)
    ensures { out.new.octets.now ≡ ended (shape_name shape) }
{
    c_lent::names::shape_text(shape, out)
}

/// Returns the name of the subject of an S-block; "" for any other number.
#[unsafe(no_mangle)]
pub extern "C" fn scard_s_block_text(about: u8, out: &mut CText)
    ensures { out.new.octets.now ≡ ended (about_name about) }
{
    c_lent::names::about_text(about, out)
}

/// Returns the name of a reason of a codec; "" if the codec has no reason with this number.
#[unsafe(no_mangle)]
pub extern "C" fn scard_reason_text(codec: u8, reason: u8, out: &mut CText)
    ensures { out.new.octets.now ≡ ended (reason_name codec reason) }
{
    c_lent::names::reason_text(codec, reason, out)
}
