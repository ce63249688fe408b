//! Notes on octets for people.

ghost use Rattle.std.specs.Prelude.{◌≡◌};
ghost use Rattle.notes.specs.Says.{is_text};
ghost use Rattle.c_lent.specs.Notes.{note_text, number_shown};

use c_lent::note::CNote;

/// Returns the note on one or two octets, by the number in the header of what they are. Without a note, and for any
/// other number, both parts are empty.
#[unsafe(no_mangle)]
pub extern "C" fn scard_note_of(about: u8, first: u8, second: u8, out: &mut CNote)
    ensures before { out.new.before.now ≡ (note_text about first second).before }
    ensures number { (out.new.has_number, out.new.number)
        ≡ number_shown (note_text about first second).number }
    ensures after { out.new.after.now ≡ (note_text about first second).after }
{
    c_lent::note::note_of(about, first, second, out)
}

/// Whether octets are also shown as text: there are 1 to 40, and all are printable characters, 20 to 7E.
#[unsafe(no_mangle)]
pub extern "C" fn scard_is_text(octets: &[u8]) -> bool
    ensures { result ≡ is_text octets.now }
{
    notes::is_text(octets)
}
