//! Reads an input piece by piece, without a limit on its size.

ghost use Rattle.std.specs.Prelude.{◌≡◌, ◌<◌, length};
ghost use Rattle.program.specs.Calls.{calls_of};
ghost use Rattle.program.specs.Pieces.{ReadsPast, ReadsPiece};

use octet_core::Source;
use program_words::Fault;

/// The most octets that one call reads.
pub(crate) const PIECE: usize = 8_192;

/// The most calls that read octets: 2<sup>50</sup>. After them the input counts as one without an end.
pub(crate) const MOST_PIECES: u64 = 1_125_899_906_842_624;

/// Reads octets to the front of the room by one call. Returns how many, 0 at the end of the input. A failed call isn't
/// retried.
pub(crate) fn read_piece<R: Source>(reader: &mut R, room: &mut [u8]) -> Result<usize, Fault>
    requires { 0 < length room.old }
    ensures read { ReadsPiece (calls_of R.remaining R.failures reader.old reader.new) room.new
        result }
    ensures same { length room.new ≡ length room.old }
{
    match reader.read(room) {
        Ok(count) => Ok(count),
        Err(_) => Err(Fault::Read),
    }
}

/// Reads an input to its end, and keeps nothing of it.
pub(crate) fn read_past<R: Source>(reader: &mut R) -> Result<(), Fault>
    ensures { ReadsPast (calls_of R.remaining R.failures reader.old reader.new) result }
{
    let mut room = [0; PIECE];
    for _turn in 0..MOST_PIECES {
        let count = read_piece(reader, &mut room)?;
        if count == 0 {
            return Ok(());
        }
    }
    Err(Fault::TooLarge)
}
