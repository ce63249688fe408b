//! Laws of both loops over one line, as contracts.
//!
//! `specs/Together.antt` has the statements. They are about a new terminal whose exchanges are calls of `exchange_ends`,
//! and a new card that `serve_events` serves, whose host may ask for time or a size before it replies. The terminal may
//! also begin with `resynch_ends`, to which the card answers: then the card may have been in any state. The line between
//! them passes what one end sent to the other, except what it loses or damages.

ghost use Rattle.session_laws.specs.Together.{AlwaysTwoEnds, AlwaysMatched, AlwaysInOrder, AlwaysPatient, AlwaysOnce};

/// To the laws of line_core, the exchanges of `exchange_ends` are calls of `exchange`, and what `serve_events` did is a
/// call of `serve`.
pub fn two_ends()
    ensures { AlwaysTwoEnds }
{}

/// Each command with an answer was passed to the card's host once and in order, and the answer is the host's reply. A
/// command without an answer was passed to the host once or not at all.
pub fn matched()
    ensures { AlwaysMatched }
{
    two_ends();
    line_core::laws::matched();
}

/// If no exchange was given up, the host's commands are the first of the terminal's, in the same order. The answered
/// exchanges are the first of the host's services.
pub fn in_order()
    ensures { AlwaysInOrder }
{
    two_ends();
    line_core::laws::in_order();
}

/// Between ends with the same limits, an exchange is given up only after two of its blocks were lost or damaged. The
/// card is found dead only after five.
pub fn patient()
    ensures { AlwaysPatient }
{
    two_ends();
    line_core::laws::patient();
}

/// For one exchange: the host was passed this command at most once, and no other. If the exchange ended with an answer,
/// the host was passed the command, and the answer is its reply.
pub fn once()
    ensures { AlwaysOnce }
{
    two_ends();
    line_core::laws::once();
}
