//! Laws of both ends of a line, as contracts.
//!
//! `specs/Joined.antt` has the statements. They are about calls of `exchange`, `ask_ifs` and `resume` at one end, and
//! of `serve` at the other, whose host may also ask for time or a size before it replies. The line between them passes
//! what one end sent to the other, except what it loses or damages.

ghost use Rattle.line_core.specs.Bursts.{AlwaysNoBlock};
ghost use Rattle.line_core.specs.Joined.{AlwaysPasses, AlwaysLinked, AlwaysMatched, AlwaysInOrder, AlwaysPatientCalls, AlwaysOnce};

/// The calls of a new terminal and of a new card are a history of the link in t1_core. So what the laws of t1_core
/// promise of the link holds for these calls.
pub fn linked()
    ensures { AlwaysLinked }
{
    t1_core::laws::taken();
    t1_core::laws::class_is_computed();
    t1_core::laws::patient();
}

/// Each command with an answer was passed to the card's host once and in order, and the answer is the host's reply. A
/// command without an answer was passed to the host once or not at all.
pub fn matched()
    ensures { AlwaysMatched }
{
    linked();
    t1_core::laws::matched();
}

/// If no exchange was given up, the host's commands are the first of the terminal's, in the same order. The answered
/// exchanges are the first of the host's services.
pub fn in_order()
    ensures { AlwaysInOrder }
{
    linked();
    t1_core::laws::in_order();
}

/// Between ends with the same limits, an exchange is given up only after two of its blocks were lost or damaged. The
/// card is found dead only after five.
pub fn patient()
    ensures { AlwaysPatientCalls }
{
    t1_core::laws::taken();
    t1_core::laws::class_is_computed();
    t1_core::laws::patient();
}

/// For one call at each end: the host was passed this command at most once, and no other. If the call ended with an
/// answer, the host was passed the command, and the answer is its reply.
pub fn once()
    ensures { AlwaysOnce }
{
    matched();
}

/// A burst isn't taken for a block if one octet of a block was changed, octets are missing at its end, or octets follow
/// it. This holds for every block, and for every size that the end accepts (ISO/IEC 7816-3, clauses 11.3 and 11.4.4).
pub fn no_block()
    ensures { AlwaysNoBlock }
{}

/// Such a burst is a damaged block to the other laws. So they hold over a line that does only this, and loses blocks.
/// Each answered exchange is one that the card's host served, and each command is acted on at most once.
pub fn harmed_passes()
    ensures { AlwaysPasses }
{
    no_block();
}
