//! The sizes of the structs that C and the library share.

ghost use Rattle.std.specs.Prelude.{◌≡◌};
ghost use Rattle.c_lent.specs.Layout.{size_of_struct};

use crate::apdu::{CCommand, CResponse};
use crate::atr::{CAtr, CIndicated, CInterface, CRates, CT1};
use crate::block::{CBlock, CPcb};
use crate::card_session::CCardSession;
use crate::dol::CEntry;
use crate::kept::{CCard, CTerminal};
use crate::kept_check::{CCheck, CHeader};
use crate::kept_judge::{CEnd, CHeard, CJudge, CWatched};
use crate::kept_receiver::CReceiver;
use crate::kept_times::{CMoments, CTimes};
use crate::lent_exercise::CExercise;
use crate::lent_judge::{CDue, CJudgment};
use crate::lent_readers::{CAtrReader, CBlockReader};
use crate::lent_times::CTimed;
use crate::names::CText;
use crate::note::CNote;
use crate::parts::{CKnown, CPart, CTag};
use crate::session::CSession;
use crate::session_next::CSessionNext;
use crate::turn::CTurn;
use crate::verdict::Verdict;
use line_core::Framer;
use session_core::{Line, LineNext, Progress, Rules, Setup};
use std::mem::size_of;

/// A handle as C has it: a pointer and a mark. Only the library with memory knows what the handle holds.
#[repr(C)]
pub struct CHandle {
    pub at: *mut u8,
    pub is_full: bool,
}

/// Returns the size of a struct of the library in octets, by the struct's number in the header. 0 for any other number.
pub fn struct_size(number: u8) -> usize
    ensures { result ≡ size_of_struct number }
{
    match number {
        1 => size_of::<Verdict>(),
        2 => size_of::<CInterface>(),
        3 => size_of::<CIndicated>(),
        4 => size_of::<CAtr>(),
        5 => size_of::<CT1>(),
        6 => size_of::<CRates>(),
        7 => size_of::<CBlock>(),
        8 => size_of::<CCommand>(),
        9 => size_of::<CResponse>(),
        10 => size_of::<CTurn>(),
        11 => size_of::<CTag>(),
        12 => size_of::<CPart>(),
        13 => size_of::<CKnown<'_>>(),
        14 => size_of::<CHandle>(),
        15 => size_of::<CTerminal>(),
        16 => size_of::<CCard>(),
        17 => size_of::<CHeader>(),
        18 => size_of::<CCheck>(),
        19 => size_of::<CReceiver>(),
        20 => size_of::<CText>(),
        21 => size_of::<CEntry>(),
        22 => size_of::<CNote>(),
        23 => size_of::<Framer>(),
        24 => size_of::<CBlockReader>(),
        25 => size_of::<CAtrReader>(),
        26 => size_of::<CEnd>(),
        27 => size_of::<CHeard>(),
        28 => size_of::<CWatched>(),
        29 => size_of::<CJudge>(),
        30 => size_of::<CDue>(),
        31 => size_of::<CJudgment>(),
        32 => size_of::<Rules>(),
        33 => size_of::<Progress>(),
        34 => size_of::<Line>(),
        35 => size_of::<LineNext>(),
        36 => size_of::<Setup>(),
        37 => size_of::<CSession>(),
        38 => size_of::<CCardSession>(),
        39 => size_of::<CSessionNext>(),
        40 => size_of::<CPcb>(),
        41 => size_of::<CExercise>(),
        42 => size_of::<CTimes>(),
        43 => size_of::<CMoments>(),
        44 => size_of::<CTimed>(),
        _ => 0,
    }
}
