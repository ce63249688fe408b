//! The codecs of the kinds, and what the program prints about octets by each.

ghost use Rattle.std.specs.Prelude.{◌≡◌, IfOk, IfErr, string_bytes};
ghost use Rattle.program_words.specs.declared.request.Expected.{Expected as AnyExpected};
ghost use Rattle.program_octets.specs.Verdicts.{ChecksBy, ShowsBy, shown_in, status_of};
ghost use Rattle.program_octets.specs.Codec.{Codec as AnyCodec, IsVerdict, StopsUnlessMemory, Takes};

use crate::answer::Answer;
use crate::shown::Shown;
use crate::status::Status;
use layouts::Layout;
use octet_core::{Named, Refused, Stop};
use program_words::{Expected, FieldSize};
use std::alloc::{AllocError, Global};

/// The result of a codec on octets, or why there is none.
pub type Outcome<T, R> = Result<T, Refused<R>>;

/// The verdict on octets: how many the value takes, or why they are refused.
pub type Verdict<R> = Result<usize, Stop<R>>;

/// What the program prints about octets, and the verdict that it comes from.
#[derive(Drop)]
pub struct CheckedAnswer<R> {
    pub answer: Answer,
    pub verdict: Verdict<R>,
    /// The words of a note on the line of a refusal. Empty unless one is asked for.
    pub note: String,
}

/// The codec of a kind of octets.
pub trait Codec {
    /// Why octets are refused.
    type Reason: Named + Copy;

    /// The values that octets spell.
    ghost Value: { Type 0 };

    /// The codec for what octets are read as.
    ghost codec: { AnyExpected → AnyCodec Value Self.Reason };

    /// Returns how many octets the value takes.
    fn taken(alloc: Global, octets: &[u8], expected: Expected) -> Outcome<usize, Self::Reason>
        ensures found { IfOk result (λ n. (v : Value) × Takes (codec expected) octets.now v n) }
        ensures refused { IfErr result (StopsUnlessMemory (codec expected) octets.now) };

    /// Returns the value as lines, or as a JSON object in one line, with notes if it is `noted`.
    fn shown(
        alloc: Global,
        octets: &[u8],
        expected: Expected,
        layout: Layout,
        noted: bool,
    ) -> Outcome<Shown, Self::Reason>
        ensures found { IfOk result
            (λ x. (v : Value) × Takes (codec expected) octets.now v x.taken
            × (string_bytes x.text ≡ shown_in noted layout expected.kind (codec expected) v
            x.taken)) }
        ensures refused { IfErr result (StopsUnlessMemory (codec expected) octets.now) };

    /// Returns the words of a note on the line of a refusal, if there are any.
    fn refusal_note(
        alloc: Global,
        octets: &[u8],
        stop: Stop<Self::Reason>,
        ifs: FieldSize,
    ) -> Result<String, AllocError>;

    /// The name of a reason is its text.
    ghost named: { (expected : AnyExpected) → (codec expected).name ≡ Self.Reason.text };
}

/// Returns what `check` prints about octets, and the verdict on them.
pub fn check_with_verdict<C: Codec>(
    alloc: Global,
    layout: Layout,
    octets: &[u8],
    expected: Expected,
) -> Result<CheckedAnswer<C::Reason>, AllocError>
    ensures answer { IfOk result (λ judged. ChecksBy layout expected.kind (C.codec expected)
        octets.now judged.answer.said judged.answer.status) }
    ensures verdict { IfOk result (λ judged.
        IsVerdict (C.codec expected) octets.now judged.verdict) }
{
    let kind = expected.kind;
    match C::taken(alloc, octets, expected) {
        Ok(taken) => {
            let answer = Answer::accepted(alloc, layout, kind, taken)?;
            Ok(CheckedAnswer {
                answer,
                verdict: Ok(taken),
                note: String::new(alloc),
            })
        }
        Err(Refused::Stop(stop)) => {
            let answer = Answer::refused_in(alloc, layout, kind, stop)?;
            Ok(CheckedAnswer {
                answer,
                verdict: Err(stop),
                note: String::new(alloc),
            })
        }
        Err(Refused::Memory) => Err(AllocError),
    }
}

/// Returns what `show` prints about octets, and the verdict on them. If it is `noted`, the lines of a value have notes.
/// The words of a note on a refusal are returned beside its text. The octets are decoded once.
pub fn show_with_verdict<C: Codec>(
    alloc: Global,
    layout: Layout,
    noted: bool,
    octets: &[u8],
    expected: Expected,
) -> Result<CheckedAnswer<C::Reason>, AllocError>
    ensures answer { IfOk result (λ judged. ShowsBy noted layout expected.kind (C.codec expected)
        octets.now judged.answer.said judged.answer.status) }
    ensures verdict { IfOk result (λ judged.
        IsVerdict (C.codec expected) octets.now judged.verdict) }
    ensures ended { IfOk result (λ judged. judged.answer.status ≡ status_of judged.verdict) }
{
    let Expected { kind, ifs, .. } = expected;
    match C::shown(alloc, octets, expected, layout, noted) {
        Ok(Shown { text, taken }) => Ok(CheckedAnswer {
            answer: Answer::laid(layout, text, Status::Accepted),
            verdict: Ok(taken),
            note: String::new(alloc),
        }),
        Err(Refused::Stop(stop)) => {
            let note = refusal_note::<C>(alloc, noted, octets, stop, ifs)?;
            let answer = Answer::refused_in(alloc, layout, kind, stop)?;
            Ok(CheckedAnswer {
                answer,
                verdict: Err(stop),
                note,
            })
        }
        Err(Refused::Memory) => Err(AllocError),
    }
}

/// Returns the words of a note on the line of a refusal, if one is asked for.
fn refusal_note<C: Codec>(
    alloc: Global,
    noted: bool,
    octets: &[u8],
    stop: Stop<C::Reason>,
    ifs: FieldSize,
) -> Result<String, AllocError> {
    if noted {
        C::refusal_note(alloc, octets, stop, ifs)
    } else {
        Ok(String::new(alloc))
    }
}
