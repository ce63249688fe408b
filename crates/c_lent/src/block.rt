//! Blocks of T=1 (ISO/IEC 7816-3, clause 11.3).

ghost use Rattle.std.specs.Prelude.{◌≡◌, ◌≢◌, ◌⊎◌, ◌≤◌, ◌<◌, length, [], IfSome, IfNone};
ghost use Rattle.octet_core.specs.Grammar.{self_ended, Refuses};
ghost use Rattle.octet_core.specs.Sizes.{IsReserved};
ghost use Rattle.block_core.specs.Block.{Parts, IsBlock, IsReason, Suits};
ghost use Rattle.block_core.specs.declared.pcb.Pcb.TheVariants.{Info, Ready, Request, Response};
ghost use Rattle.c_lent.specs.Verdict.{Tells, Puts, ok_at, wrong_argument};
ghost use Rattle.c_lent.specs.Number.{number_of, fault_of, subject_of};
ghost use Rattle.c_lent.specs.Block.{block_reason, block_seen, pcb_shown, IsDecoded, IsUnfit, IsOf, ShowsPcb};

use crate::number::{fault, fault_of, number, number_of, subject, subject_of};
use crate::output::put;
use crate::verdict::{Numbered, Verdict};
use block_core::{BlockReason, BlockRef, LONGEST_BLOCK, Pcb};
use octet_core::is_reserved;

/// A decoded block. Its information field is the `inf_len` octets at offset `inf_place` of the octets.
#[repr(C)]
#[derive(Clone, Copy)]
pub struct CBlock {
    pub nad: u8,
    pub pcb: u8,
    pub inf_place: u8,
    pub inf_len: u8,
}

/// The parts of an octet that is no PCB.
const NO_PCB: CPcb = CPcb {
    kind: 0,
    number: 0,
    more: 0,
    fault: 0,
    about: 0,
};

/// The parts of a PCB. `kind` is 1 an I-block, 2 an R-block, 3 a request, 4 a response, and 0 no block. What a kind
/// lacks is 0.
#[repr(C)]
#[derive(Clone, Copy)]
pub struct CPcb {
    pub kind: u8,
    /// N(S) of an I-block, N(R) of an R-block.
    pub number: u8,
    /// 1 if the chain of an I-block continues after it.
    pub more: u8,
    /// What an R-block says: 0 no fault, 1 a fault of the redundancy check, 2 another fault.
    pub fault: u8,
    /// The subject of an S-block: 0 RESYNCH, 1 IFS, 2 ABORT, 3 WTX.
    pub about: u8,
}

/// Decodes the block at the front of the octets, with an information size of 1 to 254.
pub fn block_decode(octets: &[u8], ifs: u8, out: &mut CBlock) -> Verdict
    ensures ok { result.status ≡ 0 → IsDecoded ifs octets.now result out.new }
    ensures place { result.status ≡ 0 → result ≡ ok_at result.place }
    ensures refused { (IsReserved ifs → ⊥) → result.status ≢ 0 →
        Tells block_reason (Refuses self_ended (IsBlock ifs) (IsReason ifs) octets.now) result }
    ensures argument { IsReserved ifs → result ≡ wrong_argument 0 }
    ensures stays { result.status ≢ 0 → out.new ≡ out.old }
{
    if is_reserved(ifs) {
        return Verdict::argument();
    }
    match BlockRef::decode(octets, ifs) {
        Ok((block, taken)) => {
            *out = seen(block.nad(), block.pcb(), block.inf());
            Verdict::ok(taken)
        }
        Err(stop) => Verdict::stopped(stop),
    }
}

/// Writes the parts of a PCB. If the octet isn't a PCB, the kind is 0.
pub fn block_parts(pcb: u8, out: &mut CPcb)
    ensures { ShowsPcb pcb out.new }
{
    *out = match Pcb::from_octet(pcb) {
        Some(pcb) => pcb_shown(pcb),
        None => NO_PCB,
    };
}

/// Returns the parts of a PCB as a struct of C.
fn pcb_shown(pcb: Pcb) -> CPcb
    ensures { result ≡ pcb_shown pcb }
{
    match pcb {
        Pcb::Info { number: ns, more } => CPcb {
            kind: 1,
            number: number(ns),
            more: u8::from(more),
            ..NO_PCB
        },
        Pcb::Ready {
            number: nr,
            fault: told,
        } => CPcb {
            kind: 2,
            number: number(nr),
            fault: fault(told),
            ..NO_PCB
        },
        Pcb::Request(about) => CPcb {
            kind: 3,
            about: subject(about),
            ..NO_PCB
        },
        Pcb::Response(about) => CPcb {
            kind: 4,
            about: subject(about),
            ..NO_PCB
        },
    }
}

/// Encodes an I-block.
pub fn block_i(nad: u8, ns: u8, more: bool, inf: &[u8], out: &mut [u8]) -> Verdict
    ensures written { IfSome (number_of ns) (λ number. length inf.now ≤ 254 →
        Puts (IsBlock 254 (record { nad = nad; pcb = Info number more; inf = inf.now })) out.old out.new result) }
    ensures number { IfNone (number_of ns) (result ≡ wrong_argument 0) }
    ensures long { 254 < length inf.now → result ≡ wrong_argument 0 }
    ensures stays { result.status ≢ 0 → out.new ≡ out.old }
{
    let Some(number) = number_of(ns) else {
        return Verdict::argument();
    };
    put_block(BlockRef::new(nad, Pcb::Info { number, more }, inf), out)
}

/// Encodes an R-block.
pub fn block_r(nad: u8, nr: u8, fault: u8, out: &mut [u8]) -> Verdict
    ensures written { IfSome (number_of nr) (λ number. IfSome (fault_of fault) (λ fault.
        Puts (IsBlock 254 (record { nad = nad; pcb = Ready number fault; inf = [] })) out.old out.new result)) }
    ensures number { IfNone (number_of nr) (result ≡ wrong_argument 0) }
    ensures fault { IfNone (fault_of fault) (result ≡ wrong_argument 0) }
    ensures stays { result.status ≢ 0 → out.new ≡ out.old }
{
    let (Some(number), Some(fault)) = (number_of(nr), fault_of(fault)) else {
        return Verdict::argument();
    };
    put_block(BlockRef::new(nad, Pcb::Ready { number, fault }, &[]), out)
}

/// Encodes an S-block that is a request.
pub fn block_s_request(nad: u8, about: u8, inf: &[u8], out: &mut [u8]) -> Verdict
    ensures written { IfSome (subject_of about) (λ s. Suits 254 (Request s) inf.now →
        Puts (IsBlock 254 (record { nad = nad; pcb = Request s; inf = inf.now })) out.old out.new result) }
    ensures about { IfNone (subject_of about) (result ≡ wrong_argument 0) }
    ensures unfit { IfSome (subject_of about) (λ s. (Suits 254 (Request s) inf.now → ⊥) →
        result ≡ wrong_argument 0) }
    ensures stays { result.status ≢ 0 → out.new ≡ out.old }
{
    let Some(about) = subject_of(about) else {
        return Verdict::argument();
    };
    put_block(BlockRef::new(nad, Pcb::Request(about), inf), out)
}

/// Encodes an S-block that is a response.
pub fn block_s_response(nad: u8, about: u8, inf: &[u8], out: &mut [u8]) -> Verdict
    ensures written { IfSome (subject_of about) (λ s. Suits 254 (Response s) inf.now →
        Puts (IsBlock 254 (record { nad = nad; pcb = Response s; inf = inf.now })) out.old out.new result) }
    ensures about { IfNone (subject_of about) (result ≡ wrong_argument 0) }
    ensures unfit { IfSome (subject_of about) (λ s. (Suits 254 (Response s) inf.now → ⊥) →
        result ≡ wrong_argument 0) }
    ensures stays { result.status ≢ 0 → out.new ≡ out.old }
{
    let Some(about) = subject_of(about) else {
        return Verdict::argument();
    };
    put_block(BlockRef::new(nad, Pcb::Response(about), inf), out)
}

/// Encodes the block with this control octet and information field.
pub fn block_encode(nad: u8, pcb: u8, inf: &[u8], out: &mut [u8]) -> Verdict
    ensures { ((v : Parts) × IsOf nad pcb inf.now v × Puts (IsBlock 254 v) out.old out.new result)
        ⊎ (IsUnfit pcb inf.now × (result ≡ wrong_argument 0) × (out.new ≡ out.old)) }
{
    put_block(block_of(nad, pcb, inf), out)
}

/// Returns the block with this control octet and information field, if there is one.
fn block_of(nad: u8, pcb: u8, inf: &[u8]) -> Option<BlockRef<'_>>
    ensures found { IfSome result (λ block. IsOf nad pcb inf.now block) }
    ensures none { IfNone result (IsUnfit pcb inf.now) }
{
    BlockRef::new(nad, Pcb::from_octet(pcb)?, inf)
}

/// Writes a block, if there is one, to the front of a buffer. If the buffer has room for every block, it is encoded
/// there without a copy.
pub fn put_block(block: Option<BlockRef<'_>>, out: &mut [u8]) -> Verdict
    ensures written { IfSome block.entry
        (λ block. Puts (IsBlock 254 block) out.old out.new result) }
    ensures none { IfNone block.entry (result ≡ wrong_argument 0) }
    ensures stays { result.status ≢ 0 → out.new ≡ out.old }
{
    match block {
        Some(block) if out.len() >= LONGEST_BLOCK => Verdict::ok(block.encode_into(out)),
        Some(block) => put_shorter(&block, out),
        None => Verdict::argument(),
    }
}

/// Writes a block to a buffer that is too small for the longest block.
fn put_shorter(block: &BlockRef<'_>, out: &mut [u8]) -> Verdict
    ensures written { Puts (IsBlock 254 block.now) out.old out.new result }
    ensures stays { result.status ≢ 0 → out.new ≡ out.old }
{
    let mut octets = [0; LONGEST_BLOCK];
    let count = block.encode_into(&mut octets);
    put(&octets[..count], out)
}

/// Returns a struct of C for the block with these fields.
pub fn seen(nad: u8, pcb: Pcb, inf: &[u8]) -> CBlock
    requires { Suits 254 pcb inf.now }
    ensures { result ≡ block_seen (record { nad = nad; pcb = pcb; inf = inf.now }) }
{
    CBlock {
        nad,
        pcb: pcb.octet(),
        inf_place: 3,
        inf_len: inf.len() as u8,
    }
}

impl Numbered for BlockReason {
    ghost number = { block_reason };

    fn number(self) -> u8 {
        match self {
            BlockReason::BadPcb => 1,
            BlockReason::BadLen => 2,
            BlockReason::OverIfs => 3,
            BlockReason::BadIfs => 4,
            BlockReason::BadLrc => 5,
        }
    }
}
