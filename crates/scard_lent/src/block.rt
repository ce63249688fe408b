//! Blocks of T=1 (ISO/IEC 7816-3, clause 11.3).

ghost use Rattle.std.specs.Prelude.{◌≡◌, ◌≢◌, ◌⊎◌, ◌≤◌, ◌<◌, length, [], IfSome, IfNone};
ghost use Rattle.octet_core.specs.Grammar.{self_ended, Refuses};
ghost use Rattle.block_core.specs.Block.{Parts, IsBlock, IsReason, Suits};
ghost use Rattle.block_core.specs.declared.pcb.Pcb.TheVariants.{Info, Ready, Request, Response};
ghost use Rattle.c_lent.specs.Verdict.{Tells, Puts, ok_at, wrong_argument};
ghost use Rattle.c_lent.specs.Number.{number_of, fault_of, subject_of};
ghost use Rattle.octet_core.specs.Sizes.{IsReserved};
ghost use Rattle.c_lent.specs.Block.{block_reason, IsDecoded, IsUnfit, IsOf, ShowsPcb};

use c_lent::block::{CBlock, CPcb};
use c_lent::verdict::Verdict;

/// Decodes the block at the front of the octets, with an information size of 1 to 254. The place of `OK` is the length
/// of the block.
#[unsafe(no_mangle)]
pub extern "C" fn scard_block_decode(octets: &[u8], ifs: u8, out: &mut CBlock) -> Verdict
    ensures ok { result.status ≡ 0 → IsDecoded ifs octets.now result out.new }
    ensures place { result.status ≡ 0 → result ≡ ok_at result.place }
    ensures refused { (IsReserved ifs → ⊥) → result.status ≢ 0 →
        Tells block_reason (Refuses self_ended (IsBlock ifs) (IsReason ifs) octets.now) result }
    ensures argument { IsReserved ifs → result ≡ wrong_argument 0 }
    ensures stays { result.status ≢ 0 → out.new ≡ out.old }
{
    c_lent::block::block_decode(octets, ifs, out)
}

/// Writes the parts of a PCB. If the octet isn't a PCB, the kind is 0, and so are its other parts.
#[unsafe(no_mangle)]
pub extern "C" fn scard_block_parts(pcb: u8, out: &mut CPcb)
    ensures { ShowsPcb pcb out.new }
{
    c_lent::block::block_parts(pcb, out)
}

/// Encodes an I-block. Returns `ARGUMENT` with place 0 if `ns` isn't 0 or 1, or if the field has more than 254 octets.
#[unsafe(no_mangle)]
pub extern "C" fn scard_block_i(nad: u8, ns: u8, more: bool, inf: &[u8], out: &mut [u8]) -> Verdict
    ensures written { IfSome (number_of ns) (λ number. length inf.now ≤ 254 →
        Puts (IsBlock 254 (record { nad = nad; pcb = Info number more; inf = inf.now })) out.old out.new result) }
    ensures number { IfNone (number_of ns) (result ≡ wrong_argument 0) }
    ensures long { 254 < length inf.now → result ≡ wrong_argument 0 }
    ensures stays { result.status ≢ 0 → out.new ≡ out.old }
{
    c_lent::block::block_i(nad, ns, more, inf, out)
}

/// Encodes an R-block. Returns `ARGUMENT` with place 0 if `nr` isn't 0 or 1, or if `fault` is above 2.
#[unsafe(no_mangle)]
pub extern "C" fn scard_block_r(nad: u8, nr: u8, fault: u8, out: &mut [u8]) -> Verdict
    ensures written { IfSome (number_of nr) (λ number. IfSome (fault_of fault) (λ fault.
        Puts (IsBlock 254 (record { nad = nad; pcb = Ready number fault; inf = [] })) out.old out.new result)) }
    ensures number { IfNone (number_of nr) (result ≡ wrong_argument 0) }
    ensures fault { IfNone (fault_of fault) (result ≡ wrong_argument 0) }
    ensures stays { result.status ≢ 0 → out.new ≡ out.old }
{
    c_lent::block::block_r(nad, nr, fault, out)
}

/// Encodes an S-block that is a request. Returns `ARGUMENT` with place 0 if `about` is above 3, or if the request can't
/// have this field.
#[unsafe(no_mangle)]
pub extern "C" fn scard_block_s_request(nad: u8, about: u8, inf: &[u8], out: &mut [u8]) -> Verdict
    ensures written { IfSome (subject_of about) (λ s. Suits 254 (Request s) inf.now →
        Puts (IsBlock 254 (record { nad = nad; pcb = Request s; inf = inf.now })) out.old out.new result) }
    ensures about { IfNone (subject_of about) (result ≡ wrong_argument 0) }
    ensures unfit { IfSome (subject_of about) (λ s. (Suits 254 (Request s) inf.now → ⊥) →
        result ≡ wrong_argument 0) }
    ensures stays { result.status ≢ 0 → out.new ≡ out.old }
{
    c_lent::block::block_s_request(nad, about, inf, out)
}

/// Encodes an S-block that is a response. Returns `ARGUMENT` with place 0 if `about` is above 3, or if the response
/// can't have this field.
#[unsafe(no_mangle)]
pub extern "C" fn scard_block_s_response(nad: u8, about: u8, inf: &[u8], out: &mut [u8]) -> Verdict
    ensures written { IfSome (subject_of about) (λ s. Suits 254 (Response s) inf.now →
        Puts (IsBlock 254 (record { nad = nad; pcb = Response s; inf = inf.now })) out.old out.new result) }
    ensures about { IfNone (subject_of about) (result ≡ wrong_argument 0) }
    ensures unfit { IfSome (subject_of about) (λ s. (Suits 254 (Response s) inf.now → ⊥) →
        result ≡ wrong_argument 0) }
    ensures stays { result.status ≢ 0 → out.new ≡ out.old }
{
    c_lent::block::block_s_response(nad, about, inf, out)
}

/// Encodes the block with this control octet and field. Returns `ARGUMENT` with place 0 if there is no such block.
#[unsafe(no_mangle)]
pub extern "C" fn scard_block_encode(nad: u8, pcb: u8, inf: &[u8], out: &mut [u8]) -> Verdict
    ensures { ((v : Parts) × IsOf nad pcb inf.now v × Puts (IsBlock 254 v) out.old out.new result)
        ⊎ (IsUnfit pcb inf.now × (result ≡ wrong_argument 0) × (out.new ≡ out.old)) }
{
    c_lent::block::block_encode(nad, pcb, inf, out)
}
