//! Answers to reset as values.

ghost use Rattle.std.specs.Prelude.{◌≡◌, ◌<◌, ◌≤◌, ◌↔◌, ◌++◌, ◌∷◌, [], IfNone, IfSome, IsTrue, SomeIff, length, sum_by, ◌+◌};
ghost use Rattle.std.specs.Option.{option_or};
ghost use Rattle.std.specs.List.{AllByRecursion};
ghost use Rattle.octet_core.specs.Grammar.{Accepts, self_ended};
ghost use Rattle.atr_core.specs.declared.atr.Convention.TheVariants.{Direct};
ghost use Rattle.atr_core.specs.Atr.{AtrParts, IsAtr, IsProper, interface_octets, needs_tck, octets_of};
ghost use Rattle.atr_core.specs.Partial.{IsBlank, bare_of, with_section};

use crate::whole::read_parts;
use arrayvec::ArrayVec;
use std::marker::Model;

/// How the characters of a card encode octets, as TS says (ISO/IEC 7816-3, clause 8.2).
#[derive(Clone, Copy, Debug, PartialEq, Eq)]
pub enum Convention {
    /// TS is 3B.
    Direct,
    /// TS is 3F.
    Inverse,
}

/// The interface bytes TA, TB and TC that T0 or one TD announces. An absent one is `None`.
#[derive(Clone, Copy, Debug, Default, PartialEq, Eq)]
pub struct Interface {
    pub ta: Option<u8>,
    pub tb: Option<u8>,
    pub tc: Option<u8>,
}

impl Interface {
    /// Returns each of these bytes, or that of `other` if it is absent.
    pub(crate) fn or(self, other: Interface) -> Interface
        ensures ta { result.ta ≡ option_or self.ta other.ta }
        ensures tb { result.tb ≡ option_or self.tb other.tb }
        ensures tc { result.tc ≡ option_or self.tc other.tc }
    {
        Interface {
            ta: self.ta.or(other.ta),
            tb: self.tb.or(other.tb),
            tc: self.tc.or(other.tc),
        }
    }

    /// Returns how many of the bytes are present.
    fn count(self) -> usize
        ensures value { result ≡ length (octets_of self) }
        ensures few { result ≤ 3 }
    {
        usize::from(self.ta.is_some())
            + usize::from(self.tb.is_some())
            + usize::from(self.tc.is_some())
    }
}

/// One TD: the number of the protocol that it indicates, and the TA, TB and TC that it announces.
#[derive(Clone, Copy, Debug, Default, PartialEq, Eq)]
pub struct Indicated {
    /// T, at most 15 in an answer.
    pub protocol: u8,
    pub bytes: Interface,
}

/// An answer to reset (ISO/IEC 7816-3, clause 8.2). Its encoding has at most 33 octets, and each
/// protocol is at most 15. There is no field for TCK, which the other fields determine.
#[derive(Debug, Drop, PartialEq, Eq)]
pub struct Atr {
    convention: Convention,
    first: Interface,
    indicated: ArrayVec<Indicated, 31>,
    historical: ArrayVec<u8, 15>,
}

/// The greatest number of octets of an answer to reset.
pub(crate) const MOST_OCTETS: usize = 33;

impl Model for Atr {
    ghost use Rattle.atr_core.specs.Atr.{AtrParts, IsProper};

    ghost Value = { AtrParts };

    ghost view = { λ a. record {
      convention = a.convention;
      first = a.first;
      indicated =
          a.indicated.items;
      historical = a.historical.items;
    } };

    ghost invariant = { λ a. IsProper
        (record {
          convention = a.convention;
          first = a.first;
          indicated =
              a.indicated.items;
          historical = a.historical.items;
        }) };

    ghost inverse = { λ a. record {
      convention = a.convention;
      first = a.first;
      indicated = record { items = a.indicated };
      historical = record { items = a.historical };
    } };
}

impl Atr {
    /// Makes an answer of its parts. The result is `None` if a protocol is greater than 15, or the
    /// encoding has more than 33 octets.
    pub fn new(
        convention: Convention,
        first: Interface,
        indicated: ArrayVec<Indicated, 31>,
        historical: ArrayVec<u8, 15>,
    ) -> Option<Atr>
        ensures { let parts : AtrParts = record {
          convention = convention;
          first = first;
          indicated = indicated.items;
          historical = historical.items;
        } in
            SomeIff result (IsProper parts) parts }
    {
        let total = 2
            + interface_len(first, indicated.as_slice())
            + historical.len()
            + usize::from(has_tck(indicated.as_slice()));
        if !are_protocols(indicated.as_slice()) || total > MOST_OCTETS {
            return None;
        }
        Some(Atr {
            convention,
            first,
            indicated,
            historical,
        })
    }

    /// Makes an answer of TS 3B, with no interface bytes and no historical bytes.
    pub(crate) fn bare() -> Atr
        ensures { result ≡ bare_of Direct }
    {
        Atr {
            convention: Convention::Direct,
            first: Interface::default(),
            indicated: ArrayVec::new(),
            historical: ArrayVec::new(),
        }
    }

    /// Sets the convention of an answer that is blank, and drops the bytes that T0 announces.
    pub(crate) fn begin(&mut self, convention: Convention)
        requires { IsBlank self.old }
        ensures { self.new ≡ bare_of convention }
    {
        (self.convention, self.first) = (convention, Interface::default());
    }

    /// Drops all TDs and historical bytes.
    pub(crate) fn clear(&mut self)
        ensures { IsBlank self.new }
    {
        self.indicated.clear();
        self.historical.clear();
    }

    /// Adds the interface bytes of T0, or, if they are under a TD, the TD with this protocol.
    pub(crate) fn add_section(&mut self, under: Option<u8>, bytes: Interface)
        requires room { length self.old.indicated < 31 }
        requires proper { IsProper (with_section self.old under bytes) }
        ensures { self.new ≡ with_section self.old under bytes }
    {
        match under {
            None => self.first = bytes,
            Some(protocol) => self.indicated.push(Indicated { protocol, bytes }),
        }
    }

    /// Appends a historical byte.
    pub(crate) fn push_historical(&mut self, octet: u8)
        requires room { length self.old.historical < 15 }
        requires proper { IsProper
            (record self.old { historical = self.old.historical ++ octet ∷ [] }) }
        ensures { self.new ≡ record self.old { historical = self.old.historical ++ octet ∷ [] } }
    {
        self.historical.push(octet);
    }

    /// Reads the answer at the front of the octets in its place, and returns how many octets it takes. The result is
    /// `None` if there is no whole answer there; it doesn't say why.
    #[inline]
    pub(crate) fn read(&mut self, octets: &[u8]) -> Option<usize>
        requires { IsBlank self.old }
        ensures found { IfSome result
            (λ count. Accepts self_ended IsAtr octets.now self.new count) }
        ensures left { IfNone result (IsBlank self.new) }
    {
        let read = read_parts(
            octets,
            &mut self.convention,
            &mut self.first,
            &mut self.indicated,
            &mut self.historical,
        );
        if read.is_none() {
            self.indicated.clear();
            self.historical.clear();
        }
        read
    }

    /// Returns how the card encodes octets, as TS says.
    pub fn convention(&self) -> Convention
        ensures { result ≡ self.now.convention }
    {
        self.convention
    }

    /// Returns the interface bytes that T0 announces: TA1, TB1 and TC1.
    pub fn first(&self) -> Interface
        ensures { result ≡ self.now.first }
    {
        self.first
    }

    /// Returns the TDs in their order, at most 31, each with the interface bytes that it announces.
    pub fn indicated(&self) -> &[Indicated]
        ensures value { result.now ≡ self.now.indicated }
        ensures proper { IsProper self.now }
        ensures few { length result.now ≤ 31 }
    {
        self.indicated.as_slice()
    }

    /// Returns the historical bytes.
    pub fn historical(&self) -> &[u8]
        ensures value { result.now ≡ self.now.historical }
        ensures proper { IsProper self.now }
    {
        self.historical.as_slice()
    }
}

/// Returns how many interface bytes and TDs are present.
fn interface_len(first: Interface, indicated: &[Indicated]) -> usize
    requires { length indicated.now ≤ 31 }
    ensures value { result ≡ length (interface_octets first indicated.now) }
    ensures few { result ≤ 127 }
{
    first.count() + after_len(indicated)
}

/// Returns how many TDs, and interface bytes after TDs, are present.
fn after_len(indicated: &[Indicated]) -> usize
    requires { length indicated.now ≤ 31 }
    ensures { result ≡ sum_by (λ x. 1 + length (octets_of x.bytes)) indicated.now }
{
    indicated.iter().map(|x| 1 + x.bytes.count()).sum()
}

/// Whether each protocol fits in the low nibble of its TD.
fn are_protocols(indicated: &[Indicated]) -> bool
    ensures { IsTrue result ↔ AllByRecursion (λ x. x.protocol < 16) indicated.now }
{
    indicated.iter().all(|x| x.protocol < 16)
}

/// Whether there is a TCK: there is one if a protocol other than T=0 is indicated.
pub(crate) fn has_tck(indicated: &[Indicated]) -> bool
    ensures { result ≡ needs_tck indicated.now }
{
    indicated.iter().any(|x| x.protocol != 0)
}
