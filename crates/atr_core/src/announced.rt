//! The interface bytes that T0 or a TD announces.

ghost use Rattle.std.specs.Prelude.{◌≡◌, ◌+◌, ◌≤◌, ◌/◌, ◌%◌};
ghost use Rattle.atr_core.specs.Atr.{count_of};
ghost use Rattle.atr_core.specs.Partial.{Announces, AwaitsByte, InOrder, Puts, awaits_byte, is_announced};

use crate::Interface;

/// Which of TA, TB, TC and TD follow T0 or a TD.
#[derive(Clone, Copy)]
pub(crate) struct Announced {
    pub(crate) ta: bool,
    pub(crate) tb: bool,
    pub(crate) tc: bool,
    pub(crate) td: bool,
}

impl Announced {
    /// Returns what the high nibble of T0 or of a TD announces.
    pub(crate) fn by(octet: u8) -> Announced
        ensures { Announces result octet }
    {
        Announced {
            ta: octet / 0x10 % 2 == 1,
            tb: octet / 0x20 % 2 == 1,
            tc: octet / 0x40 % 2 == 1,
            td: octet / 0x80 == 1,
        }
    }

    /// Returns how many of TA, TB and TC follow.
    #[inline]
    pub(crate) fn byte_count(self) -> usize
        ensures value { result ≡ count_of self.ta + count_of self.tb + count_of self.tc }
        ensures few { result ≤ 3 }
    {
        usize::from(self.ta) + usize::from(self.tb) + usize::from(self.tc)
    }

    /// Whether TA, TB or TC is awaited.
    pub(crate) fn has_byte(self) -> bool
        ensures { result ≡ awaits_byte self }
    {
        self.ta || self.tb || self.tc
    }

    /// Whether anything is awaited.
    pub(crate) fn is_some(self) -> bool
        ensures { result ≡ is_announced self }
    {
        self.has_byte() || self.td
    }
}

impl Interface {
    /// Puts the first byte that is awaited. Returns the bytes, and what is still awaited.
    pub(crate) fn with(self, awaited: Announced, octet: u8) -> (Interface, Announced)
        requires ordered { InOrder self awaited }
        requires awaited { AwaitsByte awaited }
        ensures { Puts self awaited octet result.0 result.1 }
    {
        if awaited.ta {
            let bytes = Interface {
                ta: Some(octet),
                ..self
            };
            return (
                bytes,
                Announced {
                    ta: false,
                    ..awaited
                },
            );
        }
        if awaited.tb {
            let bytes = Interface {
                tb: Some(octet),
                ..self
            };
            return (
                bytes,
                Announced {
                    tb: false,
                    ..awaited
                },
            );
        }
        let bytes = Interface {
            tc: Some(octet),
            ..self
        };
        (
            bytes,
            Announced {
                tc: false,
                ..awaited
            },
        )
    }
}
