//! The times of a line, which the caller keeps. Nothing is allocated.

ghost use Rattle.std.specs.Prelude.{◌≡◌, MatchOption, None};
ghost use Rattle.c_lent.specs.KeptTimes.{clocked_of, known_in, moments_of, rate_in, rates_in, sent_in, IsBegun};

use atr_core::T1Params;
use judge_times::{Clocked, Moments, Rates, Sent, Timing};

/// The moments of a block in microseconds. One is known if its mark isn't 0.
#[repr(C)]
#[derive(Clone, Copy)]
pub struct CMoments {
    pub first: u64,
    pub last: u64,
    pub has_first: u8,
    pub has_last: u8,
}

/// The times of a line. Its fields are private to the library. Only a value that a call left is usable, and each call
/// checks the fields.
#[repr(C)]
#[derive(Clone, Copy)]
pub struct CTimes {
    pub least: u64,
    pub sent_moment: u64,
    pub sent_octets: usize,
    pub came_moment: u64,
    pub came_octets: usize,
    pub hertz: u32,
    pub fi: u16,
    pub di: u16,
    pub has_sent: u8,
    pub has_came: u8,
    pub ifsc: u8,
    pub bwi: u8,
    pub cwi: u8,
}

impl CMoments {
    pub(crate) fn moments(self) -> Moments
        ensures { result ≡ moments_of self }
    {
        Moments {
            first: known_in(self.has_first, self.first),
            last: known_in(self.has_last, self.last),
        }
    }
}

impl CTimes {
    /// Returns the times with this state, if a call left it.
    pub fn clocked(&self) -> Option<Clocked>
        ensures { MatchOption result (IsBegun self.now → ⊥) (λ clocked.
            IsBegun self.now × (clocked ≡ clocked_of self.now)) }
    {
        if self.hertz == 0 {
            return None;
        }
        match T1Params::new(self.ifsc, self.bwi, self.cwi) {
            Some(params) => Some(self.with_params(params)),
            None => None,
        }
    }

    /// Returns the times with this state and these parameters of T=1.
    fn with_params(&self, params: T1Params) -> Clocked
        ensures { result ≡ record (clocked_of self.now) { params = params } }
    {
        Clocked {
            params,
            clock: u64::from(self.hertz),
            least: self.least,
            timing: Timing {
                rates: rates_in(self.fi, self.di),
                now: None,
                until: None,
                sent: sent_in(self.has_sent, self.sent_moment, self.sent_octets),
                came: sent_in(self.has_came, self.came_moment, self.came_octets),
            },
        }
    }

    /// Returns the state with the least moment and the blocks of these times.
    pub(crate) fn with_blocks(self, clocked: &Clocked) -> CTimes
        ensures { clocked_of result ≡ record (clocked_of self) {
          least = clocked.now.least;
          timing = record (clocked_of self).timing {
            sent = clocked.now.timing.sent;
            came = clocked.now.timing.came;
          };
        } }
    {
        let (has_sent, sent_moment, sent_octets) = sent(clocked.timing.sent);
        let (has_came, came_moment, came_octets) = sent(clocked.timing.came);
        CTimes {
            least: clocked.least,
            sent_moment,
            sent_octets,
            came_moment,
            came_octets,
            has_sent,
            has_came,
            ..self
        }
    }
}

pub(crate) fn rates_in(fi: u16, di: u16) -> Rates
    ensures { result ≡ rates_in fi di }
{
    (rate_in(fi), rate_in(di))
}

/// Returns F or D, or `None` for 0.
fn rate_in(rate: u16) -> Option<u16>
    ensures { result ≡ rate_in rate }
{
    if rate == 0 { None } else { Some(rate) }
}

fn known_in(has: u8, number: u64) -> Option<u64>
    ensures { result ≡ known_in has number }
{
    if has == 0 { None } else { Some(number) }
}

fn sent_in(has: u8, moment: u64, octets: usize) -> Option<Sent>
    ensures { result ≡ sent_in has moment octets }
{
    if has == 0 {
        None
    } else {
        Some(Sent { moment, octets })
    }
}

/// Returns the mark, the moment and the number of octets of which a moment is known; all 0 if none is.
fn sent(sent: Option<Sent>) -> (u8, u64, usize)
    ensures { sent_in result.0 result.1 result.2 ≡ sent }
{
    match sent {
        Some(Sent { moment, octets }) => (1, moment, octets),
        None => (0, 0, 0),
    }
}
