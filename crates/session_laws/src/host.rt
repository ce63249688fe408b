//! The host of a card that may ask the terminal for something before it replies.

ghost use Rattle.std.specs.Prelude.{◌≡◌, List, [], ◌∷◌, ℕ, true, false};
ghost use Rattle.line_core.specs.Service.{Event, Happens};
ghost use Rattle.session_laws.specs.Hosts.{event_at};

/// What the host of a card does in its turn.
#[derive(Clone, Copy, Debug, PartialEq, Eq)]
pub enum HostTurn {
    /// It replies, with `AskingHost::reply`.
    Reply,
    /// It asks for any multiple of the waiting time: S(WTX request) (ISO/IEC 7816-3, clause 11.4.3).
    MoreTime(u8),
    /// It asks for fields of at most so many octets to the card: S(IFS request) (clause 11.4.2).
    AskIfs(u8),
}

/// The application of a card, which may ask the terminal for more time or for a size before it replies.
///
/// Contracts see its turns since an earlier state of the host. Each is about a command that is new to it, or about which
/// the terminal granted its request. If nothing is known about them, `served` always holds: `λ _ _ _. Unit {0}`.
pub trait AskingHost {
    /// Whether these may be the turns since an earlier state, the second argument.
    ghost served: { Self → Self → List Event → Type 0 };

    /// The reply to the last command.
    ghost reply: { Self → List ℕ };

    /// Acts on a command.
    fn act(&mut self, command: &[u8]) -> HostTurn
        ensures { Happens (served self.old) (served self.new)
            (event_at true command.now (reply self.new) result ∷ []) };

    /// Goes on with a command, after the terminal granted what the host asked for.
    fn go_on(&mut self, command: &[u8]) -> HostTurn
        ensures { Happens (served self.old) (served self.new)
            (event_at false command.now (reply self.new) result ∷ []) };

    /// Returns the reply to the last command, with its status bytes: at most 65,538 octets.
    fn reply(&self) -> &[u8]
        ensures { result.now ≡ reply self.now };
}
