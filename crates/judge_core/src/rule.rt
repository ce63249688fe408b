//! The rules that a block can break.

ghost use Rattle.std.specs.Prelude.{◌≡◌, ◌<◌};
ghost use Rattle.judge_core.specs.Rules.{rule_clause, rule_name, rule_place};

use octet_core::Named;

/// A rule of T=1 that a block, or its absence, breaks. [`Rule::clause`] has the clause of ISO/IEC 7816-3:2006.
#[derive(Clone, Copy, Debug, PartialEq, Eq)]
pub enum Rule {
    /// The node address isn't the one that the first block set, or isn't swapped in an answer.
    NodeAddress,
    /// No block has this control octet.
    ControlOctet,
    /// No block of its kind has a field of this length.
    Length,
    /// The check octet is wrong, and its sender made it so.
    CheckOctet,
    /// A size of 0 or 255 octets is reserved.
    ReservedSize,
    /// A field with more octets than the other end takes.
    FieldSize,
    /// It is the other end's turn to send.
    Turn,
    /// Only a terminal asks for RESYNCH, and only a card for time.
    ForeignRequest,
    /// An I-block doesn't have the next number, or an R-block doesn't have the expected one.
    SequenceNumber,
    /// An I-block, or a request, is due.
    BlockDue,
    /// The R-block that acknowledges a block of a chain is due.
    AcknowledgmentDue,
    /// An acknowledgment reports an error, although the block had none.
    ErrorCode,
    /// The last I-block is due again.
    RepeatDue,
    /// A repeated I-block has other octets than before.
    RepeatedOctets,
    /// An R-block after an error is due.
    CorrectionDue,
    /// The same request is due again.
    RequestDue,
    /// The response to a request is due.
    ResponseDue,
    /// A response carries another size or multiple than its request.
    ResponseOctet,
    /// A response without a request.
    Unasked,
    /// ABORT outside a chain.
    NoChain,
    /// RESYNCH within an exchange, before two repeats and corrections together.
    EarlyResynch,
    /// A block was repeated more often than the standard permits.
    TooManyRepeats,
    /// No block came, although one was owed.
    Silence,
}

/// All rules, in the order of their places.
pub const RULES: [Rule; 23] = [
    Rule::NodeAddress,
    Rule::ControlOctet,
    Rule::Length,
    Rule::CheckOctet,
    Rule::ReservedSize,
    Rule::FieldSize,
    Rule::Turn,
    Rule::ForeignRequest,
    Rule::SequenceNumber,
    Rule::BlockDue,
    Rule::AcknowledgmentDue,
    Rule::ErrorCode,
    Rule::RepeatDue,
    Rule::RepeatedOctets,
    Rule::CorrectionDue,
    Rule::RequestDue,
    Rule::ResponseDue,
    Rule::ResponseOctet,
    Rule::Unasked,
    Rule::NoChain,
    Rule::EarlyResynch,
    Rule::TooManyRepeats,
    Rule::Silence,
];

impl Rule {
    /// Returns its place among [`RULES`], from 0.
    pub fn place(self) -> usize
        ensures place { result ≡ rule_place self }
        ensures below { result < 23 }
    {
        self as usize
    }

    /// Returns its clause in ISO/IEC 7816-3:2006.
    pub fn clause(self) -> &'static str
        ensures { result.now ≡ rule_clause self }
    {
        match self {
            Rule::NodeAddress => "11.3.2.1",
            Rule::ControlOctet => "11.3.2.2",
            Rule::Length => "11.3.2.3",
            Rule::CheckOctet => "11.3.4",
            Rule::ReservedSize => "11.4.2",
            Rule::FieldSize => "11.4.2",
            Rule::Turn => "11.6.2.3 rule 1",
            Rule::ForeignRequest => "11.6.2.3 rule 3, 11.6.3.2 rule 6",
            Rule::SequenceNumber => "11.6.2.3 rule 2.1, 11.6.3.2 rule 7.1",
            Rule::BlockDue => "11.6.2.3 rule 2.1",
            Rule::AcknowledgmentDue => "11.6.2.3 rule 2.2",
            Rule::ErrorCode => "11.6.2.3 rule 2.2",
            Rule::RepeatDue => "11.6.3.2 rule 7.1",
            Rule::RepeatedOctets => "11.6.3.2 rule 7.1",
            Rule::CorrectionDue => "11.6.3.2 rules 7.1 and 7.2",
            Rule::RequestDue => "11.6.3.2 rule 7.3",
            Rule::ResponseDue => "11.6.2.3 rules 3 and 4, 11.6.3.2 rules 6 and 9",
            Rule::ResponseOctet => "11.6.2.3 rules 3 and 4",
            Rule::Unasked => "11.6.2.3 rules 3 and 4",
            Rule::NoChain => "11.6.3.2 rule 9",
            Rule::EarlyResynch => "11.6.3.2 rule 6",
            Rule::TooManyRepeats => "11.6.3.2 rule 7.4",
            Rule::Silence => "11.6.2.3 rule 1",
        }
    }
}

/// What the block did that breaks the rule, in a few words.
impl Named for Rule {
    ghost text = { rule_name };

    fn name(self) -> &'static str {
        match self {
            Rule::NodeAddress => "node address",
            Rule::ControlOctet => "control octet",
            Rule::Length => "length",
            Rule::CheckOctet => "check octet",
            Rule::ReservedSize => "reserved size",
            Rule::FieldSize => "field too long",
            Rule::Turn => "out of turn",
            Rule::ForeignRequest => "request of the other end",
            Rule::SequenceNumber => "sequence number",
            Rule::BlockDue => "no I-block",
            Rule::AcknowledgmentDue => "no acknowledgment",
            Rule::ErrorCode => "error code",
            Rule::RepeatDue => "no repeat",
            Rule::RepeatedOctets => "repeat with other octets",
            Rule::CorrectionDue => "no R-block",
            Rule::RequestDue => "no repeated request",
            Rule::ResponseDue => "no response",
            Rule::ResponseOctet => "response with another octet",
            Rule::Unasked => "response to no request",
            Rule::NoChain => "ABORT outside a chain",
            Rule::EarlyResynch => "RESYNCH too early",
            Rule::TooManyRepeats => "too many repeats",
            Rule::Silence => "no block",
        }
    }
}
