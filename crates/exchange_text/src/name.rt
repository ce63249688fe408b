//! The first words of lines.

ghost use Rattle.std.specs.Prelude.{◌≡◌};
ghost use Rattle.exchange_text.specs.Names.{name_of, name_text, named_in};

/// What the first word of a line names.
#[derive(Clone, Copy, Debug, PartialEq, Eq)]
pub enum Name {
    Command,
    Ifsd,
    Quiet,
    Answer,
    IfsSet,
    GivenUp,
    Dead,
    Reply,
    Time,
    Ifsc,
    Asked,
    FromTerminal,
    FromCard,
    Moment,
    Note,
}

/// All names, the most frequent first.
const NAMES: [Name; 15] = [
    Name::FromTerminal,
    Name::FromCard,
    Name::Moment,
    Name::Note,
    Name::Command,
    Name::Ifsd,
    Name::Quiet,
    Name::Answer,
    Name::IfsSet,
    Name::GivenUp,
    Name::Dead,
    Name::Reply,
    Name::Time,
    Name::Ifsc,
    Name::Asked,
];

impl Name {
    /// Returns the name's word.
    pub fn word(self) -> &'static str
        ensures { result.now ≡ name_text self }
    {
        match self {
            Name::Command => "command",
            Name::Ifsd => "ifsd",
            Name::Quiet => "quiet",
            Name::Answer => "answer",
            Name::IfsSet => "ifs-set",
            Name::GivenUp => "given-up",
            Name::Dead => "dead",
            Name::Reply => "reply",
            Name::Time => "time",
            Name::Ifsc => "ifsc",
            Name::Asked => "asked",
            Name::FromTerminal => "t",
            Name::FromCard => "c",
            Name::Moment => "at",
            Name::Note => "note",
        }
    }

    /// Returns the name of a word.
    pub(crate) fn from_word(word: &[u8]) -> Option<Name>
        ensures { result ≡ name_of word.now }
    {
        named_in(&NAMES, word)
    }
}

/// Returns the first of these names with this word.
fn named_in(names: &[Name], word: &[u8]) -> Option<Name>
    ensures { result ≡ named_in names.now word.now }
{
    let mut rest = names;
    while let [name, after @ ..] = rest {
        if word == name.word().as_bytes() {
            return Some(*name);
        }
        rest = after;
    }
    None
}
