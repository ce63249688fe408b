//! Whether words ask for an explanation or for JSON. These options count even if the parser refuses the words.

ghost use Rattle.std.specs.Prelude.{◌≡◌};
ghost use Rattle.command_line.specs.Asked.{asked_in, asks_for, asks_for_json, asks_to_explain};
ghost use Rattle.command_line.specs.Form.{texts};

/// Whether one of the words after the program's name is `--explain`. After `--` it is a word like any other.
pub fn asks_to_explain(words: &[String]) -> bool
    ensures { result ≡ asks_to_explain (texts words.now) }
{
    asks_for("--explain", words)
}

/// Whether one of the words after the program's name is `--json`. After `--` it is a word like any other.
pub fn asks_for_json(words: &[String]) -> bool
    ensures { result ≡ asks_for_json (texts words.now) }
{
    asks_for("--json", words)
}

/// Whether one of the words after the first is this option.
fn asks_for(option: &str, words: &[String]) -> bool
    ensures { result ≡ asks_for option.now (texts words.now) }
{
    match words.split_first() {
        Some((_, rest)) => is_asked(option, rest),
        None => false,
    }
}

fn is_asked(option: &str, words: &[String]) -> bool
    ensures { result ≡ asked_in option.now (texts words.now) }
{
    for word in words {
        if word.as_str() == "--" {
            return false;
        }
        if word.as_str() == option {
            return true;
        }
    }
    false
}
