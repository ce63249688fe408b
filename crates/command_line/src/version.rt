//! The words that ask for the version of the program.

ghost use Rattle.std.specs.Prelude.{◌≡◌, string_bytes};
ghost use Rattle.command_line.specs.Version.{asks_for_version, is_json, is_version};
ghost use Rattle.command_line.specs.Form.{texts};

/// Whether the words after the program's name are `--version` or `-V`, alone or with `--json`.
pub fn asks_for_version(words: &[String]) -> bool
    ensures { result ≡ asks_for_version (texts words.now) }
{
    match words {
        [_, word] => is_version(word),
        [_, first, second] => {
            is_version(first) && is_json(second) || is_json(first) && is_version(second)
        }
        _ => false,
    }
}

fn is_version(word: &String) -> bool
    ensures { result ≡ is_version (string_bytes word.now) }
{
    word.as_str() == "--version" || word.as_str() == "-V"
}

fn is_json(word: &String) -> bool
    ensures { result ≡ is_json (string_bytes word.now) }
{
    word.as_str() == "--json"
}
