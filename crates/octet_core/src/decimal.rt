//! Numbers as decimal text.

ghost use Rattle.std.specs.Prelude.{◌≡◌, ◌≢◌, ℕ, ◌<◌, ◌^◌, IfSome, IfNone, decimal, true};
ghost use Rattle.std.specs.Str.Parse.{digits_value};
ghost use Rattle.std.specs.List.{list_all};
ghost use Rattle.std.specs.Char.{is_ascii_digit};
ghost use Rattle.octet_core.specs.Decimal.{decimal_number, is_decimal};

/// Parses a number of 1 to 15 decimal digits without a leading 0, or 0 itself. Any other text gives
/// `None`.
pub fn decimal_of(text: &[u8]) -> Option<u64>
    ensures number { result ≡ decimal_number text.now }
    ensures found { IfSome result (λ n. text.now ≡ decimal n) }
    ensures most { IfSome result (λ n. n < 10 ^ 15) }
    ensures none { IfNone result ((n : ℕ) → n < 10 ^ 15 → text.now ≢ decimal n) }
{
    if is_decimal(text) { parsed(text) } else { None }
}

/// Parses the number in such a text.
fn parsed(text: &[u8]) -> Option<u64>
    requires { is_decimal text.now ≡ true }
    ensures { result ≡ Some (digits_value 10 text.now) }
{
    match str::from_utf8(text) {
        Ok(text) => text.parse().ok(),
        Err(_) => None,
    }
}

/// Whether a text is 1 to 15 decimal digits without a leading 0, or 0 itself.
fn is_decimal(text: &[u8]) -> bool
    ensures { result ≡ is_decimal text.now }
{
    match text {
        [digit] => digit.is_ascii_digit(),
        [first, ..] => *first != b'0' && text.len() <= 15 && are_digits(text),
        [] => false,
    }
}

fn are_digits(text: &[u8]) -> bool
    ensures { result ≡ list_all is_ascii_digit text.now }
{
    text.iter().all(|digit| digit.is_ascii_digit())
}
