//! Decimal numbers.

ghost use Rattle.std.specs.Prelude.{◌≡◌};
ghost use Rattle.std.specs.Char.{is_ascii_digit};
ghost use Rattle.std.specs.List.{list_all};
ghost use Rattle.mqsc_values.specs.Numbers.{is_number, number_of};

/// What a text says as a number of at most so much.
#[derive(Clone, Copy, Debug, PartialEq, Eq)]
pub enum Number {
    /// It is this number.
    Value(u64),
    /// It is a number above the limit.
    TooLarge,
    /// It isn't a number.
    Bad,
}

fn are_digits(text: &[u8]) -> bool
    ensures { result ≡ list_all is_ascii_digit text.now }
{
    text.iter().all(|c| c.is_ascii_digit())
}

/// Whether a text is a number: decimal digits without a leading zero.
fn is_number(text: &[u8]) -> bool
    ensures { result ≡ is_number text.now }
{
    are_digits(text) && (text.len() == 1 || text.len() > 1 && text[0] != b'0')
}

/// The number that a text writes in decimal digits, without a sign or a leading zero.
pub fn read_number(text: &[u8], most: u64) -> Number
    ensures { result ≡ number_of text.now most }
{
    if !is_number(text) {
        return Number::Bad;
    }
    let Ok(digits) = str::from_utf8(text) else {
        unreachable!()
    };
    match digits.parse::<u64>() {
        Ok(value) if value <= most => Number::Value(value),
        _ => Number::TooLarge,
    }
}
