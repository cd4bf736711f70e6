//! The number at the end of a name, as the 12 of `a12` or `a[12]`.
ghost use Rattle.std.specs.Prelude.{◌≡◌};
ghost use Rattle.net_order.specs.Index.{index_key, with_appended_digit, key_of_end, trailing, with_byte, with_digit, with_other_byte};

/// What a name has at its end, as far as its bytes have been read.
#[derive(Clone, Copy, Drop, Debug, PartialEq, Eq)]
pub enum TrailingNumber {
    /// No number: nothing, or a letter after which no digit came.
    Nothing,
    /// A number, whose last digit is the last byte.
    Digits(u64),
    /// A number, and after it bytes that are neither letters nor digits, such as brackets.
    DigitsThenOther(u64),
}

/// A greater number counts as this one, so that no name is refused for its number.
pub const MAX_NUMBER: u64 = 1_000_000_000_000_000_000;

/// The number with one more digit.
fn with_appended_digit(number: u64, digit: u8) -> u64
    ensures { result ≡ with_appended_digit number digit }
{
    number
        .saturating_mul(10)
        .saturating_add(u64::from(digit))
        .min(MAX_NUMBER)
}

/// A digit right after a digit lengthens the number; any other digit begins a new one.
fn with_digit(trailing: TrailingNumber, digit: u8) -> TrailingNumber
    ensures { result ≡ with_digit trailing digit }
{
    match trailing {
        TrailingNumber::Nothing => TrailingNumber::Digits(u64::from(digit)),
        TrailingNumber::Digits(number) => TrailingNumber::Digits(with_appended_digit(
            number, digit,
        )),
        TrailingNumber::DigitsThenOther(_) => TrailingNumber::Digits(u64::from(digit)),
    }
}

/// A byte that is neither a letter nor a digit ends the number, but does not remove it.
fn with_other_byte(trailing: TrailingNumber) -> TrailingNumber
    ensures { result ≡ with_other_byte trailing }
{
    match trailing {
        TrailingNumber::Nothing => TrailingNumber::Nothing,
        TrailingNumber::Digits(number) => TrailingNumber::DigitsThenOther(number),
        TrailingNumber::DigitsThenOther(number) => TrailingNumber::DigitsThenOther(number),
    }
}

/// What the name has at its end after one more byte of it. A letter removes the number.
fn with_byte(trailing: TrailingNumber, byte: u8) -> TrailingNumber
    ensures { result ≡ with_byte trailing byte }
{
    if byte.is_ascii_digit() {
        with_digit(trailing, byte - b'0')
    } else if byte.is_ascii_alphabetic() {
        TrailingNumber::Nothing
    } else {
        with_other_byte(trailing)
    }
}

/// What a name has at its end.
pub fn trailing_of(name: &[u8]) -> TrailingNumber
    ensures { result ≡ trailing name.now }
{
    name.iter().fold(TrailingNumber::Nothing, |trailing, byte| {
        with_byte(trailing, *byte)
    })
}

/// The key of an end: no number is less than every number.
fn key_of_end(trailing: TrailingNumber) -> u128
    ensures { result ≡ key_of_end trailing }
{
    match trailing {
        TrailingNumber::Nothing => 0,
        TrailingNumber::Digits(number) => u128::from(number) + 1,
        TrailingNumber::DigitsThenOther(number) => u128::from(number) + 1,
    }
}

/// The key of a name in order `index`: 0 if it has no number at its end, otherwise 1 more than the number.
pub fn index_key(name: &[u8]) -> u128
    ensures { result ≡ index_key name.now }
{
    key_of_end(trailing_of(name))
}
