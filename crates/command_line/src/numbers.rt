//! Numbers as words of the command line.
ghost use Rattle.std.specs.Prelude.{◌≡◌, true};
ghost use Rattle.std.specs.List.{list_all};
ghost use Rattle.command_line.specs.Numbers.{is_count, is_digit, is_number, is_numeral, number_of};

use gen_core::MOST_MESSAGES;

/// The digit 0.
pub(crate) const ZERO: u8 = b'0';

/// The digit 9.
pub(crate) const NINE: u8 = b'9';

/// How many digits a number may have from which a script is made: as many as fit in 64 bits, whatever they are.
pub(crate) const MOST_DIGITS: usize = 19;

/// How many digits a count of messages may have.
pub(crate) const MOST_DIGITS_OF_COUNT: usize = 6;

/// Whether the byte is a decimal digit.
fn is_digit(byte: u8) -> bool
    ensures { result ≡ is_digit byte }
{
    ZERO <= byte && byte <= NINE
}

/// Whether all bytes are decimal digits.
fn all_digits(text: &[u8]) -> bool
    ensures { result ≡ list_all is_digit text.now }
{
    text.iter().all(|byte| is_digit(*byte))
}

/// Whether the text is one to so many decimal digits.
fn is_numeral(most: usize, text: &[u8]) -> bool
    ensures { result ≡ is_numeral most text.now }
{
    !text.is_empty() && text.len() <= most && all_digits(text)
}

/// The number that these digits write.
pub(crate) fn number_of(digits: &[u8]) -> u64
    requires { is_numeral MOST_DIGITS digits.now ≡ true }
    ensures { result ≡ number_of digits.now }
{
    let mut number = 0;
    'digits: for digit in digits {
        number = number * 10 + u64::from(*digit - ZERO);
    }
    number
}

/// Whether the text may stand as the number from which a script is made: 1 to 19 decimal digits.
pub(crate) fn is_number(text: &[u8]) -> bool
    ensures { result ≡ is_number text.now }
{
    is_numeral(MOST_DIGITS, text)
}

/// Whether the text may stand as a count of messages: 1 to 6 decimal digits, with a value from 1 to 100,000.
pub(crate) fn is_count(text: &[u8]) -> bool
    ensures { result ≡ is_count text.now }
{
    if !is_numeral(MOST_DIGITS_OF_COUNT, text) {
        return false;
    }
    let count = number_of(text);
    1 <= count && count <= MOST_MESSAGES
}
