//! How far a text's front passes a test of its bytes.
ghost use Rattle.std.specs.Prelude.{◌≡◌, ◌==◌, length};
ghost use Rattle.std.specs.Char.{is_ascii_digit, is_ascii_whitespace};
ghost use Rattle.std.specs.List.{position_or_len, take_while};
ghost use Rattle.selector_tokens.specs.Lexing.{begins_name, is_name_byte};

/// Whether an identifier can begin with this byte: an ASCII letter, `_` or `$`.
pub(crate) fn begins_name(byte: u8) -> bool
    ensures { result ≡ begins_name byte }
{
    byte.is_ascii_alphabetic() || byte == b'_' || byte == b'$'
}

/// Whether an identifier can go on with this byte.
fn is_name_byte(byte: u8) -> bool
    ensures { result ≡ is_name_byte byte }
{
    begins_name(byte) || byte.is_ascii_digit()
}

/// How many bytes the identifier or reserved word at the front has.
fn name_len(text: &[u8]) -> usize
    ensures { result ≡ length (take_while is_name_byte text.now) }
{
    text.iter().take_while(|byte| is_name_byte(**byte)).count()
}

/// The identifier or reserved word at the front.
#[tactic(auto, using(crate::proofs::Fronts::front))]
pub(crate) fn name_run(text: &[u8]) -> &[u8]
    ensures { result.now ≡ take_while is_name_byte text.now }
{
    &text[..name_len(text)]
}

/// How many digits stand at the front.
pub(crate) fn digits_len(text: &[u8]) -> usize
    ensures { result ≡ length (take_while is_ascii_digit text.now) }
{
    text.iter().take_while(|byte| byte.is_ascii_digit()).count()
}

/// How many bytes of white space stand at the front.
pub(crate) fn space_len(text: &[u8]) -> usize
    ensures { result ≡ length (take_while is_ascii_whitespace text.now) }
{
    text.iter()
        .take_while(|byte| byte.is_ascii_whitespace())
        .count()
}

/// How many bytes stand before the first quote.
pub(crate) fn plain_len(text: &[u8]) -> usize
    ensures { result ≡ position_or_len (λ byte. byte == 39) text.now }
{
    text.iter().take_while(|byte| **byte != b'\'').count()
}
