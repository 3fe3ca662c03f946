//! The pieces that the texts of selectors are made of.
ghost use Rattle.std.specs.Prelude.{◌≡◌, ◌++◌, flat_map, OnOk, codes};
ghost use Rattle.std.specs.Fmt.{signed_decimal};
ghost use Rattle.selector_read.specs.Writing.{after_comma, comma_list, compare_sign, escape_text, math_sign, quoted, string_byte, truth_word, words};

use crate::{CompareOp, MathOp};
use byte_lists::Bytes;
use itoa::Buffer;
use std::alloc::AllocError;

/// The sign of an operator, with a space at each side.
pub(crate) fn math_sign_of(op: MathOp) -> &'static [u8]
    ensures { result.now ≡ math_sign op }
{
    match op {
        MathOp::Add => b" + ",
        MathOp::Sub => b" - ",
        MathOp::Mul => b" * ",
        MathOp::Div => b" / ",
    }
}

/// The sign of a comparison, with a space at each side.
pub(crate) fn compare_sign_of(op: CompareOp) -> &'static [u8]
    ensures { result.now ≡ compare_sign op }
{
    match op {
        CompareOp::Equal => b" = ",
        CompareOp::Unequal => b" <> ",
        CompareOp::Less => b" < ",
        CompareOp::LessEqual => b" <= ",
        CompareOp::Greater => b" > ",
        CompareOp::GreaterEqual => b" >= ",
    }
}

/// TRUE or FALSE.
pub(crate) fn truth_word_of(truth: bool) -> &'static [u8]
    ensures { result.now ≡ truth_word truth }
{
    if truth { b"TRUE" } else { b"FALSE" }
}

/// Puts a number at the end, in decimal.
pub(crate) fn put_number(out: &mut Vec<u8>, number: i64) -> Result<(), AllocError>
    ensures { OnOk result (out.new.items ≡ out.old.items ++ signed_decimal number) }
{
    let mut digits = Buffer::new();
    out.extend_from_slice(digits.format(number).as_bytes())
}

/// Puts the words of a form at the end, with NOT before them where the form is negated.
pub(crate) fn put_words(out: &mut Vec<u8>, negated: bool, last: &[u8]) -> Result<(), AllocError>
    ensures { OnOk result (out.new.items ≡ out.old.items ++ words negated last.now) }
{
    if negated {
        out.extend_from_slice(b" NOT")?;
    }
    out.extend_from_slice(last)
}

/// Puts a byte of a string at the end, a quote twice.
fn put_string_byte(out: &mut Vec<u8>, byte: u8) -> Result<(), AllocError>
    ensures { OnOk result (out.new.items ≡ out.old.items ++ string_byte byte) }
{
    if byte == b'\'' {
        out.extend_from_slice(b"''")
    } else {
        out.extend_from_slice(&[byte])
    }
}

/// Puts the bytes of a string at the end, each quote twice.
fn put_string_bytes(out: &mut Vec<u8>, text: &[u8]) -> Result<(), AllocError>
    ensures { OnOk result (out.new.items ≡ out.old.items ++ flat_map string_byte text.now) }
{
    for byte in text {
        put_string_byte(out, *byte)?;
    }
    Ok(())
}

/// Puts a string at the end, in quotes.
pub(crate) fn put_quoted(out: &mut Vec<u8>, text: &[u8]) -> Result<(), AllocError>
    ensures { OnOk result (out.new.items ≡ out.old.items ++ quoted text.now) }
{
    out.extend_from_slice(b"'")?;
    put_string_bytes(out, text)?;
    out.extend_from_slice(b"'")
}

/// Puts a comma and a string at the end.
fn put_after_comma(out: &mut Vec<u8>, text: &[u8]) -> Result<(), AllocError>
    ensures { OnOk result (out.new.items ≡ out.old.items ++ after_comma text.now) }
{
    out.extend_from_slice(b", ")?;
    put_quoted(out, text)
}

/// Puts strings at the end, each behind a comma.
fn put_after_commas(out: &mut Vec<u8>, list: &[Bytes]) -> Result<(), AllocError>
    ensures { OnOk result (out.new.items ≡ out.old.items ++ flat_map after_comma list.now) }
{
    for text in list {
        put_after_comma(out, text.as_slice())?;
    }
    Ok(())
}

/// Puts strings at the end, with commas between them.
pub(crate) fn put_list(out: &mut Vec<u8>, list: &[Bytes]) -> Result<(), AllocError>
    ensures { OnOk result (out.new.items ≡ out.old.items ++ comma_list list.now) }
{
    if let Some((first, rest)) = list.split_first() {
        put_quoted(out, first.as_slice())?;
        put_after_commas(out, rest)?;
    }
    Ok(())
}

/// Puts an ESCAPE with its character at the end, where there is one.
pub(crate) fn put_escape(out: &mut Vec<u8>, escape: Option<char>) -> Result<(), AllocError>
    ensures { OnOk result (out.new.items ≡ out.old.items ++ escape_text escape) }
{
    let Some(character) = escape else {
        return Ok(());
    };
    let mut bytes = [0; 4];
    out.extend_from_slice(b" ESCAPE ")?;
    put_quoted(out, character.encode_utf8(&mut bytes).as_bytes())
}
