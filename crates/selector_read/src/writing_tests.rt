use crate::{read, text};
use std::alloc::AllocGlobal;
use std::process::Abort;
use std::test::Fail;

// A text, and what is written of the selector that it is.
type Row = (&'static str, &'static str);

const LOGIC: &[Row] = &[
    ("  a  ", "a"),
    ("((a))", "a"),
    ("a=1 or b=2", "a = 1 OR b = 2"),
    ("NOT (a > 1 AND b IS NULL)", "NOT (a > 1 AND b IS NULL)"),
    ("not not a", "NOT NOT a"),
    ("not(not(a))", "NOT NOT a"),
    ("(a or b) and c", "(a OR b) AND c"),
    ("a and (b or c)", "a AND (b OR c)"),
    ("a or (b and c)", "a OR b AND c"),
    ("(a and b) or c", "a AND b OR c"),
    ("a or (b or c)", "a OR (b OR c)"),
    ("(a or b) or c", "a OR b OR c"),
    ("a and (b and c)", "a AND (b AND c)"),
    ("(a and b) and c", "a AND b AND c"),
    ("a and not b", "a AND NOT b"),
    ("(not a) and b", "NOT a AND b"),
    ("not (a and b)", "NOT (a AND b)"),
    ("not (a = b)", "NOT a = b"),
    ("(not a) = b", "(NOT a) = b"),
    ("(a<b)and(c>d)", "a < b AND c > d"),
    ("TrUe = fAlSe", "TRUE = FALSE"),
];

const NUMBERS: &[Row] = &[
    ("a-(b-c)", "a - (b - c)"),
    ("(a-b)-c", "a - b - c"),
    ("a+(b+c)", "a + (b + c)"),
    ("a-(b+c)-d", "a - (b + c) - d"),
    ("a*(b*c)", "a * (b * c)"),
    ("(a*b)/c", "a * b / c"),
    ("a/(b*c)", "a / (b * c)"),
    ("(((a+b)))*((c))", "(a + b) * c"),
    ("a*(b+c)", "a * (b + c)"),
    ("(a*b)+c", "a * b + c"),
    ("a+(b*c)", "a + b * c"),
    ("- - 1", "--1"),
    ("-(-1)", "--1"),
    ("+-a", "+-a"),
    ("-(a+b)", "-(a + b)"),
    ("-(a*b)", "-(a * b)"),
    ("(-a)*b", "-a * b"),
    ("a*(-b)", "a * -b"),
    ("a--b", "a - -b"),
    ("-(x is null)", "-(x IS NULL)"),
    ("007", "7"),
    ("0<=9223372036854775807", "0 <= 9223372036854775807"),
    ("$a_1\t<>\n_b", "$a_1 <> _b"),
];

const COMPARISONS: &[Row] = &[
    ("a>=b", "a >= b"),
    ("(a<b)=c", "(a < b) = c"),
    ("a=(b=c)", "a = (b = c)"),
    ("(a+b)=(c)", "a + b = c"),
    ("a between 1 and 2", "a BETWEEN 1 AND 2"),
    ("a between 1 and 2 and b", "a BETWEEN 1 AND 2 AND b"),
    (
        "a not between (b+1) and (c*2)",
        "a NOT BETWEEN b + 1 AND c * 2",
    ),
    (
        "(a and b)between(c or d)and(not e)",
        "(a AND b) BETWEEN (c OR d) AND (NOT e)",
    ),
    ("not a between 1 and 2", "NOT a BETWEEN 1 AND 2"),
    ("x in('a','b''c')", "x IN ('a', 'b''c')"),
    ("x not in ( 'a' )", "x NOT IN ('a')"),
    ("x like'a%'", "x LIKE 'a%'"),
    ("x not like'_''%'", "x NOT LIKE '_''%'"),
    ("x like'a!_'escape'!'", "x LIKE 'a!_' ESCAPE '!'"),
    ("x like'a'''''escape''''", "x LIKE 'a''''' ESCAPE ''''"),
    ("x like'éé'escape'é'", "x LIKE 'éé' ESCAPE 'é'"),
    ("(x like'a')or(y in('b'))", "x LIKE 'a' OR y IN ('b')"),
    ("x is null", "x IS NULL"),
    ("x is not null", "x IS NOT NULL"),
    ("(x is null)=true", "(x IS NULL) = TRUE"),
    ("''=''''", "'' = ''''"),
];

// Each text's selector is written as its row says, and what is written is written again with the same bytes.
fn check(rt: &(impl Abort + AllocGlobal), rows: &[Row]) -> Result<(), Fail> {
    let alloc = rt.alloc();
    for (given, want) in rows {
        let selector = read(alloc, given)?;
        assert_eq!(rt; text(alloc, &selector)?.as_slice(), want.as_bytes());
        let again = read(alloc, want)?;
        assert_eq!(rt; text(alloc, &again)?.as_slice(), want.as_bytes());
    }
    Ok(())
}

#[test]
fn logic(rt: HostRuntime) -> Result<(), Fail> {
    check(&rt, LOGIC)
}

#[test]
fn numbers(rt: HostRuntime) -> Result<(), Fail> {
    check(&rt, NUMBERS)
}

#[test]
fn comparisons(rt: HostRuntime) -> Result<(), Fail> {
    check(&rt, COMPARISONS)
}
