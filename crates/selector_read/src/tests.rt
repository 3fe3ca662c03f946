//! Texts that are selectors, each with its tree, by hand from the grammar.
use crate::{CompareOp, Expr, MathOp, read, text};
use std::fmt::Write;
use std::str::from_utf8;
use std::test::Fail;

/// Texts, and their trees in prefix form.
const TREES: &[(&str, &str)] = &[
    // Operands.
    ("a", "a"),
    ("  $a_1\t\n", "$a_1"),
    ("9223372036854775807", "9223372036854775807"),
    ("'it''s'", "'it's'"),
    ("TRUE OR fAlSe", "(or TRUE FALSE)"),
    ("((a))", "a"),
    // Which operator binds tighter, and chains from the left.
    ("a OR b AND c", "(or a (and b c))"),
    ("a AND b OR c AND d", "(or (and a b) (and c d))"),
    ("a OR b OR c", "(or (or a b) c)"),
    ("a AND b AND c", "(and (and a b) c)"),
    ("(a OR b) AND c", "(and (or a b) c)"),
    ("NOT a AND b", "(and (not a) b)"),
    ("NOT a = b", "(not (= a b))"),
    ("NOT NOT a", "(not (not a))"),
    ("NOT (a OR b)", "(not (or a b))"),
    ("1 + 2 * 3 - 4 / 5", "(- (+ 1 (* 2 3)) (/ 4 5))"),
    ("1 - 2 - 3", "(- (- 1 2) 3)"),
    ("8 / 4 * 2", "(* (/ 8 4) 2)"),
    ("(1 - 2) * 3", "(* (- 1 2) 3)"),
    ("-a * +b", "(* (minus a) (plus b))"),
    ("- -1 + 2", "(+ (minus (minus 1)) 2)"),
    ("a + 1 <= b * 2", "(<= (+ a 1) (* b 2))"),
    (
        "a<>1 AND b>=2 OR c<3",
        "(or (and (<> a 1) (>= b 2)) (< c 3))",
    ),
    ("(a = b) = c", "(= (= a b) c)"),
    ("a = (NOT b)", "(= a (not b))"),
    // BETWEEN, whose AND is no operator.
    ("a BETWEEN 1 AND 2 AND b", "(and (between a 1 2) b)"),
    (
        "a not between 1 + 2 and 3 * 4",
        "(not-between a (+ 1 2) (* 3 4))",
    ),
    ("a * 2 BETWEEN b AND c OR d", "(or (between (* a 2) b c) d)"),
    ("a BETWEEN (b AND c) AND d", "(between a (and b c) d)"),
    ("NOT a BETWEEN 1 AND 2", "(not (between a 1 2))"),
    // IN, LIKE and IS.
    ("a IN ('b')", "(in a 'b')"),
    (
        "a NOT IN ('b', 'c','b') AND d",
        "(and (not-in a 'b' 'c' 'b') d)",
    ),
    ("a LIKE 'b%'", "(like a 'b%')"),
    ("a LIKE 'b' OR c", "(or (like a 'b') c)"),
    ("a NOT LIKE '!%' ESCAPE '!'", "(not-like a '!%' !)"),
    ("a LIKE '!!' ESCAPE '!'", "(like a '!!' !)"),
    ("a LIKE 'éé' ESCAPE 'é' AND b", "(and (like a 'éé' é) b)"),
    ("a LIKE '' ESCAPE ''''", "(like a '' ')"),
    ("a IS NULL", "(null a)"),
    ("a IS NOT NULL OR b IS NULL", "(or (not-null a) (null b))"),
    ("(a) = (b IS NULL)", "(= a (null b))"),
];

fn math_sign(op: MathOp) -> &'static str {
    match op {
        MathOp::Add => "+",
        MathOp::Sub => "-",
        MathOp::Mul => "*",
        MathOp::Div => "/",
    }
}

fn compare_sign(op: CompareOp) -> &'static str {
    match op {
        CompareOp::Equal => "=",
        CompareOp::Unequal => "<>",
        CompareOp::Less => "<",
        CompareOp::LessEqual => "<=",
        CompareOp::Greater => ">",
        CompareOp::GreaterEqual => ">=",
    }
}

fn negation(negated: bool) -> &'static str {
    if negated { "not-" } else { "" }
}

/// The word of a form that is shown with its parts alone.
fn word_of(expr: &Expr) -> &'static str {
    match expr {
        Expr::Minus(_) => "minus",
        Expr::Plus(_) => "plus",
        Expr::Not(_) => "not",
        Expr::And(_, _) => "and",
        Expr::Or(_, _) => "or",
        Expr::Math { op, .. } => math_sign(*op),
        Expr::Compare { op, .. } => compare_sign(*op),
        _ => "",
    }
}

/// Adds the tree in prefix form.
fn show(out: &mut String, expr: &Expr) -> Result<(), Fail> {
    match expr {
        Expr::Int(number) => write!(out, "{number}")?,
        Expr::Text(text) => {
            let text = from_utf8(text.as_slice())?;
            write!(out, "'{text}'")?;
        }
        Expr::Bool(true) => out.push_str("TRUE")?,
        Expr::Bool(false) => out.push_str("FALSE")?,
        Expr::Name(name) => out.push_str(from_utf8(name.as_slice())?)?,
        Expr::Minus(part) | Expr::Plus(part) | Expr::Not(part) => {
            write!(out, "({} ", word_of(expr))?;
            show(out, part)?;
            out.push_str(")")?;
        }
        Expr::And(left, right)
        | Expr::Or(left, right)
        | Expr::Math { left, right, .. }
        | Expr::Compare { left, right, .. } => {
            write!(out, "({} ", word_of(expr))?;
            show(out, left)?;
            out.push_str(" ")?;
            show(out, right)?;
            out.push_str(")")?;
        }
        Expr::Between {
            negated,
            value,
            low,
            high,
        } => {
            write!(out, "({}between ", negation(*negated))?;
            show(out, value)?;
            out.push_str(" ")?;
            show(out, low)?;
            out.push_str(" ")?;
            show(out, high)?;
            out.push_str(")")?;
        }
        Expr::OneOf {
            negated,
            name,
            list,
        } => {
            let name = from_utf8(name.as_slice())?;
            write!(out, "({}in {name}", negation(*negated))?;
            for item in list {
                let item = from_utf8(item.as_slice())?;
                write!(out, " '{item}'")?;
            }
            out.push_str(")")?;
        }
        Expr::Like {
            negated,
            name,
            pattern,
            escape,
        } => {
            let name = from_utf8(name.as_slice())?;
            let pattern = from_utf8(pattern.as_slice())?;
            write!(out, "({}like {name} '{pattern}'", negation(*negated))?;
            if let Some(escape) = escape {
                write!(out, " {escape}")?;
            }
            out.push_str(")")?;
        }
        Expr::IsNull { negated, name } => {
            let name = from_utf8(name.as_slice())?;
            write!(out, "({}null {name})", negation(*negated))?;
        }
    }
    Ok(())
}

#[test]
fn reads_trees(rt: HostRuntime) -> Result<(), Fail> {
    for &(text, tree) in TREES {
        let selector = read(rt.alloc(), text)?;
        let mut shown = String::new(rt.alloc());
        show(&mut shown, selector.expr())?;
        assert_eq!(rt; shown.as_str(), tree, "of {text}");
    }
    Ok(())
}

/// With ample memory a selector is read, and written back.
#[test]
fn ample(rt: HostRuntime) -> Result<(), Fail> {
    let selector = read(rt.alloc(), "a LIKE 'b'")?;
    assert_eq!(rt;
        text(rt.alloc(), &selector)?.as_slice(),
        b"a LIKE 'b'".as_slice()
    );
    Ok(())
}
