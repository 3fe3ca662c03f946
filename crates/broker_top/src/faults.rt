//! Why an input is not run.
ghost use Rattle.std.specs.Prelude.{◌≡◌};
ghost use Rattle.broker_top.specs.Faults.{OfScript, cause_of, defs_cause, line_at_fault, line_cause};

use defs_read::DefsFault;
use script_read::{LineFault, ScriptFault};
use thiserror::Error;

/// Why an input is not run: the first cause, in the order that docs/SCRIPT.md gives. Lines are counted from 1.
#[derive(Clone, Copy, Debug, PartialEq, Eq, Error)]
pub enum InputFault {
    /// The definitions, which are this line, are refused.
    #[error("line {line}: {cause}")]
    Definitions { line: u64, cause: DefsFault },
    /// A line behind the definitions is refused.
    #[error("{0}")]
    Line(ScriptFault),
    /// This line is the first that needs what isn't built yet.
    #[error("line {line}: NotBuilt")]
    NotBuilt { line: u64 },
    /// The put of this line makes more than 524,288 of them.
    #[error("line {line}: TooManyEntries")]
    TooManyEntries { line: u64 },
    #[error("out of memory")]
    NoMemory,
}

/// The name of a cause for which definitions are refused.
pub(crate) fn defs_cause(cause: DefsFault) -> &'static str
    ensures { result.now ≡ defs_cause cause }
{
    match cause {
        DefsFault::LineTooLong => "LineTooLong",
        DefsFault::NotJson => "NotJson",
        DefsFault::UnknownField => "UnknownField",
        DefsFault::MissingField => "MissingField",
        DefsFault::FloatNumber => "FloatNumber",
        DefsFault::BadValue => "BadValue",
        DefsFault::BadSelector { .. } => "BadSelector",
        DefsFault::DoubleName => "DoubleName",
        DefsFault::TooManyConsumers => "TooManyConsumers",
        DefsFault::NoMemory => "NoMemory",
    }
}

/// The name of a cause for which a line is refused.
fn line_cause(cause: LineFault) -> &'static str
    ensures { result.now ≡ line_cause cause }
{
    match cause {
        LineFault::LineTooLong => "LineTooLong",
        LineFault::NotJson => "NotJson",
        LineFault::BadValue => "BadValue",
        LineFault::MissingField => "MissingField",
        LineFault::UnknownField => "UnknownField",
        LineFault::FloatNumber => "FloatNumber",
        LineFault::UnknownQueue => "UnknownQueue",
        LineFault::UnknownConsumer => "UnknownConsumer",
        LineFault::TooLong => "TooLong",
        LineFault::NoJournal => "NoJournal",
        LineFault::DoubleId => "DoubleId",
        LineFault::TooManyActors => "TooManyActors",
        LineFault::NoMemory => "NoMemory",
    }
}

impl InputFault {
    /// A fault of a script.
    pub(crate) fn of_script(fault: ScriptFault) -> InputFault
        ensures { OfScript fault result }
    {
        match fault.cause {
            LineFault::NoMemory => InputFault::NoMemory,
            _ => InputFault::Line(fault),
        }
    }

    /// The number of the line at fault; 0 for want of memory, which has none.
    pub fn line(self) -> u64
        ensures { result ≡ line_at_fault self }
    {
        match self {
            InputFault::Definitions { line, .. }
            | InputFault::NotBuilt { line }
            | InputFault::TooManyEntries { line } => line,
            InputFault::Line(fault) => fault.line,
            InputFault::NoMemory => 0,
        }
    }

    /// The name of the cause.
    pub fn cause(self) -> &'static str
        ensures { result.now ≡ cause_of self }
    {
        match self {
            InputFault::Definitions { cause, .. } => defs_cause(cause),
            InputFault::Line(fault) => line_cause(fault.cause),
            InputFault::NotBuilt { .. } => "NotBuilt",
            InputFault::TooManyEntries { .. } => "TooManyEntries",
            InputFault::NoMemory => "NoMemory",
        }
    }
}
