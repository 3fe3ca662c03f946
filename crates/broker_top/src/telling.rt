//! Writes why an input or a selector is refused.
ghost use Rattle.std.specs.Prelude.{◌≡◌, IfOk, string_bytes};
ghost use Rattle.broker_top.specs.Ends.{Refuses, TellsRefusal};
ghost use Rattle.command_status.specs.Told.{Tells};
ghost use Rattle.defs_read.specs.declared.faults.DefsFault.TheVariants as defs;
ghost use Rattle.broker_top.specs.Faults.{defs_told, fault_text, kind_name, line_text, selector_text};
ghost use Rattle.broker_top.specs.Unread.{unread_status, unread_text};

use crate::faults::{InputFault, defs_cause};
use crate::input::Unread;
use byte_lists::NoMemory;
use command_status::{Status, tell, tell_no_memory};
use defs_read::DefsFault;
use outside_io::Sink;
use selector_read::Kind;
use std::alloc::Global;

/// Tells why the input was not read whole.
pub(crate) fn tell_unread<K: Sink>(out: &mut K, unread: Unread) -> Status
    ensures { Tells result (unread_status unread) (unread_text unread) (K.written out.old) (K.written out.new) (K.faults out.old) (K.faults out.new) }
{
    match unread {
        Unread::TooLarge => tell(out, Status::InputRefused, b"fault: input too large\n"),
        Unread::Fault => tell(out, Status::ReadFault, b"fault: read\n"),
        Unread::NoMemory => tell_no_memory(out),
    }
}

/// The name of what is at fault in a selector.
fn kind_name(kind: Kind) -> &'static str
    ensures { result.now ≡ kind_name kind }
{
    match kind {
        Kind::TooLong => "TooLong",
        Kind::BadChar => "BadChar",
        Kind::OpenString => "OpenString",
        Kind::FloatLiteral => "FloatLiteral",
        Kind::IntRange => "IntRange",
        Kind::TooDeep => "TooDeep",
        Kind::Unexpected => "Unexpected",
    }
}

/// Makes the line that tells of a cause at the line of this number.
fn line_text(alloc: Global, line: u64, cause: &str) -> Result<String, NoMemory>
    ensures { IfOk result (λ text. string_bytes text ≡ line_text line cause.now) }
{
    match format!(in alloc; "fault: line {line}: {cause}\n") {
        Ok(text) => Ok(text),
        Err(_) => Err(NoMemory),
    }
}

/// Makes the line that tells of the cause of definitions at the line of this number.
fn defs_text(alloc: Global, line: u64, cause: DefsFault) -> Result<String, NoMemory>
    ensures { IfOk result (λ text. string_bytes text ≡ line_text line (defs_told cause)) }
{
    match cause {
        DefsFault::BadSelector { at, kind } => bad_selector_text(alloc, line, at, kind),
        _ => line_text(alloc, line, defs_cause(cause)),
    }
}

/// Makes the line that tells of the fault of a consumer's selector at the line of this number.
fn bad_selector_text(alloc: Global, line: u64, at: u64, kind: Kind) -> Result<String, NoMemory>
    ensures { IfOk result (λ text. string_bytes text ≡ line_text line (defs_told (defs.BadSelector at kind))) }
{
    let name = kind_name(kind);
    match format!(in alloc; "fault: line {line}: BadSelector at {at}: {name}\n") {
        Ok(text) => Ok(text),
        Err(_) => Err(NoMemory),
    }
}

/// Makes the text of a fault: the line, and its cause.
fn fault_text(alloc: Global, fault: InputFault) -> Result<String, NoMemory>
    ensures { IfOk result (λ text. string_bytes text ≡ fault_text fault) }
{
    match fault {
        InputFault::Definitions { line, cause } => defs_text(alloc, line, cause),
        _ => line_text(alloc, fault.line(), fault.cause()),
    }
}

/// Tells of the fault for which the input is refused.
pub(crate) fn refuse<K: Sink>(alloc: Global, out: &mut K, fault: InputFault) -> Status
    ensures { Refuses fault result (K.written out.old) (K.written out.new) (K.faults out.old) (K.faults out.new) }
{
    if matches!(fault, InputFault::NoMemory) {
        return tell_no_memory(out);
    }
    match fault_text(alloc, fault) {
        Ok(text) => tell(out, Status::InputRefused, text.as_bytes()),
        Err(NoMemory) => tell_no_memory(out),
    }
}

/// Makes the text of a selector's fault: its place, and the name of what is at fault.
fn selector_text(alloc: Global, at: u64, kind: Kind) -> Result<String, NoMemory>
    ensures { IfOk result (λ text. string_bytes text ≡ selector_text at kind) }
{
    let name = kind_name(kind);
    match format!(in alloc; "fault: selector at {at}: {name}\n") {
        Ok(text) => Ok(text),
        Err(_) => Err(NoMemory),
    }
}

/// Tells of the fault for which a selector is refused.
pub(crate) fn refuse_selector<K: Sink>(alloc: Global, out: &mut K, at: u64, kind: Kind) -> Status
    ensures { TellsRefusal (selector_text at kind) result (K.written out.old) (K.written out.new) (K.faults out.old) (K.faults out.new) }
{
    match selector_text(alloc, at, kind) {
        Ok(text) => tell(out, Status::InputRefused, text.as_bytes()),
        Err(NoMemory) => tell_no_memory(out),
    }
}
