//! Tells what a selector is of each message of an input.
ghost use Rattle.std.specs.Prelude.{◌≡◌, ◌≤◌, ℕ, List, Err, IfErr, IfOk, OnOk, length};
ghost use Rattle.message_core.specs.Spelling.{Content};
ghost use Rattle.script_read.specs.Lines.{lines_of, numbered};
ghost use Rattle.script_read.specs.Reading.{message_says};
ghost use Rattle.broker_top.specs.Ends.{TaskEnds};
ghost use Rattle.broker_top.specs.Input.{input_limit};
ghost use Rattle.broker_top.specs.Select.{AreMessages, IsFirstRefused, TellsMessage, truth_line, truth_word, truths};
ghost use Rattle.broker_top.specs.Text.{written_of};
ghost use Rattle.target_core.specs.Seats.{Seat};
ghost use Rattle.command_line.specs.Tasks.{select};
ghost use Rattle.broker_top.specs.World.{world};

use crate::faults::InputFault;
use crate::input::read_input;
use crate::telling::{refuse, refuse_selector, tell_unread};
use crate::text::Text;
use command_status::{Status, tell, tell_no_memory};
use outside_io::{Sink, Source, write_all};
use script_read::{LineFault, ScriptFault, first_line, has_nothing, read_message};
use selector_eval::{Truth, truth};
use selector_read::{Selector, SelectorFault, read};
use std::alloc::Global;

/// The line that tells a truth.
fn truth_word(truth: Truth) -> &'static [u8]
    ensures { result.now ≡ truth_word truth }
{
    match truth {
        Truth::True => b"true\n",
        Truth::False => b"false\n",
        Truth::Unknown => b"unknown\n",
    }
}

/// Reads one line as a message, and tells what the selector is of it. Refuses with the line's first cause.
fn tell_truth(
    alloc: Global,
    selector: &Selector,
    line: &[u8],
    text: &mut Text,
) -> Result<(), LineFault>
    ensures told { OnOk result (TellsMessage selector.now line.now (written_of text.old) (written_of text.new)) }
    ensures refused { IfErr result (λ cause. (cause ≡ LineFault.NoMemory → ⊥) → message_says line.now ≡ Err cause) }
{
    let message = read_message(alloc, line)?;
    let word = truth_word(truth(selector, &message));
    match write_all(text, word) {
        Ok(()) => Ok(()),
        Err(_) => Err(LineFault::NoMemory),
    }
}

/// The text that tells what the selector is of each message. Refuses with the first line that is no message, and the
/// first of its causes; NoMemory may come in place of any.
fn truths(alloc: Global, selector: &Selector, input: &[u8]) -> Result<Vec<u8>, ScriptFault>
    requires { length input.now ≤ input_limit }
    ensures told { IfOk result (λ text. (messages : List Content) × AreMessages (numbered 1 (lines_of input.now)) messages × (text.items ≡ truths selector.now messages)) }
    ensures refused { IfErr result (λ fault. (fault.cause ≡ LineFault.NoMemory → ⊥) → IsFirstRefused (numbered 1 (lines_of input.now)) fault.line fault.cause) }
{
    let mut text = Text::new(alloc);
    let mut rest = input;
    let mut line = 1;
    'reading: while !rest.is_empty() {
        let (first, tail) = first_line(rest);
        if !has_nothing(first) {
            if let Err(cause) = tell_truth(alloc, selector, first, &mut text) {
                return Err(ScriptFault { line, cause });
            }
        }
        line += 1;
        rest = tail;
    }
    match text.whole() {
        Some(bytes) => Ok(bytes),
        None => Err(ScriptFault {
            line,
            cause: LineFault::NoMemory,
        }),
    }
}

/// Reads messages, and writes what the selector of this text is of each. The selector is tested first, and all lines
/// before any truth is written.
pub(crate) fn select_messages<S: Source, K: Sink>(
    alloc: Global,
    text: &str,
    input: &mut S,
    out: &mut K,
) -> Status
    ensures { (seats : List Seat) → TaskEnds (select text.now) result
        (world S.left S.faults K.written K.faults input.old out.old seats)
        (world S.left S.faults K.written K.faults input.new out.new seats) }
{
    let selector = match read(alloc, text) {
        Ok(selector) => selector,
        Err(SelectorFault::Bad { at, kind }) => return refuse_selector(alloc, out, at, kind),
        Err(SelectorFault::NoMemory) => return tell_no_memory(out),
    };
    let bytes = match read_input(alloc, input) {
        Ok(bytes) => bytes,
        Err(unread) => return tell_unread(out, unread),
    };
    match truths(alloc, &selector, &bytes) {
        Ok(text) => tell(out, Status::Done, &text),
        Err(fault) => refuse(alloc, out, InputFault::of_script(fault)),
    }
}
