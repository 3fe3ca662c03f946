//! The pieces that lines are made of.
ghost use Rattle.std.specs.Prelude.{◌++◌, ◌<◌, length, codes, flat_map};
ghost use Rattle.std.specs.List.{All};
ghost use Rattle.std.specs.Fmt.{decimal};
ghost use Rattle.outside_io.specs.Says.{Says};
ghost use Rattle.report_core.specs.Names.{name_at, caller_name, state_text, IsCaller, NamesCaller};
ghost use Rattle.report_core.specs.Words.{said_if, fate_text, drop_text, span_text, full_text, HasQueue, IsSpan};

use crate::answers::{Dropped, Span};
use byte_lists::Bytes;
use itoa::Buffer;
use outside_io::{Failed, Sink, write_all};
use queue_model::{Depth, RowState};

/// Writes a number in decimal.
pub(crate) fn say_number<K: Sink>(out: &mut K, number: u64) -> Result<(), Failed>
    ensures { Says result (K.written out.old) (K.written out.new)
        (K.faults out.old) (K.faults out.new) (decimal number) }
{
    let mut digits = Buffer::new();
    write_all(out, digits.format(number).as_bytes())
}

/// Writes a text and a number.
pub(crate) fn say_then_number<K: Sink>(out: &mut K, text: &[u8], number: u64) -> Result<(), Failed>
    ensures { Says result (K.written out.old) (K.written out.new)
        (K.faults out.old) (K.faults out.new) (text.now ++ decimal number) }
{
    write_all(out, text)?;
    say_number(out, number)
}

/// Writes a text and two numbers with a space between them.
pub(crate) fn say_two_numbers<K: Sink>(
    out: &mut K,
    text: &[u8],
    first: u64,
    second: u64,
) -> Result<(), Failed>
    ensures { Says result (K.written out.old) (K.written out.new)
        (K.faults out.old) (K.faults out.new) (text.now ++ (decimal first ++ (codes " " ++ decimal second))) }
{
    say_then_number(out, text, first)?;
    say_then_number(out, b" ", second)
}

/// Writes a text where it is to be said.
pub(crate) fn say_if<K: Sink>(out: &mut K, said: bool, text: &[u8]) -> Result<(), Failed>
    ensures { Says result (K.written out.old) (K.written out.new)
        (K.faults out.old) (K.faults out.new) (said_if said text.now) }
{
    if said {
        return write_all(out, text);
    }
    write_all(out, b"")
}

/// Writes a text, a number, and a word where it is to be said.
pub(crate) fn say_number_and<K: Sink>(
    out: &mut K,
    text: &[u8],
    number: u64,
    said: bool,
    word: &[u8],
) -> Result<(), Failed>
    ensures { Says result (K.written out.old) (K.written out.new)
        (K.faults out.old) (K.faults out.new) (text.now ++ (decimal number ++ said_if said word.now)) }
{
    say_then_number(out, text, number)?;
    say_if(out, said, word)
}

/// Writes the name at a place.
fn say_name<K: Sink>(out: &mut K, names: &[Bytes], place: usize) -> Result<(), Failed>
    requires { place < length names.now }
    ensures { Says result (K.written out.old) (K.written out.new)
        (K.faults out.old) (K.faults out.new) (name_at names.now place) }
{
    write_all(out, names[place].as_slice())
}

/// Writes a text and the name of a caller.
pub(crate) fn say_caller<K: Sink>(
    out: &mut K,
    text: &[u8],
    actors: &[Bytes],
    caller: u64,
) -> Result<(), Failed>
    requires { IsCaller actors.now caller }
    ensures { Says result (K.written out.old) (K.written out.new)
        (K.faults out.old) (K.faults out.new) (text.now ++ caller_name actors.now caller) }
{
    write_all(out, text)?;
    say_name(out, actors, (caller - 1) as usize)
}

/// Writes a row's state.
fn say_state<K: Sink>(out: &mut K, actors: &[Bytes], state: RowState) -> Result<(), Failed>
    requires { NamesCaller actors.now state }
    ensures { Says result (K.written out.old) (K.written out.new)
        (K.faults out.old) (K.faults out.new) (state_text actors.now state) }
{
    match state {
        RowState::Available => write_all(out, b"available"),
        RowState::Locked(caller) => say_caller(out, b"locked ", actors, caller),
        RowState::Unlocked(caller) => say_caller(out, b"unlocked ", actors, caller),
        RowState::Dequeued => write_all(out, b"dequeued"),
        RowState::Deleted => write_all(out, b"deleted"),
    }
}

/// Writes a text and a row's state.
pub(crate) fn say_then_state<K: Sink>(
    out: &mut K,
    text: &[u8],
    actors: &[Bytes],
    state: RowState,
) -> Result<(), Failed>
    requires { NamesCaller actors.now state }
    ensures { Says result (K.written out.old) (K.written out.new)
        (K.faults out.old) (K.faults out.new) (text.now ++ state_text actors.now state) }
{
    write_all(out, text)?;
    say_state(out, actors, state)
}

/// Writes what became of an acquired entry.
fn say_fate<K: Sink>(out: &mut K, kept: bool) -> Result<(), Failed>
    ensures { Says result (K.written out.old) (K.written out.new)
        (K.faults out.old) (K.faults out.new) (fate_text kept) }
{
    if kept {
        return write_all(out, b" held ");
    }
    write_all(out, b" dropped ")
}

/// Writes what became of an acquired entry, and its queue.
fn say_place<K: Sink>(out: &mut K, queues: &[Bytes], dropped: Dropped) -> Result<(), Failed>
    requires { HasQueue queues.now dropped }
    ensures { Says result (K.written out.old) (K.written out.new)
        (K.faults out.old) (K.faults out.new) (fate_text dropped.kept ++ name_at queues.now dropped.queue) }
{
    say_fate(out, dropped.kept)?;
    say_name(out, queues, dropped.queue as usize)
}

/// Writes an acquired entry.
fn say_drop<K: Sink>(out: &mut K, queues: &[Bytes], dropped: Dropped) -> Result<(), Failed>
    requires { HasQueue queues.now dropped }
    ensures { Says result (K.written out.old) (K.written out.new)
        (K.faults out.old) (K.faults out.new) (drop_text queues.now dropped) }
{
    say_place(out, queues, dropped)?;
    say_then_number(out, b"#", dropped.id)
}

/// Writes acquired entries, in order.
fn say_drops<K: Sink>(out: &mut K, queues: &[Bytes], drops: &[Dropped]) -> Result<(), Failed>
    requires { All (HasQueue queues.now) drops.now }
    ensures { Says result (K.written out.old) (K.written out.new)
        (K.faults out.old) (K.faults out.new) (flat_map (drop_text queues.now) drops.now) }
{
    'drops: for dropped in drops {
        say_drop(out, queues, *dropped)?;
    }
    Ok(())
}

/// Writes the acquired entries that a span names, in order.
pub(crate) fn say_span<K: Sink>(
    out: &mut K,
    queues: &[Bytes],
    drops: &[Dropped],
    span: Span,
) -> Result<(), Failed>
    requires { IsSpan queues.now drops.now span }
    ensures { Says result (K.written out.old) (K.written out.new)
        (K.faults out.old) (K.faults out.new) (span_text queues.now drops.now span) }
{
    say_drops(out, queues, &drops[span.from as usize..span.to as usize])
}
