//! The call that puts an entry.
ghost use Rattle.std.specs.Prelude.{◌≡◌, ◌≤◌, ◌<◌, ◌-◌, ◌+◌, ◌*◌, ℕ, [], ◌∷◌, Some, None};
ghost use Rattle.acts_core.specs.Asked.{Enters, MayPut};
ghost use Rattle.acts_core.specs.Calls.{CallPut};
ghost use Rattle.acts_core.specs.Meaning.{Called};
ghost use Rattle.acts_core.specs.Replies.{of_put};
ghost use Rattle.acts_core.specs.Sight.{Listed};
ghost use Rattle.acts_core.specs.Walks.{IsStop, reach};
ghost use Rattle.entry_table.specs.Passes.{drawn, shown, state, view};
ghost use Rattle.entry_table.specs.Sights.{build_of, Serves, sight};
ghost use Rattle.entry_table.specs.Tries.{tries};
ghost use Rattle.entry_table.specs.Views.{blank_drawing, with_word, word_in};
ghost use Rattle.entry_table.specs.declared.view.Drawing.{Drawing};
ghost use Rattle.entry_calls.specs.Appends.{Appended, Described, Drafts, Ran, Turned};

use acts_core::{Freight, Placed};
use entry_table::{Draft, Drawn, Entries, Linking, Pass, node_of};
use queue_model::{DraftWord, Node, Slip, WordName};

/// Puts an entry, in place of a reserved one of its size, at the end of its list. It is `Spent` exactly where
/// the pass has no row left to draw. In all it tries at most twice a row of the table to draw or to link one.
pub fn enqueue<C: Freight>(
    entries: &Entries<C>,
    pass: &mut Pass,
    slip: &Slip,
    cargo: C,
) -> Placed<C>
    requires serves { Serves entries.now pass.old }
    requires may { MayPut Listed (state pass.old) pass.old.caller slip.now (C.goods cargo) }
    ensures serves { Serves entries.now pass.new }
    ensures called { Called (build_of entries.now) (sight pass.old) (sight pass.new)
        (CallPut slip.now (C.goods cargo)) (of_put C.goods result) }
    ensures tries { tries (shown pass.new) ≤ tries (shown pass.old) + 2 * entries.now.shape.rows }
{
    match entries.draw_row(pass, cargo) {
        Drawn::Spent(back) => Placed::Spent(back),
        Drawn::Row(draft) => {
            let row = draft.row();
            append(entries, pass, draft, slip);
            Placed::At {
                row,
                displaced: None,
            }
        }
    }
}

// Writes the slip down in the row's draft words, and links the row. The search for the end of the list begins
// at its tail, which is helped to the row.
fn append<C: Freight>(entries: &Entries<C>, pass: &mut Pass, draft: Draft<C>, slip: &Slip)
    requires serves { Serves entries.now pass.old }
    requires blank { Drafts pass.old draft.row (blank_drawing draft.row) }
    requires enters { Enters (state pass.old) pass.old.caller slip.now (C.goods draft.cargo) }
    requires key { slip.now.key ≡ None }
    ensures serves { Serves entries.now pass.new }
    ensures appended { Appended pass.old pass.new draft.row 0 slip.now (C.goods draft.cargo) }
{
    let mut draft = draft;
    describe(entries, pass, &mut draft, slip);
    let row = draft.row();
    let tail = entries.look(pass, WordName::Tail(slip.list));
    link_behind(entries, pass, draft, slip, tail);
    entries.help_tail(pass, slip.list, node_of(slip.list, tail), Node::Row(row));
}

// Writes the slip down, in draft words that are still 0.
fn describe<C: Freight>(entries: &Entries<C>, pass: &mut Pass, draft: &mut Draft<C>, slip: &Slip)
    requires serves { Serves entries.now pass.old }
    requires blank { Drafts pass.old draft.old.row (blank_drawing draft.old.row) }
    ensures serves { Serves entries.now pass.new }
    ensures same { (draft.new.row ≡ draft.old.row) × (draft.new.cargo ≡ draft.old.cargo) }
    ensures ran { Ran pass.old pass.new [] }
    ensures tries { tries (shown pass.new) ≡ tries (shown pass.old) }
    ensures described { Described pass.new draft.old.row slip.now }
{
    write_down(entries, pass, draft, DraftWord::Mask, slip.mask);
    write_down(entries, pass, draft, DraftWord::Ident, slip.id);
    write_down(entries, pass, draft, DraftWord::Size, slip.size);
    write_down(entries, pass, draft, DraftWord::List, u64::from(slip.list));
}

// Makes a draft word that is still 0 this value. A 0 takes no step.
fn write_down<C: Freight>(
    entries: &Entries<C>,
    pass: &mut Pass,
    draft: &mut Draft<C>,
    word: DraftWord,
    value: u64,
)
    requires serves { Serves entries.now pass.old }
    requires unset { (d : Drawing) × Drafts pass.old draft.old.row d × (word_in d word ≡ 0) }
    ensures serves { Serves entries.now pass.new }
    ensures same { (draft.new.row ≡ draft.old.row) × (draft.new.cargo ≡ draft.old.cargo) }
    ensures ran { Ran pass.old pass.new [] }
    ensures tries { tries (shown pass.new) ≡ tries (shown pass.old) }
    ensures written { (d : Drawing) → Drafts pass.old draft.old.row d → word_in d word ≡ 0
        → Drafts pass.new draft.old.row (with_word word value d) }
{
    if value != 0 {
        entries.store_draft(pass, draft, word, value);
    }
}

// Links the row behind the last row of its list, which is at the stop or behind it.
fn link_behind<C: Freight>(
    entries: &Entries<C>,
    pass: &mut Pass,
    draft: Draft<C>,
    slip: &Slip,
    tail: u64,
)
    requires serves { Serves entries.now pass.old }
    requires described { Described pass.old draft.row slip.now }
    requires enters { Enters (state pass.old) pass.old.caller slip.now (C.goods draft.cargo) }
    requires key { slip.now.key ≡ None }
    requires stop { IsStop (state pass.old) slip.now.list tail }
    ensures serves { Serves entries.now pass.new }
    ensures appended { Appended pass.old pass.new draft.row tail slip.now (C.goods draft.cargo) }
{
    let mut draft = draft;
    let mut stop = tail;
    'turns: loop {
        match turn(entries, pass, draft, slip, stop) {
            Linking::Linked => return,
            Linking::Behind(next, back) => {
                stop = next;
                draft = back;
            }
        }
    }
}

// Tries to link the row right behind the stop.
fn turn<C: Freight>(
    entries: &Entries<C>,
    pass: &mut Pass,
    draft: Draft<C>,
    slip: &Slip,
    stop: u64,
) -> Linking<C>
    requires serves { Serves entries.now pass.old }
    requires described { Described pass.old draft.row slip.now }
    requires enters { Enters (state pass.old) pass.old.caller slip.now (C.goods draft.cargo) }
    requires key { slip.now.key ≡ None }
    requires stop { IsStop (state pass.old) slip.now.list stop }
    ensures serves { Serves entries.now pass.new }
    ensures turned { Turned C.goods pass.old pass.new draft stop slip.now result }
{
    let mut draft = draft;
    let place = place_behind(entries, pass, slip, stop);
    entries.store_draft(pass, &mut draft, DraftWord::Place, place);
    entries.try_link(pass, draft, node_of(slip.list, stop))
}

// The place right behind a stop of a slip's list.
fn place_behind<C: Freight>(entries: &Entries<C>, pass: &mut Pass, slip: &Slip, stop: u64) -> u64
    requires serves { Serves entries.now pass.old }
    requires stop { IsStop (state pass.old) slip.now.list stop }
    ensures serves { Serves entries.now pass.new }
    ensures ran { Ran pass.old pass.new [] }
    ensures tries { tries (shown pass.new) ≡ tries (shown pass.old) }
    ensures drawn { drawn pass.new ≡ drawn pass.old }
    ensures place { result ≡ reach (state pass.new) stop }
{
    let _list = slip.list;
    if stop == 0 {
        return 0;
    }
    let word = DraftWord::Place;
    entries.look(
        pass,
        WordName::Draft {
            row: stop - 1,
            word,
        },
    ) + 1
}
