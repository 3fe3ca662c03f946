//! The entries that an actor has.
ghost use Rattle.std.specs.Prelude.{Some, None, length, vec_len, vec_capacity, ◌≡◌, ◌<◌, ◌≤◌, ◌+◌};
ghost use Rattle.std.specs.Option.{IfNone, IfSome, option_map};
ghost use Rattle.queue_model.specs.Keyed.{Apart};
ghost use Rattle.txn_core.specs.Parcels.{load_of};
ghost use Rattle.line_core.specs.Hands.{hand, is_this, meant, gained, same_hand, without};
ghost use Rattle.workers_core.specs.Held.{IsMeant, TakesMeant, hand_of, hands_of};

use txn_core::Parcel;

/// An entry that an actor has: of which queue, in which row, and its id. Where the actor has it locked there is a
/// cargo; else the actor left it, and may lock it again.
#[derive(Drop)]
pub struct Kept {
    pub queue: u32,
    pub row: u64,
    pub id: u64,
    pub cargo: Option<Parcel>,
}

/// Whether it is the entry of this id.
fn has_id(kept: &Kept, queue: u32, id: u64) -> bool
    ensures { result ≡ is_this queue id (hand_of kept.now) }
{
    kept.queue == queue && kept.id == id
}

/// Where the entry of this id is.
fn at_id(held: &[Kept], queue: u32, id: u64) -> Option<usize>
    ensures within { IfSome result (λ i. i < length held.now) }
    ensures meant { IsMeant result queue (Some id) (hands_of held.now) }
{
    let mut i = 0;
    while i < held.len() {
        if has_id(&held[i], queue, id) {
            return Some(i);
        }
        i += 1;
    }
    None
}

/// Where the last entry of the queue is.
fn at_last(held: &[Kept], queue: u32) -> Option<usize>
    ensures within { IfSome result (λ i. i < length held.now) }
    ensures meant { IsMeant result queue None (hands_of held.now) }
{
    let mut i = held.len();
    while i > 0 {
        i -= 1;
        if held[i].queue == queue {
            return Some(i);
        }
    }
    None
}

/// Where the entry is that a line means: that of the id, or without one the last of the queue.
pub(crate) fn meant_at(held: &[Kept], queue: u32, id: Option<u64>) -> Option<usize>
    ensures within { IfSome result (λ i. i < length held.now) }
    ensures meant { IsMeant result queue id (hands_of held.now) }
{
    match id {
        Some(id) => at_id(held, queue, id),
        None => at_last(held, queue),
    }
}

/// Takes the entry that a line means out of the list.
pub(crate) fn take_meant(held: &mut Vec<Kept>, queue: u32, id: Option<u64>) -> Option<Kept>
    requires apart { Apart same_hand (hands_of held.old.items) }
    ensures some { IfSome result (λ x. TakesMeant queue id (hands_of held.old.items) (hands_of held.new.items)
        (hand queue x.row x.id (option_map load_of x.cargo))) }
    ensures none { IfNone result
        ((meant queue id (hands_of held.old.items) ≡ None) × (held.new.items ≡ held.old.items)) }
    ensures room { (vec_len held.new ≤ vec_len held.old) × (vec_capacity held.new ≡ vec_capacity held.old) }
{
    let Some(i) = meant_at(held, queue, id) else {
        return None;
    };
    let kept = held.remove(i);
    Some(kept)
}

/// The entry of this id goes, if there is one.
pub(crate) fn lose(held: &mut Vec<Kept>, queue: u32, id: u64)
    requires apart { Apart same_hand (hands_of held.old.items) }
    ensures lost { hands_of held.new.items ≡ without queue id (hands_of held.old.items) }
    ensures room { (vec_len held.new ≤ vec_len held.old) × (vec_capacity held.new ≡ vec_capacity held.old) }
{
    match take_meant(held, queue, Some(id)) {
        Some(_old) => {}
        None => {}
    }
}

/// The entry came: it stands last, and one of its id no more. Takes no memory.
pub(crate) fn gain(held: &mut Vec<Kept>, kept: Kept)
    requires apart { Apart same_hand (hands_of held.old.items) }
    requires room { vec_len held.old < vec_capacity held.old }
    ensures gained { hands_of held.new.items ≡ gained (hand_of kept) (hands_of held.old.items) }
    ensures room { (vec_len held.new ≤ vec_len held.old + 1) × (vec_capacity held.new ≡ vec_capacity held.old) }
{
    lose(held, kept.queue, kept.id);
    held.push_reserved(kept);
}
