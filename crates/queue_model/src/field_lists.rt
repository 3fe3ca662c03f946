//! Look-ups and changes in the lists that make up a queue's state.
ghost use Rattle.std.specs.Prelude.{◌≡◌, ◌+◌, ◌^◌, ◌<◌, ◌≤◌, ◌↔◌, ℕ, [], ◌∷◌, ◌++◌, IsTrue, not, find, filter, position, sum_by, count_by, is_some, unwrap_or, vec_len, vec_capacity};
ghost use Rattle.std.specs.List.{position_or_len};
ghost use Rattle.std.specs.Option.{option_map, option_map_or, ForSome};
ghost use Rattle.queue_model.specs.declared.rows.Row.{Row};
ghost use Rattle.queue_model.specs.Keyed.{alter};
ghost use Rattle.queue_model.specs.State.{counts, is_bell, is_holder, is_of_list, is_row, nothing};
ghost use Rattle.queue_model.specs.Table.{CanGive, earlier, in_state, left_in, less, more};

use crate::queues::{Bell, Reservation};
use crate::rows::{Row, RowState};
use byte_lists::MOST_BYTES;

impl RowState {
    /// Whether a row in this state counts towards the depth of its queue.
    pub fn counts(self) -> bool
        ensures { result ≡ counts self }
    {
        match self {
            RowState::Available | RowState::Locked(_) | RowState::Unlocked(_) => true,
            RowState::Dequeued | RowState::Deleted => false,
        }
    }
}

/// Where the row of this number stands.
pub(crate) fn row_index(rows: &[Row], number: u64) -> Option<usize>
    ensures { result ≡ position (is_row number) rows.now }
{
    rows.iter().position(|row| row.number == number)
}

/// The state of the row of this number.
pub(crate) fn state_of(rows: &[Row], number: u64) -> Option<RowState>
    ensures { result ≡ option_map (λ x. x.state) (find (is_row number) rows.now) }
{
    match row_index(rows, number) {
        Some(index) => Some(rows[index].state),
        None => None,
    }
}

/// Whether there is a row of this number.
pub(crate) fn has_row(rows: &[Row], number: u64) -> bool
    ensures { result ≡ is_some (find (is_row number) rows.now) }
{
    state_of(rows, number).is_some()
}

/// Whether there is a row of this number, in this state.
pub(crate) fn is_in(rows: &[Row], number: u64, state: RowState) -> bool
    ensures { IsTrue result ↔ ((x : Row) × (find (is_row number) rows.now ≡ Some x) × (x.state ≡ state)) }
{
    match state_of(rows, number) {
        Some(found) => found == state,
        None => false,
    }
}

/// Whether there is a row of this number that somebody unlocked.
pub(crate) fn is_unlocked(rows: &[Row], number: u64) -> bool
    ensures { IsTrue result ↔ ((h : ℕ) × ((x : Row) × (find (is_row number) rows.now ≡ Some x) × (x.state ≡ RowState.Unlocked h))) }
{
    match state_of(rows, number) {
        Some(RowState::Unlocked(_)) => true,
        _ => false,
    }
}

/// The size of the row of this number, or 0 where there is none.
pub(crate) fn size_of(rows: &[Row], number: u64) -> u64
    ensures { result ≡ option_map_or (λ x. x.slip.size) (find (is_row number) rows.now) 0 }
{
    match row_index(rows, number) {
        Some(index) => rows[index].slip.size,
        None => 0,
    }
}

/// The list of the row of this number, or 0 where there is none.
pub(crate) fn list_of(rows: &[Row], number: u64) -> u32
    ensures { result ≡ option_map_or (λ x. x.slip.list) (find (is_row number) rows.now) 0 }
{
    match row_index(rows, number) {
        Some(index) => rows[index].slip.list,
        None => 0,
    }
}

/// How many rows of a list stand before the row of this number.
pub(crate) fn place_of(rows: &[Row], number: u64, list: u32) -> usize
    ensures { result ≡ position_or_len (is_row number) (filter (is_of_list list) rows.now) }
{
    rows.iter()
        .filter(|row| row.slip.list == list)
        .take_while(|row| row.number != number)
        .count()
}

/// Puts a row into a state.
pub(crate) fn set_state(rows: &mut [Row], number: u64, state: RowState)
    ensures { rows.new ≡ alter (is_row number) (option_map (in_state state)) rows.old }
{
    if let Some(index) = row_index(rows, number) {
        let row = &mut rows[index];
        row.state = state;
    }
}

/// Puts a row into a state, with the number of its deliveries.
pub(crate) fn leave_in(rows: &mut [Row], number: u64, state: RowState, count: u32)
    ensures { rows.new ≡ alter (is_row number) (option_map (left_in state count)) rows.old }
{
    if let Some(index) = row_index(rows, number) {
        let row = &mut rows[index];
        row.state = state;
        row.count = count;
    }
}

/// How many rows count towards the depth.
pub(crate) fn counted_rows(rows: &[Row]) -> usize
    ensures { result ≡ count_by (λ x. counts x.state) rows.now }
{
    rows.iter().filter(|row| row.state.counts()).count()
}

/// How many entries are reserved in all.
pub(crate) fn reserved_entries(reserved: &[Reservation]) -> u64
    requires { sum_by (λ v. v.entries) reserved.now < 2 ^ 64 }
    ensures { result ≡ sum_by (λ v. v.entries) reserved.now }
{
    reserved.iter().map(|reservation| reservation.entries).sum()
}

/// Where the reservation of a caller stands.
pub(crate) fn holder_index(reserved: &[Reservation], holder: u64) -> Option<usize>
    ensures { result ≡ position (is_holder holder) reserved.now }
{
    reserved
        .iter()
        .position(|reservation| reservation.holder == holder)
}

/// Adds one entry of this size to what a caller has reserved. Takes no memory.
pub(crate) fn add_reserved(reserved: &mut Vec<Reservation>, holder: u64, size: u64)
    requires room { vec_len reserved.old < vec_capacity reserved.old }
    requires fits { ForSome (find (is_holder holder) reserved.old.items) (λ v. (v.entries + 1 < 2 ^ 64) × (v.bytes + size < 2 ^ 64)) }
    ensures { reserved.new.items ≡ alter (is_holder holder) (more holder size) reserved.old.items }
{
    match holder_index(reserved, holder) {
        Some(index) => {
            let reservation = &mut reserved[index];
            reservation.entries += 1;
            reservation.bytes += size;
        }
        None => reserved.push_reserved(Reservation {
            holder,
            entries: 1,
            bytes: size,
        }),
    }
}

/// Takes one entry of this size out of what a caller has reserved.
pub(crate) fn take_reserved(reserved: &mut Vec<Reservation>, holder: u64, size: u64)
    requires { ForSome (find (is_holder holder) reserved.old.items) (λ v. (0 < v.entries) × (size ≤ v.bytes)) }
    ensures { reserved.new.items ≡ alter (is_holder holder) (less size) reserved.old.items }
{
    if let Some(index) = holder_index(reserved, holder) {
        let held = reserved[index];
        if held.entries == 1 {
            reserved.remove(index);
        } else {
            reserved[index] = Reservation {
                holder: held.holder,
                entries: held.entries - 1,
                bytes: held.bytes - size,
            };
        }
    }
}

/// Whether a caller can give one entry of this size back.
pub(crate) fn can_give(reserved: &[Reservation], holder: u64, size: u64) -> bool
    ensures { IsTrue result ↔ CanGive (unwrap_or (find (is_holder holder) reserved.now) (nothing holder)) size }
{
    match holder_index(reserved, holder) {
        Some(index) => reserved[index].can_give(size),
        None => false,
    }
}

impl Reservation {
    /// Whether one entry of this size, in bytes, can be taken out: there is one, and for what is left at most
    /// 1,048,576 bytes an entry.
    pub fn can_give(self, size: u64) -> bool
        ensures { IsTrue result ↔ CanGive self size }
    {
        self.entries > 0
            && size <= self.bytes
            && self.bytes - size <= MOST_BYTES.saturating_mul(self.entries - 1)
    }
}

/// Whether a mask has no bit past so many consumers; bit 0 is that of the first. For 64 consumers and more each
/// mask has none.
pub fn fits_mask(mask: u64, consumers: u32) -> bool
    ensures { IsTrue result ↔ (mask < 2 ^ consumers) }
{
    consumers >= 64 || mask >> consumers == 0
}

/// Takes a held row out of the queue: its entry and bytes become reserved. Takes no memory.
pub(crate) fn dequeue(rows: &mut [Row], reserved: &mut Vec<Reservation>, holder: u64, number: u64)
    requires room { vec_len reserved.old < vec_capacity reserved.old }
    requires fits { let size = option_map_or (λ x. x.slip.size) (find (is_row number) rows.old) 0 in ForSome (find (is_holder holder) reserved.old.items) (λ v. (v.entries + 1 < 2 ^ 64) × (v.bytes + size < 2 ^ 64)) }
    ensures rows { rows.new ≡ alter (is_row number) (option_map (in_state RowState.Dequeued)) rows.old }
    ensures reserved { let size = option_map_or (λ x. x.slip.size) (find (is_row number) rows.old) 0 in reserved.new.items ≡ alter (is_holder holder) (more holder size) reserved.old.items }
{
    add_reserved(reserved, holder, size_of(rows, number));
    set_state(rows, number, RowState::Dequeued);
}

/// The bell that is rung for a row.
pub(crate) fn bell_for(rows: &[Row], number: u64, consumer: u32) -> Bell
    ensures { let list = option_map_or (λ x. x.slip.list) (find (is_row number) rows.now) 0 in result ≡ record { consumer = consumer; list = list; place = position_or_len (is_row number) (filter (is_of_list list) rows.now); row = number } }
{
    let list = list_of(rows, number);
    Bell {
        consumer,
        list,
        place: place_of(rows, number, list) as u64,
        row: number,
    }
}

/// Where the bell of a consumer at a list stands.
pub(crate) fn bell_index(bells: &[Bell], consumer: u32, list: u32) -> Option<usize>
    ensures { result ≡ position (is_bell consumer list) bells.now }
{
    bells
        .iter()
        .position(|bell| bell.consumer == consumer && bell.list == list)
}

/// Rings a bell: the earlier of what was rung before and this one stands afterwards. Takes no memory.
pub(crate) fn ring(bells: &mut Vec<Bell>, bell: Bell)
    requires { vec_len bells.old < vec_capacity bells.old }
    ensures { bells.new.items ≡ alter (is_bell bell.consumer bell.list) (earlier bell) bells.old.items }
{
    match bell_index(bells, bell.consumer, bell.list) {
        Some(index) => {
            if bell.place < bells[index].place {
                bells[index] = bell;
            }
        }
        None => bells.push_reserved(bell),
    }
}

/// Takes the bell of a consumer at a list, whether it was rung or not.
pub(crate) fn take_bell(bells: &mut Vec<Bell>, consumer: u32, list: u32)
    ensures { bells.new.items ≡ filter (λ b. not (is_bell consumer list b)) bells.old.items }
{
    bells.retain(|bell| !(bell.consumer == consumer && bell.list == list));
}
