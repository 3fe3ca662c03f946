//! Where a consumer goes on.
ghost use Rattle.std.specs.Prelude.{◌≡◌, length};

/// The greatest number of lists that a cursor has a place in.
pub const MOST_LISTS: usize = 10;

/// Where a consumer goes on in each list when it asks for its next entry.
#[derive(Debug, Drop)]
pub struct Cursor {
    /// The consumer's number in its queue.
    pub consumer: u32,
    /// Where it stands in each list: 0 before the first entry, and a number more than a row's at that row.
    pub stops: [u64; 10],
    ghost places: { length stops ≡ 10 },
}
