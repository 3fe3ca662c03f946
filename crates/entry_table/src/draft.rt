//! A row that was drawn, with the cargo that is to be linked with it.
ghost use Rattle.std.specs.Prelude.{◌≡◌, ◌<◌};
ghost use Rattle.queue_model.specs.Table.{most_entries};

/// A row that a pass drew and has not linked, with its cargo.
#[derive(Drop)]
pub struct Draft<C> {
    pub(crate) row: u64,
    pub(crate) cargo: C,
    pub ghost low: { row < most_entries },
}

impl<C> Draft<C> {
    /// The number of the row.
    pub fn row(&self) -> u64
        ensures { result ≡ self.now.row }
    {
        self.row
    }
}

/// The answer to a draw of a row.
#[derive(Drop)]
pub enum Drawn<C> {
    /// A row of the caller's own, with the cargo.
    Row(Draft<C>),
    /// The pass may draw no more rows. The cargo comes back.
    Spent(C),
}

/// The answer to a link.
#[derive(Drop)]
pub enum Linking<C> {
    /// The row is linked.
    Linked,
    /// Behind the node came this link already, the row's number plus 1. The draft comes back.
    Behind(u64, Draft<C>),
}
