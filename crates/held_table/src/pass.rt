//! What one caller knows of a held queue.
ghost use Rattle.std.specs.Prelude.{◌≡◌, ◌<◌, [], ◌∷◌, false, Some};
ghost use Rattle.held_table.specs.Views.{view_in, rest_of, outset_in};

use crate::view::Outset;
use atomic_table::Badge;
use history_lock::View;
use queue_model::Deed;

/// What one caller knows of a held queue, and what it may do with it. It has a number of its own.
#[derive(Drop)]
pub struct HeldPass {
    pub(crate) badge: Badge<View<Outset, Deed>>,
    pub(crate) caller: u64,
    /// How many rows it may still draw.
    pub(crate) share: u64,
    pub ghost known: { badge.views ≡ view_in badge.views ∷ [] },
    pub ghost begun: { (view_in badge.views).opening ≡ Some (outset_in (view_in badge.views)) },
    pub ghost speaks: { (view_in badge.views).callers
        ≡ caller ∷ rest_of (view_in badge.views).callers },
    pub ghost low: { caller < 4294967296 },
    pub ghost idle: { (view_in badge.views).holding ≡ false },
    pub ghost shares: { share ≡ (view_in badge.views).share },
}

impl HeldPass {
    /// The number of the caller that the pass is of.
    pub fn caller(&self) -> u64
        ensures { result ≡ self.now.caller }
    {
        self.caller
    }
}
