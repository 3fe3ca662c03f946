//! What one caller knows of a commit table.
ghost use Rattle.std.specs.Prelude.{◌≡◌, ◌<◌, ◌≤◌, [], ◌∷◌, false, Some};
ghost use Rattle.commit_table.specs.Passes.{view_in, rest_of, begun_in};

use crate::begun::Begun;
use atomic_table::Badge;
use history_lock::View;
use journal_format::Event;

/// What one caller knows of a commit table, and how many tickets it may still make. It has a number of its own.
#[derive(Drop)]
pub struct CommitPass {
    pub(crate) badge: Badge<View<Begun, Event>>,
    pub(crate) caller: u64,
    /// How many tickets it may still make.
    pub(crate) share: u64,
    pub ghost known: { badge.views ≡ view_in badge.views ∷ [] },
    pub ghost begins: { (view_in badge.views).opening ≡ Some (begun_in (view_in badge.views)) },
    pub ghost speaks: { (view_in badge.views).callers
        ≡ caller ∷ rest_of (view_in badge.views).callers },
    pub ghost idle: { (view_in badge.views).holding ≡ false },
    pub ghost shares: { share ≡ (view_in badge.views).share },
    pub ghost within: { share ≤ (begun_in (view_in badge.views)).tickets },
    pub ghost few: { ((begun_in (view_in badge.views)).callers ≤ 4294967295)
        × ((begun_in (view_in badge.views)).tickets ≤ 4294967295) },
}

impl CommitPass {
    /// The number of the caller that the pass is of.
    pub fn caller(&self) -> u64
        ensures { result ≡ self.now.caller }
    {
        self.caller
    }
}
