//! What one caller knows of a table.
ghost use Rattle.std.specs.Prelude.{◌≡◌, ℕ, ◌<◌, ◌≤◌, [], ◌∷◌, None};
ghost use Rattle.acts_core.specs.Asked.{most_callers};
ghost use Rattle.queue_model.specs.History.{own};
ghost use Rattle.entry_table.specs.Views.{view_in, rest_of, state_in};
ghost use Rattle.entry_table.specs.Plays.{Within};
ghost use Rattle.entry_table.specs.Props.{Within-prop};

use crate::view::View;
use atomic_table::Badge;

/// What one caller knows of a table, and what it may do there. It has a number of its own.
#[derive(Drop)]
pub struct Pass {
    pub(crate) badge: Badge<View>,
    pub(crate) caller: u64,
    /// How many rows it may still draw.
    pub(crate) share: u64,
    /// How many rows were drawn, as far as it was shown when it last drew one.
    pub(crate) top: u64,
    pub ghost known: { badge.views ≡ view_in badge.views ∷ [] },
    pub ghost speaks: { (view_in badge.views).callers
        ≡ caller ∷ rest_of (view_in badge.views).callers },
    pub ghost low: { caller < most_callers },
    pub ghost idle: { (view_in badge.views).slot ≡ None },
    pub ghost within: { Within (view_in badge.views).shape
        (state_in (view_in badge.views)) } by { Within-prop _ _ },
    pub ghost shares: { share ≡ (view_in badge.views).share },
    pub ghost tops: { top ≤ (view_in badge.views).reached },
    pub ghost reached: { (view_in badge.views).reached ≤ (view_in badge.views).shape.rows },
}

impl Pass {
    /// The number of the caller that the pass is of.
    pub fn caller(&self) -> u64
        ensures { result ≡ self.now.caller }
    {
        self.caller
    }
}
