//! The law of lists of steps, and what it is made of. Each is the contract of a function with no body.
ghost use Rattle.link_core.specs.Laws.{FreshLaw, Law, LinkNames, LinksPoint, StepLaw};

/// After every list of steps that fit, from a fresh table on, the deeds of the steps are a legal history, and
/// the words stand for the state after it.
pub fn stands_for_a_history()
    ensures { Law }
{}

/// The words of a fresh table stand for an empty queue.
pub fn a_fresh_table_is_empty()
    ensures { FreshLaw }
{}

/// A step that fits leads from words that stand for a state to words that stand for the state after its
/// deed.
pub fn each_step_is_its_deed()
    ensures { StepLaw }
{}

/// A link is empty where no row stands behind it. Else it names one of the rows behind it, and each row
/// before that one is deleted.
pub fn a_link_names_a_later_row()
    ensures { LinkNames }
{}

/// The link of a list's head leads into the rows of the list, and the link of each row into those behind it.
pub fn each_link_leads_into_its_list()
    ensures { LinksPoint }
{}
