//! Laws on the bytes of journals. No program needs to call them: each has its law as its contract.
ghost use Rattle.journal_format.specs.Laws.{FrontGrows, FirstFront, OneList, NothingBehind, NoJournal, OneFault, RoundTrip, SizeOf};

/// The front of a journal: a header alone is one, and a batch behind it makes a longer one.
#[tactic(auto, using(crate::proofs::Fronts::front_grows))]
pub fn fronts()
    ensures grows { FrontGrows }
    ensures first { FirstFront }
{}

/// A byte list stands for at most one list of commits, and what follows a closed gate has no meaning.
pub fn commits()
    ensures one_list { OneList }
    ensures nothing_behind { NothingBehind }
{}

/// A damaged list of bytes is no journal, and has one first fault.
pub fn damages()
    ensures no_journal { NoJournal }
    ensures one_fault { OneFault }
{}

/// The bytes of a batch are read as that batch, and how many there are.
pub fn batches()
    ensures round_trip { RoundTrip }
    ensures size_of { SizeOf }
{}
