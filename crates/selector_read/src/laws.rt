//! Laws of selectors and their texts. Each is the contract of a function with no body.
ghost use Rattle.std.specs.Prelude.{◌≡◌, ◌≤◌, ◌↔◌, ℕ, List, length};
ghost use Rattle.selector_read.specs.Reading.{selector_of};
ghost use Rattle.selector_read.specs.Selectors.{IsOutcome, IsSelector, Outcome, StandsFor, longest_text};
ghost use Rattle.selector_read.specs.Trees.{Tree};
ghost use Rattle.selector_read.specs.Writing.{text_at};

/// What the grammar says of a text, and only that, is what reading it gives: the tree that it derives, or its first
/// fault from the left with its kind and place (docs/SELECTORS.md).
pub fn one_outcome()
    ensures { (text : List ℕ) (o : Outcome) → IsOutcome text o ↔ (selector_of text ≡ o) }
{}

/// What a text is a selector of, its tree's own text stands for; and is a selector of, where it is short enough.
pub fn written_texts()
    ensures stands { (text : List ℕ) (tree : Tree) → IsSelector text tree → StandsFor (text_at 1 tree) tree }
    ensures short { (text : List ℕ) (tree : Tree) → IsSelector text tree
        → length (text_at 1 tree) ≤ longest_text → IsSelector (text_at 1 tree) tree }
{}
