//! Whether names are equal, in a set that borrows them.
ghost use Rattle.std.specs.Prelude.{◌≡◌, ◌++◌, ◌∷◌, [], not, List, ℕ, IfOk, OnOk};
ghost use Rattle.std.specs.Prelude.{MatchBool};
ghost use Rattle.std.specs.List.{IsDistinct};
ghost use Rattle.std.specs.Str.{bytes_eq};
ghost use Rattle.message_core.specs.Names.{Holds, HasDouble, is_among};
ghost use Rattle.message_core.specs.Spelling.{names};

use crate::headers::Header;
use byte_lists::NoMemory;
use std::alloc::Global;
use std::collections::BTreeSet;

/// Adds the name, and says whether it is new.
pub(crate) fn add_name<'a>(taken: &mut BTreeSet<&'a [u8]>, name: &'a [u8]) -> Result<bool, NoMemory>
    ensures added { (ns : List (List ℕ)) → Holds taken.old ns
        → IfOk result (λ new. new ≡ not (is_among name.now ns)) }
    ensures holds { (ns : List (List ℕ)) → Holds taken.old ns
        → OnOk result (Holds taken.new (ns ++ name.now ∷ [])) }
{
    match taken.insert(name) {
        Ok(new) => Ok(new),
        Err(_) => Err(NoMemory),
    }
}

/// Whether two headers have one name.
pub(crate) fn has_double(alloc: Global, headers: &[Header]) -> Result<bool, NoMemory>
    ensures { IfOk result (λ double.
        MatchBool double (HasDouble (names headers.now)) (IsDistinct bytes_eq (names headers.now))) }
{
    let mut taken = BTreeSet::new(alloc);
    for header in headers {
        if !add_name(&mut taken, header.name.as_slice())? {
            return Ok(true);
        }
    }
    Ok(false)
}
