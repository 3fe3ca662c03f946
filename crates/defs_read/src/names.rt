//! Names: of objects, and sets that borrow them.
ghost use Rattle.std.specs.Prelude.{◌≡◌, ◌++◌, ◌∷◌, [], length, ⊤};
ghost use Rattle.serde_json.specs.View.{view};
ghost use Rattle.fields_read.specs.Faults.{cause_if};
ghost use Rattle.fields_read.specs.Forms.{first_of};
ghost use Rattle.defs_read.specs.Causes.{is_among, name_in};
ghost use Rattle.defs_read.specs.Steps.{Reads, named_causes, names_of, object_causes};
ghost use Rattle.defs_read.specs.declared.faults.DefsFault.TheVariants.{DoubleName};

use crate::faults::DefsFault;
use fields_read::{Field, check_presence, check_values, text};
use indexmap::IndexSet;
use serde_json::Value;

/// Tests that the value is an object with only known fields, and all that must stand.
pub(crate) fn check_object(
    value: &Value,
    known: &[Field],
    required: &[Field],
) -> Result<(), DefsFault>
    ensures { Reads result (first_of (object_causes known.now required.now (view value.now))) (λ _. ⊤) }
{
    if !value.is_object() {
        return Err(DefsFault::BadValue);
    }
    check_presence(value, known, required)?;
    Ok(())
}

/// The name of an object; empty where it has none.
fn name_in(value: &Value) -> &str
    ensures { result.now ≡ name_in (view value.now) }
{
    text(value, Field::Name).unwrap_or("")
}

/// Adds the name where it is new, and tells its index.
fn add_name<'a>(names: &mut IndexSet<&'a str>, name: &'a str) -> Result<usize, DefsFault>
    ensures { Reads result (cause_if (is_among name.now (names_of names.old)) DoubleName) (λ index. (index ≡ length (names_of names.old)) × (names_of names.new ≡ names_of names.old ++ name.now ∷ [])) }
{
    match names.insert_full(name) {
        Ok((index, true)) => Ok(index),
        Ok((_, false)) => Err(DefsFault::DoubleName),
        Err(_) => Err(DefsFault::NoMemory),
    }
}

/// Tests an object up to its name, adds the name where it is new, and tells its index.
pub(crate) fn read_name<'a>(
    value: &'a Value,
    known: &[Field],
    required: &[Field],
    names: &mut IndexSet<&'a str>,
) -> Result<usize, DefsFault>
    ensures { Reads result (first_of (named_causes known.now required.now (names_of names.old) (view value.now))) (λ index. (index ≡ length (names_of names.old)) × (names_of names.new ≡ names_of names.old ++ name_in (view value.now) ∷ [])) }
{
    check_object(value, known, required)?;
    check_values(value, &[Field::Name])?;
    add_name(names, name_in(value))
}
