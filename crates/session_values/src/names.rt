// The values by their names.
ghost use Rattle.std.specs.Prelude.{◌≡◌, OnErr, OnOk, is_some, length, string_bytes};
ghost use Rattle.term_lists.specs.declared.ring.Ring.{Ring};
ghost use Rattle.session_values.specs.Kept.{AreSound, IsSound, values_of};
ghost use Rattle.session_values.specs.Names.{with_value};

use crate::stored::Stored;
use module_vectors::NoMemory;
use script_parse::{NameInfo, NameTable};
use std::mem::replace;

/// Gives a name to a value, in place of the value that has it if there is one. After an error all is as before.
pub fn give_name(
    names: &mut NameTable,
    stored: &mut Vec<Stored>,
    name: String,
    rank: u64,
    value: Stored,
) -> Result<(), NoMemory>
    requires { length names.old ≡ length stored.old.items }
    ensures values { OnOk result (values_of names.new stored.new.items
        ≡ with_value (record { name = string_bytes name; rank = rank; list = value.list; kept = is_some value.basis }) (values_of names.old stored.old.items)) }
    ensures sound { OnOk result ((ring : Ring) → AreSound ring names.old stored.old.items → IsSound ring rank value
        → AreSound ring names.new stored.new.items) }
    ensures names { OnErr result (names.new ≡ names.old) }
    ensures stored { OnErr result (stored.new.items ≡ stored.old.items) }
{
    let info = NameInfo {
        length: value.list().len() as u64,
        rank,
        name,
    };
    match names.place_of(info.name.as_bytes()) {
        Some(i) => {
            names.give(info)?;
            drop(replace(&mut stored[i], value));
        }
        None => {
            stored.reserve(1)?;
            names.give(info)?;
            stored.push_reserved(value);
        }
    }
    Ok(())
}
