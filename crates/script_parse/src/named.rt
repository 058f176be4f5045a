//! What is known of the values that have a name.

ghost use Rattle.std.specs.Prelude.{◌≡◌};
ghost use Rattle.script_parse.specs.Refusals.{length_named, rank_named};

use crate::name_table::NameTable;

/// What is known of a value: its name, its rank, and the length of its stored list.
#[derive(Debug)]
pub struct NameInfo {
    pub name: String,
    pub rank: u64,
    pub length: u64,
}

// By hand, so that each drop of one is a call.
impl Drop for NameInfo {
    fn drop(self) {
        let NameInfo {
            name: _,
            rank: _,
            length: _,
        } = self;
    }
}

/// The rank of the value with this name; none exactly where there is no such value.
pub fn rank_named(names: &NameTable, text: &[u8]) -> Option<u64>
    ensures { result ≡ rank_named names.now text.now }
{
    match names.place_of(text) {
        Some(i) => Some(names.info_at(i).rank),
        None => None,
    }
}

/// The length of the stored list of the value with this name; none exactly where there is no such value.
pub fn length_named(names: &NameTable, text: &[u8]) -> Option<u64>
    ensures { result ≡ length_named names.now text.now }
{
    match names.place_of(text) {
        Some(i) => Some(names.info_at(i).length),
        None => None,
    }
}
