//! The values that have a name, found by it.

ghost use Rattle.std.specs.Prelude.{◌≡◌, ◌<◌, [], nat_eq, length, get_or, string_bytes, OnOk, OnErr};
ghost use Rattle.std.specs.Hash as fed;
ghost use Rattle.std.specs.Cmp.{on_equiv, on_per, partial_equiv_from_equiv};
ghost use Rattle.std.specs.Cmp.Lexicographic.{bytes_decides, nat_list_eq_equiv, pointwise};
ghost use Rattle.std.specs.Cmp.Rules.{hashing};
ghost use Rattle.std.proofs.Common.{ap, rules};
ghost use Rattle.script_parse.specs.Places.{place_named, with_info};

use crate::named::NameInfo;
use indexmap::{Equivalent, IndexSet};
use module_vectors::NoMemory;
use std::alloc::Global;
use std::hash::{Hash, Hasher};
use std::marker::Model;

// Values are told apart by their names alone.
impl PartialEq for NameInfo {
    ghost eq = { λ a b. pointwise nat_eq (string_bytes a.name) (string_bytes b.name) };

    ghost laws = { on_per (λ i. string_bytes i.name) (partial_equiv_from_equiv nat_list_eq_equiv) };

    fn eq(&self, other: &NameInfo) -> bool {
        self.name.as_bytes() == other.name.as_bytes()
    }
}

impl Eq for NameInfo {
    ghost laws = { on_equiv (λ i. string_bytes i.name) nat_list_eq_equiv };
}

impl Hash for NameInfo {
    ghost hash_input = { λ i. fed.slice fed.u8 (string_bytes i.name) };

    ghost respects_eq = { Prim.search (hashing, rules) };

    fn hash<H: Hasher>(&self, state: &mut H) {
        self.name.as_bytes().hash(state);
    }
}

impl Equivalent<NameInfo> for &[u8] {
    ghost equivalent = { λ name i. pointwise nat_eq name.now (string_bytes i.name) };

    ghost respects_hash = { λ name i h. ap (fed.slice fed.u8) ((bytes_decides name.now (string_bytes i.name)).0 h) };

    ghost respects_eq = { λ name a b. nat_list_eq_equiv.congr name.now (string_bytes a.name) (string_bytes b.name) };

    fn equivalent(&self, info: &NameInfo) -> bool {
        *self == info.name.as_bytes()
    }
}

/// The values that have a name, in the order in which the names were first given. No name stands twice, and a value is
/// found by a hash of its name. Contracts see the list.
pub struct NameTable {
    infos: IndexSet<NameInfo>,
}

// By hand, so that each drop of one is a call.
impl Drop for NameTable {
    fn drop(self) {
        let NameTable { infos: _ } = self;
    }
}

impl Model for NameTable {
    ghost use Rattle.std.specs.Prelude.{List};
    ghost use Rattle.script_parse.specs.declared.named.NameInfo.{NameInfo};

    ghost Value = { List NameInfo };

    ghost view = { λ t. t.infos.keys };
}

impl NameTable {
    /// No values. It takes no memory.
    pub fn new(alloc: Global) -> NameTable
        ensures { result ≡ [] }
    {
        NameTable {
            infos: IndexSet::new(alloc),
        }
    }

    /// Takes all values away, and keeps the memory for others.
    pub fn clear(&mut self)
        ensures { self.new ≡ [] }
    {
        self.infos.clear();
    }

    /// The place of the value with this name; none exactly where there is no such value.
    pub fn place_of(&self, name: &[u8]) -> Option<usize>
        ensures { result ≡ place_named self.now name.now }
    {
        self.infos.get_index_of(name)
    }

    /// The value at this place.
    pub fn info_at(&self, place: usize) -> &NameInfo
        requires { place < length self.now }
        ensures { result.now ≡ get_or self.now place result.now }
    {
        &self.infos.as_slice()[place]
    }

    /// Gives a name to a value, in place of the value that has it if there is one, else behind all others. After an
    /// error all is as before.
    pub fn give(&mut self, info: NameInfo) -> Result<(), NoMemory>
        ensures given { OnOk result (self.new ≡ with_info info self.old) }
        ensures same { OnErr result (self.new ≡ self.old) }
    {
        match self.infos.replace(info) {
            Ok(_) => Ok(()),
            Err(_) => Err(NoMemory),
        }
    }
}
