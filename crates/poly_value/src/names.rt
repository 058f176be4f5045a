//! The places of names, and the weights of the variables that they stand for.

ghost use Rattle.std.specs.Cmp.Lexicographic.{pointwise};
ghost use Rattle.std.specs.Prelude.{◌≡◌, nat_eq};
ghost use Rattle.poly_value.specs.Values.{place_of};

use module_vectors::{Names, Ring};
use poly_grammar::NameWeights;

// Are the two one text? Names of variables mostly differ at the end, where they are compared first.
fn is_text(name: &[u8], text: &[u8]) -> bool
    ensures { result ≡ pointwise nat_eq name.now text.now }
{
    let count = name.len();
    if count > 0 && count == text.len() {
        if name[count - 1] != text[count - 1] {
            return false;
        }
        if count == 1 {
            return true;
        }
    }
    name == text
}

/// The place, from 0, at which the text stands first among the names, or none exactly where it does not.
pub fn place(names: &Names, text: &[u8]) -> Option<usize>
    ensures { result ≡ place_of names.now text.now }
{
    let all = names.as_slice();
    for i in 0..all.len() {
        if is_text(all[i].as_bytes(), text) {
            return Some(i);
        }
    }
    None
}

/// The names of a ring's variables, with the ring's weights.
#[derive(Drop)]
pub struct RingNames<'a> {
    ring: &'a Ring,
}

impl<'a> RingNames<'a> {
    /// The names of this ring.
    pub fn new(ring: &'a Ring) -> RingNames<'a>
        ensures { result.ring.now ≡ ring.now }
    {
        RingNames { ring }
    }
}

impl<'a> NameWeights for RingNames<'a> {
    ghost use Rattle.poly_value.specs.Values.{name_weight};

    ghost weight = { λ names text. name_weight names.ring.now text };

    fn weight(&self, text: &[u8]) -> u32 {
        match place(&self.ring.vars, text) {
            Some(i) => u32::from(self.ring.weights.as_slice()[i]),
            None => 1,
        }
    }
}
