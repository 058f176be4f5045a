// The array of sums, and which places are still to be looked at.
ghost use Rattle.std.specs.Prelude.{◌≡◌, IfOk, length};
ghost use Rattle.numbered_sums.specs.KeySums.{AreZeroSums};

use module_vectors::NoMemory;
use std::alloc::Global;

/// A sum for each number of a key, the numbers of those that may not be 0, a bit for each place that is still to be looked at,
/// and a bit for each word of these bits that has one.
pub struct Work {
    pub sums: Vec<u64>,
    pub touched: Vec<u32>,
    pub marks: Vec<u64>,
    pub words: Vec<u64>,
}

// By hand, so that each drop of one is a call.
impl Drop for Work {
    fn drop(self) {
        let Work {
            sums: _,
            touched: _,
            marks: _,
            words: _,
        } = self;
    }
}

/// Sums for so many numbers, all 0.
pub fn no_work(alloc: Global, count: usize) -> Result<Work, NoMemory>
    ensures idle { IfOk result (λ w. AreZeroSums w.sums.items) }
    ensures count { IfOk result (λ w. length w.sums.items ≡ count) }
{
    let sums = vec![in alloc; 0; count]?;
    let marks = vec![in alloc; 0; count / 64 + 1]?;
    let words = vec![in alloc; 0; count / 4096 + 1]?;
    Ok(Work {
        sums,
        touched: Vec::new(alloc),
        marks,
        words,
    })
}

// The place of the key with this number, 0 past the end.
fn place_at(places: &[u32], number: u32) -> usize {
    let at = number as usize;
    if at < places.len() {
        places[at] as usize
    } else {
        0
    }
}

// Sets the bit with this number.
fn set_bit(number: usize, bits: &mut Vec<u64>) {
    if number / 64 < bits.len() {
        bits[number / 64] |= 1 << (number % 64);
    }
}

/// Marks the places of the touched numbers from this one on, and the words of their marks.
pub fn mark(
    places: &[u32],
    touched: &[u32],
    from: usize,
    marks: &mut Vec<u64>,
    words: &mut Vec<u64>,
) {
    for k in from..touched.len() {
        let place = place_at(places, touched[k]);
        if place / 64 < marks.len() {
            set_bit(place, marks);
            set_bit(place / 64, words);
        }
    }
}

/// The number of the least bit that is set in this word, which is set no more.
pub fn take_bit(word: usize, bits: &mut Vec<u64>) -> Option<usize> {
    if word >= bits.len() {
        return None;
    }
    let here = bits[word];
    if here == 0 {
        return None;
    }
    bits[word] = here & here.wrapping_sub(1);
    Some(
        word.wrapping_mul(64)
            .wrapping_add(here.trailing_zeros() as usize),
    )
}

/// The word of words that has the bit of the least place of the touched numbers.
pub fn first_group(places: &[u32], touched: &[u32]) -> usize {
    let mut least = usize::MAX;
    for number in touched {
        least = least.min(place_at(places, *number));
    }
    least / 4096
}
