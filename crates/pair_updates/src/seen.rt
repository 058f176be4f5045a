// Words that were looked for among the words of a list.
ghost use Rattle.std.specs.Prelude.{List, ℕ, ◌<◌, ◌≡◌, ◌≤◌, length, slice_index};
ghost use Rattle.pair_updates.specs.Rows.{EachNotBelow, IsBelow};
ghost use Rattle.pair_updates.specs.Seen.{AreSeen, IsSeen};

use crate::rows::next_below;

/// So many words are remembered.
pub(crate) const SLOTS: usize = 128;

/// A word, and an index before which a list has no word below it.
#[derive(Clone, Copy)]
pub(crate) struct SeenWord {
    pub word: u64,
    pub from: usize,
}

/// Slots in which nothing is remembered yet.
pub(crate) fn no_words() -> [SeenWord; SLOTS]
    ensures { (words : List ℕ) → AreSeen words result }
{
    [SeenWord { word: 0, from: 0 }; SLOTS]
}

// The slot of a word (Knuth, *The Art of Computer Programming*, volume 3, section 6.4: multiplicative hashing).
#[inline(always)]
fn slot_of(word: u64) -> usize
    ensures { result < 128 }
{
    (word.wrapping_mul(0x9e37_79b9_7f4a_7c15) >> 57) as usize
}

// From which index on the word is still to be looked for, where this stands in its slot.
#[inline(always)]
fn known_from(seen: &SeenWord, word: u64) -> usize
    ensures { (words : List ℕ) → IsSeen words seen.now → IsSeen words (record { word = word; from = result }) }
{
    if seen.word == word { seen.from } else { 0 }
}

/// The first word from this place on that has no bit but the given word's, and not all of them; the number of words where there is none.
/// Where the same word was looked for before, the search goes on where that one ended.
#[inline(always)]
pub(crate) fn next_seen(
    seen: &mut [SeenWord; SLOTS],
    words: &[u64],
    from: usize,
    word: u64,
) -> usize
    requires from { from ≤ length words.now }
    requires seen { AreSeen words.now seen.old }
    ensures late { from ≤ result }
    ensures bound { result ≤ length words.now }
    ensures before { EachNotBelow words.now word from result }
    ensures found { result < length words.now → IsBelow (slice_index words.now result) word }
    ensures seen { AreSeen words.now seen.new }
{
    let slot = slot_of(word);
    let known = known_from(&seen[slot], word);
    let next = next_below(words, known.max(from), word);
    if known < from {
        return next;
    }
    seen[slot] = SeenWord { word, from: next };
    next
}
