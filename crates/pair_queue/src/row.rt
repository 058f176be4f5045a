// One row of a table.
ghost use Rattle.std.specs.Int.{bit_at};
ghost use Rattle.std.specs.Prelude.{ℕ, [], ◌≡◌, ◌<◌, ◌≤◌, ◌+◌, ◌*◌, ◌&&◌, ◌==◌, OnOk, cond, false, get_or, nat_eq, not, length, true};
ghost use Rattle.pair_queue.specs.Rows.{HasWithout, IsWithout, NoneWithout, flag_of};

use module_vectors::NoMemory;
use std::alloc::Global;
use std::marker::Model;

/// A flag for each member, 64 to a word.
pub(crate) struct Row {
    words: Vec<u64>,
}

// By hand, so that each drop of one is a call.
impl Drop for Row {
    fn drop(self) {
        let Row { words: _ } = self;
    }
}

impl Model for Row {
    ghost use Rattle.std.specs.Prelude.{length, ◌^◌, ◌≤◌};
    ghost use Rattle.pair_queue.specs.Rows.{FlagRowShown, flags_of};

    ghost Value = { FlagRowShown };

    ghost view = { λ r. record { flags = flags_of r.words.items } };

    ghost invariant = { λ r. length r.words.items ≤ 2 ^ 58 };
}

// The word with this index, 0 behind the end.
fn word_at(words: &[u64], index: usize) -> u64
    ensures { result ≡ get_or words.now index 0 }
{
    if index < words.len() { words[index] } else { 0 }
}

/// The word with the flag at this place set, or taken away.
pub(crate) fn with_flag(word: u64, place: usize, set: bool) -> u64
    requires { place < 64 }
    ensures { (r : ℕ) → r < 64 → (bit_at result r == 1) ≡ cond (nat_eq r place) set (bit_at word r == 1) }
{
    let flag = 1u64 << place;
    if set { word | flag } else { word & !flag }
}

// The flags of a word that the other has not.
fn flags_without(mine: u64, theirs: u64) -> u64
    ensures { (r : ℕ) → r < 64 → (bit_at result r == 1) ≡ (bit_at mine r == 1) && not (bit_at theirs r == 1) }
{
    mine & !theirs
}

// Has the one row a flag in its word with this index that the other has not?
fn has_without(mine: &[u64], theirs: &[u64], index: usize) -> bool
    requires mine { index < length mine.now }
    requires theirs { index < length theirs.now }
    ensures none { result ≡ false → NoneWithout (flag_of mine.now) (flag_of theirs.now) index (index + 1) }
    ensures some { result ≡ true → HasWithout (flag_of mine.now) (flag_of theirs.now) index }
{
    flags_without(mine[index], theirs[index]) != 0
}

// The first index from this one on, before the end, at which the one row has a flag that the other has not; the end where there is none.
fn without_in_turn(mine: &[u64], theirs: &[u64], from: usize, end: usize) -> usize
    requires order { from ≤ end }
    requires mine { end ≤ length mine.now }
    requires theirs { end ≤ length theirs.now }
    ensures late { from ≤ result }
    ensures bound { result ≤ end }
    ensures before { NoneWithout (flag_of mine.now) (flag_of theirs.now) from result }
    ensures found { result < end → HasWithout (flag_of mine.now) (flag_of theirs.now) result }
{
    for i in from..end {
        if has_without(mine, theirs, i) {
            return i;
        }
    }
    end
}

// The same, sooner. Most words have none, and there are many: so the loop looks at four in each turn.
fn next_index(mine: &[u64], theirs: &[u64], from: usize, end: usize) -> usize
    requires order { from ≤ end }
    requires mine { end ≤ length mine.now }
    requires theirs { end ≤ length theirs.now }
    ensures late { from ≤ result }
    ensures bound { result ≤ end }
    ensures before { NoneWithout (flag_of mine.now) (flag_of theirs.now) from result }
    ensures found { result < end → HasWithout (flag_of mine.now) (flag_of theirs.now) result }
{
    let mut i = from;
    while end - i > 3 {
        if has_without(mine, theirs, i) {
            return i;
        }
        if has_without(mine, theirs, i + 1) {
            return i + 1;
        }
        if has_without(mine, theirs, i + 2) {
            return i + 2;
        }
        if has_without(mine, theirs, i + 3) {
            return i + 3;
        }
        i += 4;
    }
    without_in_turn(mine, theirs, i, end)
}

impl Row {
    /// A row for no members.
    pub(crate) fn new(alloc: Global) -> Row
        ensures { result.flags ≡ [] }
    {
        Row {
            words: Vec::new(alloc),
        }
    }

    /// Makes room for so many flags, of which the new ones are not set. After `NoMemory` the flags are as before.
    pub(crate) fn reserve(&mut self, width: usize) -> Result<(), NoMemory>
        ensures wide { OnOk result (width ≤ length self.new.flags) }
        ensures wider { length self.old.flags ≤ length self.new.flags }
        ensures has { (i : ℕ) → get_or self.new.flags i false ≡ get_or self.old.flags i false }
    {
        let count = width.div_ceil(64);
        if self.words.len() < count {
            self.words.resize(count, 0)?;
        }
        Ok(())
    }

    /// Is the flag set?
    pub(crate) fn has(&self, index: usize) -> bool
        requires { index < length self.now.flags }
        ensures { result ≡ get_or self.now.flags index false }
    {
        self.words[index / 64] >> (index % 64) & 1 == 1
    }

    /// Sets the flag, or takes it away.
    pub(crate) fn put(&mut self, index: usize, set: bool)
        requires { index < length self.old.flags }
        ensures width { length self.new.flags ≡ length self.old.flags }
        ensures has { (i : ℕ) → get_or self.new.flags i false ≡ cond (nat_eq i index) set (get_or self.old.flags i false) }
    {
        self.words[index / 64] = with_flag(self.words[index / 64], index % 64, set);
    }

    /// Which of the 64 flags from index 64·`index` on stand here and not in the other row: a bit for each.
    pub(crate) fn word_without(&self, other: &Row, index: usize) -> u64
        ensures { IsWithout self.now.flags other.now.flags index result }
    {
        flags_without(word_at(&self.words, index), word_at(&other.words, index))
    }

    /// The first index from this one on, before the end, for which `word_without` is not 0; the end where there is none.
    pub(crate) fn next_without(&self, other: &Row, from: usize, end: usize) -> usize
        requires order { from ≤ end }
        requires mine { 64 * end < length self.now.flags + 64 }
        requires theirs { 64 * end < length other.now.flags + 64 }
        ensures late { from ≤ result }
        ensures bound { result ≤ end }
        ensures before { NoneWithout (λ c. get_or self.now.flags c false) (λ c. get_or other.now.flags c false) from result }
        ensures found { result < end → HasWithout (λ c. get_or self.now.flags c false) (λ c. get_or other.now.flags c false) result }
    {
        next_index(&self.words, &other.words, from, end)
    }
}
