// A flag for each pair.
ghost use Rattle.std.specs.Int.{bit_at};
ghost use Rattle.std.specs.Prelude.{ℕ, ◌≡◌, ◌<◌, ◌≤◌, ◌+◌, ◌*◌, ◌&&◌, ◌==◌, OnErr, OnOk, cond, false, length, nat_eq, not};
ghost use Rattle.basis_steps.specs.Pairs.{Pair as PlainPair, is_same_pair, pair_of};
ghost use Rattle.pair_queue.specs.Rows.{HasWithout, NoneWithout};
ghost use Rattle.pair_queue.specs.Tables.{AreWide, AreWideTo, HasSameFlags, flag, has_at, member_count, room};

use crate::row::Row;
use module_vectors::NoMemory;
use std::alloc::Global;
use std::marker::Model;

/// A flag for each pair of members, kept in the rows of both.
pub(crate) struct Table {
    members: usize,
    // A row for each member, with a flag for each; and what is there for more, where no flag is set.
    rows: Vec<Row>,
}

// By hand, so that each drop of one is a call.
impl Drop for Table {
    fn drop(self) {
        let Table {
            members: _,
            rows: _,
        } = self;
    }
}

impl Model for Table {
    ghost use Rattle.pair_queue.specs.Tables.{AreMirrored, TableShown};

    ghost Value = { TableShown };

    ghost view = { λ t. record { members = t.members; rows = t.rows.items } };

    ghost invariant = { λ t. AreMirrored (record { members = t.members; rows = t.rows.items }) };
}

// Sets the flag of member c in the row of member a, or takes it away.
fn put_at(rows: &mut Vec<Row>, a: usize, c: usize, set: bool)
    requires a { a < length rows.old.items }
    requires wide { AreWide (length rows.old.items) rows.old.items }
    requires c { c < length rows.old.items }
    ensures len { length rows.new.items ≡ length rows.old.items }
    ensures wide { AreWide (length rows.old.items) rows.new.items }
    ensures flags { (b d : ℕ) → has_at rows.new.items b d ≡ cond (nat_eq b a && nat_eq d c) set (has_at rows.old.items b d) }
{
    rows[a].put(c, set);
}

// Makes room for so many flags in the row of member a.
fn widen_at(rows: &mut Vec<Row>, a: usize, width: usize) -> Result<(), NoMemory>
    requires { a < length rows.old.items }
    ensures len { length rows.new.items ≡ length rows.old.items }
    ensures wide { OnOk result (AreWideTo a width rows.old.items → AreWideTo (a + 1) width rows.new.items) }
    ensures wider { (k : ℕ) → AreWide k rows.old.items → AreWide k rows.new.items }
    ensures flags { (b d : ℕ) → has_at rows.new.items b d ≡ has_at rows.old.items b d }
{
    rows[a].reserve(width)
}

// Makes room for so many flags in each row. After an error some have it.
fn widen(rows: &mut Vec<Row>, width: usize) -> Result<(), NoMemory>
    ensures len { length rows.new.items ≡ length rows.old.items }
    ensures wide { OnOk result (AreWide width rows.new.items) }
    ensures wider { (k : ℕ) → AreWide k rows.old.items → AreWide k rows.new.items }
    ensures flags { (b d : ℕ) → has_at rows.new.items b d ≡ has_at rows.old.items b d }
{
    for a in 0..rows.len() {
        widen_at(rows, a, width)?;
    }
    Ok(())
}

// Appends a row for so many flags, of which none is set.
fn push_row(alloc: Global, rows: &mut Vec<Row>, width: usize) -> Result<(), NoMemory>
    requires { AreWide width rows.old.items }
    ensures len { OnOk result (length rows.new.items ≡ length rows.old.items + 1) }
    ensures wide { OnOk result (AreWide width rows.new.items) }
    ensures flags { OnOk result ((b d : ℕ) → has_at rows.new.items b d ≡ has_at rows.old.items b d) }
    ensures err { OnErr result (rows.new.items ≡ rows.old.items) }
{
    let mut row = Row::new(alloc);
    row.reserve(width)?;
    rows.push(row)?;
    Ok(())
}

// Appends rows for so many flags until there are so many rows. After an error some are there.
fn push_rows(alloc: Global, rows: &mut Vec<Row>, width: usize) -> Result<(), NoMemory>
    requires wide { AreWide width rows.old.items }
    requires few { length rows.old.items ≤ width }
    ensures more { length rows.old.items ≤ length rows.new.items }
    ensures few { length rows.new.items ≤ width }
    ensures enough { OnOk result (width ≤ length rows.new.items) }
    ensures wide { AreWide width rows.new.items }
    ensures flags { (b d : ℕ) → has_at rows.new.items b d ≡ has_at rows.old.items b d }
{
    while rows.len() < width {
        push_row(alloc, rows, width)?;
    }
    Ok(())
}

impl Table {
    /// A table for no members.
    pub(crate) fn new(alloc: Global) -> Table
        ensures sizes { member_count result ≡ 0 }
        ensures flags { (x : PlainPair) → (flag result) x ≡ false }
    {
        Table {
            members: 0,
            rows: Vec::new(alloc),
        }
    }

    /// Makes room for so many members. The flags stay, after `NoMemory` too.
    pub(crate) fn reserve(&mut self, alloc: Global, count: usize) -> Result<(), NoMemory>
        ensures same { HasSameFlags self.old self.new }
        ensures room { OnOk result (count ≤ room self.new) }
    {
        if count <= self.rows.len() {
            return Ok(());
        }
        // Members come one at a time: the next 63 ask each row for nothing.
        let width = count.saturating_add(63);
        widen(&mut self.rows, width)?;
        push_rows(alloc, &mut self.rows, width)
    }

    /// Now it is for so many members, for which it has room. The flags stay, and the pairs of new members have none.
    pub(crate) fn grow(&mut self, count: usize)
        requires more { member_count self.old ≤ count }
        requires room { count ≤ room self.old }
        ensures sizes { member_count self.new ≡ count }
        ensures flags { (x : PlainPair) → (flag self.new) x ≡ (flag self.old) x }
    {
        self.members = count;
    }

    /// Has the pair of i and j its flag?
    pub(crate) fn has(&self, i: usize, j: usize) -> bool
        requires order { i < j }
        requires within { j < member_count self.now }
        ensures { result ≡ (flag self.now) (i, j) }
    {
        self.rows[j].has(i)
    }

    /// Gives the pair of i and j its flag, or takes it away.
    pub(crate) fn put(&mut self, i: usize, j: usize, set: bool)
        requires order { i < j }
        requires within { j < member_count self.old }
        ensures sizes { member_count self.new ≡ member_count self.old }
        ensures flags { (x : PlainPair) → (flag self.new) x ≡ cond (is_same_pair x (i, j)) set ((flag self.old) x) }
    {
        put_at(&mut self.rows, j, i, set);
        put_at(&mut self.rows, i, j, set);
    }

    /// Which of the 64 members from number 64·`index` on have their flag with a here, and none with b in the other table: a bit for
    /// each.
    pub(crate) fn word_without(&self, a: usize, other: &Table, b: usize, index: usize) -> u64
        requires a { a < member_count self.now }
        requires b { b < member_count self.now }
        requires sizes { member_count other.now ≡ member_count self.now }
        ensures { (r : ℕ) → r < 64
            → (bit_at result r == 1) ≡ (flag self.now (pair_of a (64 * index + r)) && not (flag other.now (pair_of b (64 * index + r)))) }
    {
        self.rows[a].word_without(&other.rows[b], index)
    }

    /// The first index from this one on, before the end, for which `word_without` is not 0; the end where there is none.
    pub(crate) fn next_without(
        &self,
        a: usize,
        other: &Table,
        b: usize,
        from: usize,
        end: usize,
    ) -> usize
        requires a { a < member_count self.now }
        requires b { b < member_count self.now }
        requires sizes { member_count other.now ≡ member_count self.now }
        requires order { from ≤ end }
        requires end { 64 * end < member_count self.now + 64 }
        ensures late { from ≤ result }
        ensures bound { result ≤ end }
        ensures before { NoneWithout (λ c. flag self.now (pair_of a c)) (λ c. flag other.now (pair_of b c)) from result }
        ensures found { result < end → HasWithout (λ c. flag self.now (pair_of a c)) (λ c. flag other.now (pair_of b c)) result }
    {
        self.rows[a].next_without(&other.rows[b], from, end)
    }
}
