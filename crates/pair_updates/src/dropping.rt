// Which pairs a new member drops (Gebauer and Möller 1988).
ghost use Rattle.std.specs.Prelude.{ℕ, List, ◌≡◌, ◌<◌, ◌↔◌, IsTrue, MatchOption, length};
ghost use Rattle.basis_steps.specs.Criteria.{IsPair};
ghost use Rattle.basis_steps.specs.Drops.{LeavesFor, YieldsTo};
ghost use Rattle.basis_steps.specs.Updates.{IsFirstSpared, IsOfGroup, Remains, YieldsFirstTo};
ghost use Rattle.formal_sums.specs.FormalSums.{Each};
ghost use Rattle.pair_updates.specs.Dropping.{AreNewPairs, IsFate, IsPairWithBits, IsNewIn};
ghost use Rattle.pair_updates.specs.FirstYields.{AreFirstYields, HasGroup};
ghost use Rattle.pair_updates.specs.Leads.{setting_of_leads, sums_shown};
ghost use Rattle.pair_updates.specs.LeadCriteria.{DividesLcm, ProductSpares};
ghost use Rattle.pair_updates.specs.Rows.{lead_row};
ghost use Rattle.pair_updates.specs.declared.dropping.Fate.TheVariants as fates;

use crate::criteria::{divides_lcm, product_spares};
use crate::leads::Leads;
use crate::meeting::NewPair;
use crate::rows::{divides_rows, is_within, tells_all};

/// What becomes of the pair of an earlier member and a new one.
#[derive(Clone, Copy)]
pub(crate) enum Fate {
    /// Their leads stand at two positions: there is none.
    Apart,
    /// It is queued.
    Queued,
    /// The product criterion spares it, and it stands for those of its lcm.
    Spared,
    /// It is dropped for this member.
    Dropped(usize),
}

/// Does the queued pair of i and j leave for the new member h?
pub(crate) fn leaves_for(leads: &Leads, h: usize, i: usize, j: usize) -> bool
    requires pair { IsPair (sums_shown leads.now) (i, j) }
    requires later { j < h }
    requires within { h < length leads.now.keys }
    ensures { IsTrue result ↔ LeavesFor (sums_shown leads.now) h (i, j) }
{
    if !divides_lcm(leads, i, j, h) {
        return false;
    }
    if divides_lcm(leads, i, h, j) {
        return false;
    }
    !divides_lcm(leads, j, h, i)
}

/// The same, where these are the first exponents of the lead of h: by them alone most pairs stay.
#[inline(always)]
pub(crate) fn leaves_by_row(leads: &Leads, h: usize, row: &[u16; 16], i: usize, j: usize) -> bool
    requires pair { IsPair (sums_shown leads.now) (i, j) }
    requires later { j < h }
    requires within { h < length leads.now.keys }
    requires row { row.now ≡ lead_row leads.now h }
    ensures { IsTrue result ↔ LeavesFor (sums_shown leads.now) h (i, j) }
{
    if !divides_rows(row, leads.row(i), leads.row(j)) {
        return false;
    }
    leaves_for(leads, h, i, j)
}

// Does the lead of j divide the lcm of i and the new member h, where these are the words of their pairs? Most words say no, and in a
// ring of at most sixteen variables a word that tells all says yes too: only behind both are exponents read.
fn lcm_is_reached(leads: &Leads, i: usize, h: usize, j: usize, above_i: u64, above_j: u64) -> bool
    requires pair { IsPairWithBits leads.now (record { i = i; j = h; above = above_i }) }
    requires other { IsPairWithBits leads.now (record { i = j; j = h; above = above_j }) }
    ensures { IsTrue result ↔ DividesLcm leads.now (i, h) j }
{
    if !is_within(above_j, above_i) {
        return false;
    }
    if tells_all(above_j) && leads.weights().len() <= 16 {
        return true;
    }
    divides_lcm(leads, i, h, j)
}

/// Does the pair yield to that of j and the same new member, with these bits? By its bits most do not.
pub(crate) fn yields_to(leads: &Leads, pair: &NewPair, j: usize, above: u64) -> bool
    requires pair { IsPairWithBits leads.now pair.now }
    requires other { IsPairWithBits leads.now (record { i = j; j = pair.now.j; above = above }) }
    ensures { IsTrue result ↔ YieldsTo (sums_shown leads.now) pair.now.j pair.now.i j }
{
    let (i, h) = (pair.i as usize, pair.j as usize);
    if !lcm_is_reached(leads, i, h, j, pair.above, above) {
        return false;
    }
    if above != pair.above {
        return true;
    }
    !lcm_is_reached(leads, j, h, i, above, pair.above)
}

// Have the pair and that of j and the same new member, with these bits, one lcm? Those that have not differ in their bits most often.
fn have_one_lcm(leads: &Leads, pair: &NewPair, j: usize, above: u64) -> bool
    requires pair { IsPairWithBits leads.now pair.now }
    requires other { IsPairWithBits leads.now (record { i = j; j = pair.now.j; above = above }) }
    ensures { IsTrue result ↔ IsOfGroup (sums_shown leads.now) pair.now.j pair.now.i j }
{
    if above != pair.above {
        return false;
    }
    let (i, h) = (pair.i as usize, pair.j as usize);
    if !lcm_is_reached(leads, i, h, j, pair.above, above) {
        return false;
    }
    lcm_is_reached(leads, j, h, i, above, pair.above)
}

// Are the pair and that of j with the same new member of one group?
fn is_of_group(leads: &Leads, news: &[Option<u64>], pair: &NewPair, j: usize) -> bool
    requires new { IsNewIn leads.now news.now pair.now }
    requires known { j < length news.now }
    ensures { IsTrue result ↔ IsOfGroup (sums_shown leads.now) pair.now.j pair.now.i j }
{
    match news[j] {
        Some(above) => have_one_lcm(leads, pair, j, above),
        None => false,
    }
}

// Is the pair of j and the new member of the group of the pair, and does the product criterion spare it?
fn is_spared(leads: &Leads, news: &[Option<u64>], pair: &NewPair, j: usize) -> bool
    requires new { IsNewIn leads.now news.now pair.now }
    requires known { j < length news.now }
    ensures both { IsTrue result → IsOfGroup (sums_shown leads.now) pair.now.j pair.now.i j }
    ensures applies { IsTrue result → ProductSpares leads.now (j, pair.now.j) }
    ensures none { IsOfGroup (sums_shown leads.now) pair.now.j pair.now.i j → ProductSpares leads.now (j, pair.now.j) → IsTrue result }
{
    if !is_of_group(leads, news, pair, j) {
        return false;
    }
    product_spares(leads, j, pair.j as usize)
}

// The first member of the group of the pair whose pair with the new member the product criterion spares, where these members have
// the whole group.
fn first_spared(
    leads: &Leads,
    news: &[Option<u64>],
    left: &[usize],
    pair: &NewPair,
) -> Option<usize>
    requires new { IsNewIn leads.now news.now pair.now }
    requires within { Each (λ c. c < length news.now) left.now }
    requires group { HasGroup (sums_shown leads.now) pair.now.j pair.now.i left.now }
    ensures { MatchOption result
        ((l : ℕ) → IsOfGroup (sums_shown leads.now) pair.now.j pair.now.i l → ProductSpares leads.now (l, pair.now.j) → ⊥)
        (λ c. IsFirstSpared (setting_of_leads leads.now.variables leads.now) (sums_shown leads.now) pair.now.j pair.now.i c) }
{
    for k in 0..left.len() {
        if is_spared(leads, news, pair, left[k]) {
            return Some(left[k]);
        }
    }
    None
}

// The first member of the group of the pair, where these members have the whole group.
fn first_of_group(leads: &Leads, news: &[Option<u64>], left: &[usize], pair: &NewPair) -> usize
    requires new { IsNewIn leads.now news.now pair.now }
    requires within { Each (λ c. c < length news.now) left.now }
    ensures member { IsOfGroup (sums_shown leads.now) pair.now.j pair.now.i result }
    ensures first { HasGroup (sums_shown leads.now) pair.now.j pair.now.i left.now
        → (l : ℕ) → l < result → IsOfGroup (sums_shown leads.now) pair.now.j pair.now.i l → ⊥ }
{
    for k in 0..left.len() {
        if is_of_group(leads, news, pair, left[k]) {
            return left[k];
        }
    }
    pair.i as usize
}

// The fate of the pair of i where that of c stands for its group: this one where it is that pair itself, or it is dropped for c.
fn fate_behind(c: usize, i: usize, itself: Fate) -> Fate
    ensures same { c ≡ i → result ≡ itself }
    ensures other { (c ≡ i → ⊥) → result ≡ fates.Dropped c }
{
    if c == i { itself } else { Fate::Dropped(c) }
}

// What becomes of the pair, which yields to none, where these members have its whole group.
fn fate_in_group(leads: &Leads, news: &[Option<u64>], left: &[usize], pair: &NewPair) -> Fate
    requires new { IsNewIn leads.now news.now pair.now }
    requires within { Each (λ c. c < length news.now) left.now }
    requires group { HasGroup (sums_shown leads.now) pair.now.j pair.now.i left.now }
    requires remains { Remains (sums_shown leads.now) pair.now.j pair.now.i }
    ensures { IsFate (setting_of_leads leads.now.variables leads.now) (sums_shown leads.now) pair.now.j pair.now.i result }
{
    match first_spared(leads, news, left, pair) {
        Some(c) => fate_behind(c, pair.i as usize, Fate::Spared),
        None => fate_behind(
            first_of_group(leads, news, left, pair),
            pair.i as usize,
            Fate::Queued,
        ),
    }
}

/// What becomes of the pair of i and the new member h, whose pairs with each earlier member are these, where it yields to none and these
/// members have its whole group.
pub(crate) fn fate_of_left(
    leads: &Leads,
    news: &[Option<u64>],
    left: &[usize],
    h: usize,
    i: usize,
) -> Fate
    requires news { AreNewPairs leads.now h news.now }
    requires within { Each (λ c. c < h) left.now }
    requires group { IsPair (sums_shown leads.now) (i, h) → HasGroup (sums_shown leads.now) h i left.now }
    requires remains { IsPair (sums_shown leads.now) (i, h) → Remains (sums_shown leads.now) h i }
    requires known { i < h }
    ensures { IsFate (setting_of_leads leads.now.variables leads.now) (sums_shown leads.now) h i result }
{
    match news[i] {
        None => Fate::Apart,
        Some(above) => {
            let pair = NewPair {
                i: i as u64,
                j: h as u64,
                above,
            };
            fate_in_group(leads, news, left, &pair)
        }
    }
}
