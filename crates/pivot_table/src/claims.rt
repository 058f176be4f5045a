// Claims.
ghost use Rattle.std.specs.Prelude.{◌≡◌, ℕ, ◌<◌, [], ◌∷◌, ◌++◌, length, slice_index, IfOk};
ghost use Rattle.pivot_table.specs.Law.{AreHeldOrWon, IsSeatOf, LeadsFit, NamesRowOf, Tallies, claim_word, entry, found_by, option_word, told};
ghost use Rattle.pivot_table.specs.Law.{AreWhole, given_half, kept_half, shares};

use crate::law::{ClaimSeat, Law, Rows, View};
use crate::plays::{Claimed, Cut, Glue, Looked};
use crate::words::{rows_of, words_of};
use atomic_table::Table;
use no_memory::NoMemory;
use std::alloc::{AllocError, Global};

/// The columns of one pass, each with a word: 0, or one more than the number of the row that has the column.
#[derive(Drop)]
pub struct Claims {
    table: Table<(), View, Rows, Law, Global>,
    rows: Rows,
    ghost key: { table.shared.key ≡ rows },
    ghost wide: { (table.shared.table_id.words ≡ length rows.held.items) × (table.shared.table_id.slots ≡ 0) × (0 < length rows.held.items) },
    ghost leads_in: { (row : ℕ) → row < length rows.leads.items → slice_index rows.leads.items row < length rows.held.items },
}

/// The answer to a claim.
#[derive(Clone, Copy, Debug, PartialEq, Eq)]
pub enum Claim {
    /// The row has the column.
    Won,
    /// This other row has it.
    Lost(u64),
}

// The rows, copied.
fn copied(
    alloc: Global,
    columns: u64,
    leads: &[u64],
    held: &[Option<u64>],
) -> Result<Rows, AllocError>
    ensures { IfOk result (λ rows. (rows.leads.items ≡ leads.now) × (rows.held.items ≡ held.now)) }
{
    let mut rows = Rows {
        leads: Vec::with_capacity(alloc, leads.len())?,
        held: Vec::with_capacity(alloc, columns as usize)?,
    };
    rows.leads.extend_from_slice(leads)?;
    rows.held.extend_from_slice(held)?;
    Ok(rows)
}

// The lead column of a row.
fn lead_of(leads: &[u64], row: u64) -> u64
    requires { row < length leads.now }
    ensures { result ≡ slice_index leads.now row }
{
    leads[row as usize]
}

impl Claims {
    /// A pass over so many columns, of rows with these leads, where each column has the old row that `held` names, or none: the
    /// words, and the first seat, which was told nothing yet and has the whole pass.
    ///
    /// There is a column, each lead is one of them, and an old row's lead is its column. `NoMemory` where there is none.
    pub fn new(
        alloc: Global,
        columns: u64,
        leads: &[u64],
        held: &[Option<u64>],
    ) -> Result<(Claims, ClaimSeat), NoMemory>
        requires some { 0 < columns }
        requires columns { length held.now ≡ columns }
        requires leads { (row : ℕ) → row < length leads.now → slice_index leads.now row < length held.now }
        requires held { LeadsFit leads.now held.now }
        ensures rows { IfOk result (λ c. (c.0.rows.leads.items ≡ leads.now) × (c.0.rows.held.items ≡ held.now)) }
        ensures seat { IfOk result (λ c. IsSeatOf c.0.table.shared.table_id leads.now c.1 × (told c.1 ≡ [])) }
        ensures whole { IfOk result (λ c. shares c.1 ≡ 0 ∷ []) }
    {
        let rows = copied(alloc, columns, leads, held)?;
        let words = words_of(alloc, leads, held)?;
        let (table, seat) = Table::of_words(alloc, words.as_slice(), &rows)?;
        Ok((Claims { table, rows }, seat))
    }

    /// A new seat, which was told nothing yet. It has half of the first share of the old one, which keeps the other half.
    pub fn split(&self, seat: &mut ClaimSeat) -> ClaimSeat
        requires { IsSeatOf self.now.table.shared.table_id self.now.rows.leads.items seat.old }
        ensures old { IsSeatOf self.now.table.shared.table_id self.now.rows.leads.items seat.new × (told seat.new ≡ told seat.old) }
        ensures new { IsSeatOf self.now.table.shared.table_id self.now.rows.leads.items result × (told result ≡ []) }
        ensures shares { (shares seat.new ≡ kept_half (shares seat.old)) × (shares result ≡ given_half (shares seat.old)) }
    {
        self.table.shared.split_seat::<Cut>(seat)
    }

    /// Joins a seat into another, which now was told what both were and has the shares of both. No memory.
    pub fn join(&self, seat: &mut ClaimSeat, other: ClaimSeat)
        requires seat { IsSeatOf self.now.table.shared.table_id self.now.rows.leads.items seat.old }
        requires other { IsSeatOf self.now.table.shared.table_id self.now.rows.leads.items other }
        ensures seat { IsSeatOf self.now.table.shared.table_id self.now.rows.leads.items seat.new }
        ensures told { told seat.new ≡ told seat.old ++ told other }
        ensures shares { shares seat.new ≡ shares seat.old ++ shares other }
    {
        self.table.shared.join_seat::<Glue>(seat, other);
    }

    /// Claims the lead column of the row, by one compare-exchange of its word: `Lost` with the row that the word named at that step,
    /// else the word names the row from then on. No memory, and no wait.
    pub fn claim(&self, seat: &mut ClaimSeat, row: u64) -> Claim
        requires seat { IsSeatOf self.now.table.shared.table_id self.now.rows.leads.items seat.old }
        requires row { row < length self.now.rows.leads.items }
        ensures seat { IsSeatOf self.now.table.shared.table_id self.now.rows.leads.items seat.new }
        ensures told { told seat.new ≡ told seat.old ++ entry (slice_index self.now.rows.leads.items row) (found_by result) (claim_word row result) ∷ [] }
        ensures names { NamesRowOf self.now.rows.leads.items (slice_index self.now.rows.leads.items row) (claim_word row result) }
        ensures shares { shares seat.new ≡ shares seat.old }
    {
        let column = lead_of(self.rows.leads.as_slice(), row);
        let found = self
            .table
            .shared
            .compare_exchange::<Claimed>(seat, column as usize, 0, row + 1);
        if found == 0 {
            Claim::Won
        } else {
            Claim::Lost(found - 1)
        }
    }

    /// The row that has the column, or none where its word was 0 at the one load. No memory, and no wait.
    pub fn look(&self, seat: &mut ClaimSeat, column: u64) -> Option<u64>
        requires seat { IsSeatOf self.now.table.shared.table_id self.now.rows.leads.items seat.old }
        requires column { column < length self.now.rows.held.items }
        ensures seat { IsSeatOf self.now.table.shared.table_id self.now.rows.leads.items seat.new }
        ensures told { told seat.new ≡ told seat.old ++ entry column (option_word result) (option_word result) ∷ [] }
        ensures names { NamesRowOf self.now.rows.leads.items column (option_word result) }
        ensures shares { shares seat.new ≡ shares seat.old }
    {
        let found = self.table.shared.load::<Looked>(seat, column as usize);
        if found == 0 { None } else { Some(found - 1) }
    }

    /// The row that each column has. Each is what was told to the seat and to those that were joined into it. Where these are all
    /// seats, so that this one has the whole pass, each column that has a row had it before, or the row's claim won it and one of
    /// them was told so. No memory.
    pub fn close(self, seat: ClaimSeat) -> Vec<Option<u64>>
        requires { IsSeatOf self.table.shared.table_id self.rows.leads.items seat }
        ensures tallies { Tallies self.rows.leads.items self.rows.held.items (told seat) result.items }
        ensures won { AreWhole (shares seat) → AreHeldOrWon self.rows.held.items (told seat) result.items }
    {
        let Claims { table, rows } = self;
        let Rows { leads: _, held } = rows;
        let closed = table.close_with(seat);
        let words = rows_of(&closed, held);
        closed.free();
        words
    }
}
