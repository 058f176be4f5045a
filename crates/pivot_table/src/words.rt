// Words: 0, or one more than the number of a row.
ghost use Rattle.std.specs.Prelude.{◌≡◌, ◌+◌, ◌^◌, ◌<◌, length, map, IfOk};
ghost use Rattle.std.specs.Slots.{IsFull, slots_items, slots_len};
ghost use Rattle.pivot_table.specs.Law.{LeadsFit, option_word, word_row};

use atomic_table::Closed;
use std::alloc::{AllocError, Global};

// The word of a column that has this row, or none.
fn word_of_old(old: Option<u64>) -> u64
    requires { option_word old < 2 ^ 64 }
    ensures { result ≡ option_word old }
{
    match old {
        None => 0,
        Some(row) => row + 1,
    }
}

/// The words of columns that have these rows, where each row's lead is its column.
pub(crate) fn words_of(
    alloc: Global,
    leads: &[u64],
    held: &[Option<u64>],
) -> Result<Vec<u64>, AllocError>
    requires { LeadsFit leads.now held.now }
    ensures { IfOk result (λ words. words.items ≡ map option_word held.now) }
{
    let _rows = leads.len();
    let mut words = Vec::new(alloc);
    words.reserve(held.len())?;
    for old in held {
        words.push_reserved(word_of_old(*old));
    }
    Ok(words)
}

// The row that a word names.
fn row_of(word: u64) -> Option<u64>
    ensures { result ≡ word_row word }
{
    if word == 0 { None } else { Some(word - 1) }
}

/// The rows that the words name, in the room of a list of as many rows.
pub(crate) fn rows_of(closed: &Closed<(), Global>, mut rows: Vec<Option<u64>>) -> Vec<Option<u64>>
    requires { (slots_len closed.now.words ≡ length rows.items) × IsFull closed.now.words }
    ensures { result.items ≡ map word_row (slots_items closed.now.words) }
{
    for column in 0..rows.len() {
        rows[column] = row_of(closed.word(column));
    }
    rows
}
