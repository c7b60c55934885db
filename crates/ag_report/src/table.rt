//! Rows of cells under one another, each column as wide as its longest cell.
ghost use Rattle.std.specs.Prelude.{◌≡◌, ◌++◌, [], ℕ, replicate, slice_index_or, length, OnOk, ◌-◌};
ghost use Rattle.std.specs.String.{string_bytes};
ghost use Rattle.ag_report.specs.Tables.{longest, on_the_left, on_the_right, cell_text, row_text, table_text};

use ag_base::{List, OutOfMemory, Text};
use std::marker::Model;

/// The cells of a column, and how wide it is.
#[derive(Drop)]
pub(crate) struct Column {
    cells: List<Text>,
    width: usize,
}

impl Model for Column {
    ghost use Rattle.std.specs.Prelude.{◌≡◌, List, ℕ};
    ghost use Rattle.ag_report.specs.Tables.{longest};

    ghost Value = { List (List ℕ) };

    ghost view = { λ c. c.cells };

    ghost invariant = { λ c. c.width ≡ longest c.cells };
}

/// How long the longest of the texts is.
fn longest_of(texts: &[Text]) -> usize
    ensures { result ≡ longest texts.now }
{
    let mut most = 0;
    for text in texts {
        most = most.max(text.as_str().len());
    }
    most
}

/// Appends so many spaces.
fn push_spaces(text: &mut String, count: usize) -> Result<(), OutOfMemory>
    ensures { OnOk result (string_bytes text.new ≡ string_bytes text.old ++ replicate count 32) }
{
    for _i in 0..count {
        text.push(' ')?;
    }
    Ok(())
}

/// Appends a text and the spaces that make it so wide.
fn push_name(text: &mut String, name: &str, width: usize) -> Result<(), OutOfMemory>
    ensures { OnOk result (string_bytes text.new ≡ string_bytes text.old ++ on_the_left width name.now) }
{
    text.push_str(name)?;
    push_spaces(text, width.saturating_sub(name.len()))
}

/// Appends the spaces that make a text so wide, and the text.
fn push_value(text: &mut String, value: &str, width: usize) -> Result<(), OutOfMemory>
    ensures { OnOk result (string_bytes text.new ≡ string_bytes text.old ++ on_the_right width value.now) }
{
    push_spaces(text, width.saturating_sub(value.len()))?;
    text.push_str(value)?;
    Ok(())
}

impl Column {
    /// The column of these cells.
    pub(crate) fn make(cells: List<Text>) -> Column
        ensures { result ≡ cells }
    {
        let width = longest_of(cells.as_slice());
        Column { cells, width }
    }

    /// The cell of that row, or the empty text.
    fn cell(&self, row: usize) -> &str
        ensures { result.now ≡ slice_index_or self.now row [] }
    {
        match self.cells.as_slice().get(row) {
            None => "",
            Some(cell) => cell.as_str(),
        }
    }

    /// Appends the cell of that row.
    fn push_cell(&self, text: &mut String, row: usize) -> Result<(), OutOfMemory>
        ensures { OnOk result (string_bytes text.new ≡ string_bytes text.old ++ cell_text row self.now) }
    {
        text.push_str(" ")?;
        push_value(text, self.cell(row), self.width)
    }
}

/// Appends a row: its name as wide as `width`, and its cells.
fn push_row(
    text: &mut String,
    width: usize,
    columns: &[Column],
    row: usize,
    name: &str,
) -> Result<(), OutOfMemory>
    ensures { OnOk result (string_bytes text.new ≡ string_bytes text.old
        ++ row_text width columns.now (row, name.now)) }
{
    text.push_str("  ")?;
    push_name(text, name, width)?;
    for column in columns {
        column.push_cell(text, row)?;
    }
    text.push_str("\n")?;
    Ok(())
}

/// Appends a table with these names of rows and these columns.
pub(crate) fn push_table(
    text: &mut String,
    names: &[Text],
    columns: &[Column],
) -> Result<(), OutOfMemory>
    ensures { OnOk result (string_bytes text.new ≡ string_bytes text.old
        ++ table_text names.now columns.now) }
{
    let width = longest_of(names);
    for (row, name) in names.iter().enumerate() {
        push_row(text, width, columns, row, name.as_str())?;
    }
    Ok(())
}
