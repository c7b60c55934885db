//! The table of a run or a window.
ghost use Rattle.std.specs.Prelude.{◌≡◌, ◌++◌, true, false, OnOk, IfOk};
ghost use Rattle.std.specs.String.{string_bytes};
ghost use Rattle.std.specs.Option.{option_copied};
ghost use Rattle.ag_stream.specs.Values.{flag_at};
ghost use Rattle.ag_report.specs.Texts.{names_of, column_of, columns_of, run_table, truth_text};

use crate::table::{Column, push_table};
use ag_base::{List, OutOfMemory, Text};
use ag_small::Port;
use ag_stream::Instant;
use std::alloc::Global;

/// The names of a table's rows: the row of the instants, and the ports.
fn row_names(alloc: Global, ports: &[Port]) -> Result<List<Text>, OutOfMemory>
    ensures { IfOk result (λ names. names ≡ names_of ports.now) }
{
    let mut names = List::new(alloc);
    names.push(Text::make(alloc, "instant")?)?;
    for port in ports {
        names.push(port.name.share()?)?;
    }
    Ok(names)
}

/// The word for a truth.
fn truth_word(alloc: Global, holds: bool) -> Result<Text, OutOfMemory>
    ensures { IfOk result (λ word. word ≡ truth_text holds) }
{
    if holds {
        Text::make(alloc, "true")
    } else {
        Text::make(alloc, "false")
    }
}

/// The words for the truths.
#[derive(Drop)]
struct TruthWords {
    yes: Text,
    no: Text,
    ghost yes_is: { yes ≡ truth_text true },
    ghost no_is: { no ≡ truth_text false },
}

impl TruthWords {
    fn make(alloc: Global) -> Result<TruthWords, OutOfMemory> {
        let yes = truth_word(alloc, true)?;
        let no = truth_word(alloc, false)?;
        Ok(TruthWords { yes, no })
    }

    /// The word for a truth, with no copy of its bytes.
    fn word(&self, holds: bool) -> Result<Text, OutOfMemory>
        ensures { IfOk result (λ word. word ≡ truth_text holds) }
    {
        if holds {
            self.yes.share()
        } else {
            self.no.share()
        }
    }
}

/// Whether a stream is true at an instant.
fn is_true_at(instant: &Instant, stream: usize) -> bool
    ensures { result ≡ flag_at instant.now stream }
{
    match instant.flags.as_slice().get(stream) {
        None => false,
        Some(flag) => *flag,
    }
}

/// The column of an instant with that number.
#[tactic(auto, using(crate::proofs::Steps::counted_more))]
fn column(
    alloc: Global,
    words: &TruthWords,
    ports: usize,
    number: usize,
    instant: &Instant,
) -> Result<Column, OutOfMemory>
    ensures { IfOk result (λ column. column ≡ column_of ports (number, instant.now)) }
{
    let number = number.to_string(alloc)?;
    let mut cells = List::new(alloc);
    cells.push(Text::make(alloc, number.as_str())?)?;
    for stream in 0..ports {
        cells.push(words.word(is_true_at(instant, stream))?)?;
    }
    Ok(Column::make(cells))
}

/// The columns of a run, or of a window behind a prior instant.
fn columns(
    alloc: Global,
    ports: usize,
    prior: Option<&Instant>,
    instants: &[Instant],
) -> Result<List<Column>, OutOfMemory>
    ensures { IfOk result (λ columns. columns ≡ columns_of ports (option_copied prior.entry) instants.now) }
{
    let words = TruthWords::make(alloc)?;
    let mut columns = List::new(alloc);
    if let Some(instant) = prior {
        columns.push(column(alloc, &words, ports, 0, instant)?)?;
    }
    for (index, instant) in instants.iter().enumerate() {
        columns.push(column(alloc, &words, ports, index + 1, instant)?)?;
    }
    Ok(columns)
}

/// Appends the table of a run, or of a window behind a prior instant.
pub(crate) fn push_run(
    alloc: Global,
    text: &mut String,
    ports: &[Port],
    prior: Option<&Instant>,
    instants: &[Instant],
) -> Result<(), OutOfMemory>
    ensures { OnOk result (string_bytes text.new ≡ string_bytes text.old
        ++ run_table ports.now (option_copied prior.entry) instants.now) }
{
    let names = row_names(alloc, ports)?;
    let columns = columns(alloc, ports.len(), prior, instants)?;
    push_table(text, names.as_slice(), columns.as_slice())
}
