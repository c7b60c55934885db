//! Tables of cases: texts with a case on each line. The fields of a case stand between `|`, and a `^` marks a place in a text.
//!
//! It is there for the crates that have nothing but tests. Start at `field` and `marked`; `annexes` gives the clauses of a text.
#![tactic(auto)]

pub mod annexes;

use ag_base::Place;
use std::alloc::Global;
use std::test::Fail;

/// Whether a line of a table is a case: an empty one isn't, nor one that begins with `--` and tells what the next are for.
pub fn is_case(line: &str) -> bool {
    !line.is_empty() && !line.starts_with("--")
}

/// The first field of a case, and what stands behind it.
pub fn field(case: &str) -> Result<(&str, &str), Fail> {
    let (field, rest) = case.split_once("|").ok_or("a field is wanting")?;
    Ok((field.trim(), rest.trim()))
}

/// A text without its `^`, and the place of that.
pub fn marked(alloc: Global, file: u32, text: &str) -> Result<(String, Option<Place>), Fail> {
    match text.split_once("^") {
        None => Ok((format!(in alloc; "{text}")?, None)),
        Some((before, rest)) => {
            let place = end_of(file, before);
            Ok((format!(in alloc; "{before}{rest}")?, Some(place)))
        }
    }
}

/// The place behind a text.
fn end_of(file: u32, text: &str) -> Place {
    let (mut line, mut column) = (1u32, 1u32);
    for byte in text.as_bytes() {
        if *byte == b'\n' {
            line = line.wrapping_add(1);
            column = 1;
        } else {
            column = column.wrapping_add(1);
        }
    }
    Place { file, line, column }
}
