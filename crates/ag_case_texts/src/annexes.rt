//! Annexes: the clauses of a text, for cases that are about what clauses mean.
use ag_annex::{Clause, Site, read_clauses};
use ag_base::{List, Refused};
use ag_lex::{TokenKind, annex_tokens, file_tokens, files_are_text};
use std::alloc::Global;
use std::test::Fail;

// The clauses of the annex that the bytes of a file begin with.
fn read(alloc: Global, file: u32, site: Site, bytes: &[u8]) -> Result<List<Clause>, Refused> {
    if bytes.len() > 4_194_304 {
        return Err(Refused::OutOfMemory);
    }
    let tokens = file_tokens(alloc, file, bytes)?;
    match tokens.as_slice() {
        [annex, ..] if matches!(annex.kind, TokenKind::Annex) => {
            let inside = annex_tokens(alloc, bytes, annex)?;
            files_are_text();
            read_clauses(alloc, bytes, inside.as_slice(), site)
        }
        _ => Err(Refused::OutOfMemory),
    }
}

/// The clauses of an annex that breaks no rule. The first byte of the text stands in column 4.
pub fn clauses_of(alloc: Global, file: u32, site: Site, text: &str) -> Result<List<Clause>, Fail> {
    let text = format!(in alloc; "{{**{text}**}}")?;
    match read(alloc, file, site, text.as_bytes()) {
        Ok(clauses) => Ok(clauses),
        Err(_) => Err("the clauses are read".into()),
    }
}
