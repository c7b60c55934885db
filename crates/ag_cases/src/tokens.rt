//! Tokens: where they stand in a file and in an annex, and which rule on them is broken first.
ghost use Rattle.std.specs.Prelude.{◌<◌, ◌^◌, length};

use ag_base::{List, Place, Refusal, Refused, Rule};
use ag_lex::TokenKind::{Annex, Name, Number, Real, Symbol, Text};
use ag_lex::{Token, TokenKind, annex_tokens, file_tokens};
use std::alloc::Global;
use std::process::Abort;
use std::test::Fail;

// A token's kind, start, end, line and column.
type Row = (TokenKind, u32, u32, u32, u32);

fn is_read(rt: &impl Abort, answer: &Result<List<Token>, Refused>, rows: &[Row]) {
    let Ok(tokens) = answer else {
        assert!(rt; false, "the text has tokens");
        return;
    };
    assert_eq!(rt; tokens.len(), rows.len());
    for (token, (kind, start, end, line, column)) in tokens.as_slice().iter().zip(rows) {
        let place = Place {
            file: 7,
            line: *line,
            column: *column,
        };
        let expected = Token {
            kind: *kind,
            start: *start,
            end: *end,
            place,
        };
        assert_eq!(rt; *token, expected);
    }
}

fn is_refused(
    rt: &impl Abort,
    answer: &Result<List<Token>, Refused>,
    rule: Rule,
    line: u32,
    column: u32,
) {
    let place = Place {
        file: 7,
        line,
        column,
    };
    let Err(refused) = answer else {
        assert!(rt; false, "the text is refused");
        return;
    };
    assert_eq!(rt; *refused, Refused::Model(Refusal { place, rule }));
}

#[test]
fn reads_files(rt: HostRuntime) {
    let rows: [(&[u8], &[Row]); 12] = [
        (b"", &[]),
        (b"a--b", &[(Name, 0, 1, 1, 1)]),
        (b"\tx\r\n  y", &[(Name, 1, 2, 1, 2), (Name, 6, 7, 2, 3)]),
        (
            b"--\xc3\xa9\"{**\n_a9",
            &[(Symbol, 9, 10, 2, 1), (Name, 10, 12, 2, 2)],
        ),
        (
            b"1.e2",
            &[
                (Number, 0, 1, 1, 1),
                (Symbol, 1, 2, 1, 2),
                (Name, 2, 4, 1, 3),
            ],
        ),
        (
            b"1..2",
            &[
                (Number, 0, 1, 1, 1),
                (Symbol, 1, 3, 1, 2),
                (Number, 3, 4, 1, 4),
            ],
        ),
        (b"1e5", &[(Number, 0, 3, 1, 1)]),
        (b"16#F#.5a#", &[(Real, 0, 8, 1, 1), (Symbol, 8, 9, 1, 9)]),
        (
            b"->-<->",
            &[
                (Symbol, 0, 2, 1, 1),
                (Symbol, 2, 3, 1, 3),
                (Symbol, 3, 6, 1, 4),
            ],
        ),
        (
            b"<=>=<=",
            &[
                (Symbol, 0, 3, 1, 1),
                (Symbol, 3, 4, 1, 4),
                (Symbol, 4, 6, 1, 5),
            ],
        ),
        (b":::", &[(Symbol, 0, 2, 1, 1), (Symbol, 2, 3, 1, 3)]),
        (
            b"\"a--\xc3\xa9\"{**}\n\x01***}x",
            &[
                (Text, 0, 7, 1, 1),
                (Annex, 7, 17, 1, 8),
                (Name, 17, 18, 2, 6),
            ],
        ),
    ];
    for (bytes, tokens) in &rows {
        assert!(rt; bytes.len() < 1000);
        is_read(&rt, &file_tokens(rt.alloc(), 7, bytes), tokens);
    }
}

#[test]
fn refuses_files(rt: HostRuntime) {
    let long = [b'n'; 256];
    let rows: [(&[u8], Rule, u32, u32); 12] = [
        (b"a\n\xff", Rule::NotUtf8, 2, 1),
        (b"a \xe2\x82", Rule::NotUtf8, 1, 3),
        (b"\xff\"", Rule::NotUtf8, 1, 1),
        (b"a\xc3\xa9", Rule::BadByte, 1, 2),
        (b"--\r\n\x7f", Rule::BadByte, 2, 1),
        (b"\x01\xff", Rule::BadByte, 1, 1),
        (b"x \"a\nb\"", Rule::OpenString, 1, 3),
        (b"\"\xff", Rule::OpenString, 1, 1),
        (b"\t\"", Rule::OpenString, 1, 2),
        (b"\n {**}", Rule::OpenAnnex, 2, 2),
        (b"{** **} {**\x02", Rule::OpenAnnex, 1, 9),
        (&long, Rule::LongName, 1, 1),
    ];
    for (bytes, rule, line, column) in &rows {
        assert!(rt; bytes.len() < 1000);
        is_refused(
            &rt,
            &file_tokens(rt.alloc(), 7, bytes),
            *rule,
            *line,
            *column,
        );
    }
    is_read(
        &rt,
        &file_tokens(rt.alloc(), 7, &long[1..]),
        &[(Name, 0, 255, 1, 1)],
    );
}

// What the first token of a file has between its marks.
fn first_annex(rt: &HostRuntime, bytes: &[u8]) -> Result<List<Token>, Refused>
    requires { length bytes.now < 2 ^ 31 }
{
    let tokens = file_tokens(rt.alloc(), 7, bytes)?;
    match tokens.as_slice() {
        [annex, ..] if matches!(annex.kind, Annex) => annex_tokens(rt.alloc(), bytes, annex),
        _ => Err(Refused::OutOfMemory),
    }
}

#[test]
fn reads_annexes(rt: HostRuntime) {
    let rows: [(&[u8], &[Row]); 4] = [
        (b"{****}", &[]),
        (
            b"{**1e5\n1.5e3**} ?",
            &[
                (Number, 3, 4, 1, 4),
                (Name, 4, 6, 1, 5),
                (Real, 7, 12, 2, 1),
            ],
        ),
        (b"{**140737488355328--**}", &[(Number, 3, 18, 1, 4)]),
        (
            b"{**00140737488355329.0***}",
            &[(Real, 3, 22, 1, 4), (Symbol, 22, 23, 1, 23)],
        ),
    ];
    for (bytes, tokens) in &rows {
        assert!(rt; bytes.len() < 1000);
        is_read(&rt, &first_annex(&rt, bytes), tokens);
    }
}

#[test]
fn refuses_annexes(rt: HostRuntime) {
    let rows: [(&[u8], Rule, u32, u32); 5] = [
        (b"{** {** **}", Rule::OpenAnnex, 1, 5),
        (b"{**\n\"a**}", Rule::OpenString, 2, 1),
        (b"{**a\xc3\xa9**}", Rule::BadByte, 1, 5),
        (b"{**x = 140737488355329;**}", Rule::WideNumber, 1, 8),
        (
            b"{**999999999999999999999999999999**}",
            Rule::WideNumber,
            1,
            4,
        ),
    ];
    for (bytes, rule, line, column) in &rows {
        assert!(rt; bytes.len() < 1000);
        is_refused(&rt, &first_annex(&rt, bytes), *rule, *line, *column);
    }
}
