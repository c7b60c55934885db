ghost use Rattle.ag_grammar.specs.Example.{nested_lists};

use ag_base::OutOfMemory;
use ag_grammar::Step::{Expand, Shift};
use ag_grammar::Symbol::{Nonterminal, Terminal};
use ag_grammar::{Grammar, Production, Step, Symbol, read};

const OPEN: u8 = 0;

const CLOSE: u8 = 1;

const NAME: u8 = 2;

const LIST: &[Production<'static>] = &[Production {
    name: 0,
    ahead: &[OPEN],
    right: &[Terminal(OPEN, 0), Nonterminal(1), Terminal(CLOSE, 0)],
}];

const ELEMENTS: &[Production<'static>] = &[
    Production {
        name: 1,
        ahead: &[OPEN, NAME],
        right: &[Nonterminal(2), Nonterminal(1)],
    },
    Production {
        name: 2,
        ahead: &[CLOSE],
        right: &[],
    },
];

const ELEMENT: &[Production<'static>] = &[
    Production {
        name: 3,
        ahead: &[NAME],
        right: &[Terminal(NAME, 1)],
    },
    Production {
        name: 4,
        ahead: &[OPEN],
        right: &[Nonterminal(0)],
    },
];

struct NestedLists;

impl Grammar for NestedLists {
    ghost plain = { λ _. nested_lists };

    fn start(&self) -> u8 {
        0
    }

    fn productions(&self, nonterminal: u8) -> &'static [Production<'static>] {
        match nonterminal {
            0 => LIST,
            1 => ELEMENTS,
            2 => ELEMENT,
            _ => &[],
        }
    }
}

// Lists of terminals, with the first bad place and the steps up to it.
#[test]
fn reads_lists(rt: HostRuntime) -> Result<(), OutOfMemory> {
    let rows: [(&[u8], Option<usize>, &[Step]); 6] = [
        (
            &[OPEN, NAME, OPEN, CLOSE, CLOSE],
            None,
            &[
                Expand(0),
                Shift(0),
                Expand(1),
                Expand(3),
                Shift(1),
                Expand(1),
                Expand(4),
                Expand(0),
                Shift(0),
                Expand(2),
                Shift(0),
                Expand(2),
                Shift(0),
            ],
        ),
        (&[], Some(0), &[]),
        (&[CLOSE], Some(0), &[]),
        (&[OPEN], Some(1), &[Expand(0), Shift(0)]),
        (&[OPEN, 9, CLOSE], Some(1), &[Expand(0), Shift(0)]),
        (
            &[OPEN, CLOSE, NAME],
            Some(2),
            &[Expand(0), Shift(0), Expand(2), Shift(0)],
        ),
    ];
    for (terminals, bad, steps) in &rows {
        let reading = read(rt.alloc(), &NestedLists, terminals)?;
        assert_eq!(rt; reading.bad, *bad);
        assert_eq!(rt; reading.steps.as_slice(), *steps);
    }
    Ok(())
}
