//! Clauses: what those of an annex state.
use ag_annex::{Binary, Clause, Site, Term, Ty, Unary};
use ag_case_texts::annexes::clauses_of;
use std::test::Fail;

// A second comparison compares the choice that it ends, and so on outwards.
#[test]
fn compares_choices(rt: HostRuntime) -> Result<(), Fail> {
    let text = "eq x : bool = if p then q else a < if r then s else d < e < f;";
    let clauses = clauses_of(rt.alloc(), 0, Site::Body, text)?;
    let [
        Clause::Eq {
            value: Some(Term::Binary { place, left, .. }),
            ..
        },
    ] = clauses.as_slice()
    else {
        return Err("a comparison is stated".into());
    };
    assert_eq!(&rt; place.column, 62);
    assert!(&rt; matches!(left.get(), Term::Choice { place, .. } if place.column == 18));
    Ok(())
}

#[test]
fn states_clauses(rt: HostRuntime) -> Result<(), Fail> {
    let text =
        "guarantee g \"is on\" : prev(a, 7) -> not b; node f(x : int) returns (y : bool); let y = x != 1; tel;";
    let clauses = clauses_of(rt.alloc(), 0, Site::Frame, text)?;
    match clauses.as_slice() {
        [Clause::Guarantee(guarantee), Clause::Node(node)] => {
            assert_eq!(&rt; guarantee.label.as_str(), "is on");
            assert_eq!(&rt; guarantee.place.column, 4);
            match &guarantee.claim {
                Term::Binary {
                    op: Binary::Arrow,
                    place,
                    left,
                    right,
                } => {
                    assert_eq!(&rt; place.column, 37);
                    assert!(&rt;
                        matches!(
                            left.get(),
                            Term::Binary {
                                op: Binary::Arrow,
                                ..
                            }
                        )
                    );
                    assert!(&rt; matches!(right.get(), Term::Unary { op: Unary::Not, .. }));
                }
                _ => return Err("an arrow is claimed".into()),
            }
            assert_eq!(&rt; node.name.text.as_str(), "f");
            assert_eq!(&rt; node.inputs.len(), 1);
            assert!(&rt; matches!(node.outputs.as_slice(), [y] if y.ty == Ty::Bool));
            assert!(&rt;
                matches!(node.equations.as_slice(), [y] if matches!(&y.value, Term::Binary { op: Binary::Differs, .. }))
            );
            Ok(())
        }
        _ => Err("there are a guarantee and a node".into()),
    }
}
