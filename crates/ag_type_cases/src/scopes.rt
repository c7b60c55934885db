//! Scopes: what is answered for the clauses of a package, a type and an implementation.
use ag_aadl::packages::Ident;
use ag_annex::{Clause, Site, Ty, Var};
use ag_base::{List, OutOfMemory, Place, Refusal, Refused, Rule, Text};
use ag_case_texts::annexes::clauses_of;
use ag_types::Scope;
use std::alloc::Global;
use std::test::Fail;

fn port(alloc: Global, name: &str, ty: Ty) -> Result<Var, OutOfMemory> {
    let place = Place {
        file: 1,
        line: 1,
        column: 1,
    };
    let text = Text::make(alloc, name)?;
    Ok(Var {
        name: Ident { text, place },
        ty,
    })
}

/// The streams that the expressions see besides those of clauses.
pub fn ports(alloc: Global) -> Result<List<Var>, OutOfMemory> {
    let mut ports = List::new(alloc);
    ports.push(port(alloc, "i", Ty::Int)?)?;
    ports.push(port(alloc, "c.x", Ty::Int)?)?;
    ports.push(port(alloc, "c.q", Ty::Bool)?)?;
    Ok(ports)
}

/// What is answered for the clauses of a package, a type and an implementation, in the files 0, 1 and 2.
pub fn fault_of(
    alloc: Global,
    library: &[Clause],
    frame: &[Clause],
    body: &[Clause],
) -> Result<Option<Refusal>, Fail> {
    let ports = ports(alloc).ok().ok_or("ports")?;
    match Scope::make(alloc, library, frame, body, ports.as_slice()) {
        Ok(_) => Ok(None),
        Err(Refused::Model(refusal)) => Ok(Some(refusal)),
        Err(Refused::OutOfMemory) => Err("memory".into()),
    }
}

/// So many streams `x0`, `x1` and so on, and their sum, in brackets of a hundred.
pub fn streams_and_sum(alloc: Global, terms: usize) -> Result<(String, String), Fail> {
    let mut streams = String::new(alloc);
    let mut sum = String::new(alloc);
    for term in 0..terms {
        let stream = format!(in alloc; "eq x{term} : int;")?;
        streams.push_str(stream.as_str())?;
        let joined = if term == 0 {
            "("
        } else if term % 100 == 0 {
            ") + ("
        } else {
            " + "
        };
        let next = format!(in alloc; "{joined}x{term}")?;
        sum.push_str(next.as_str())?;
    }
    sum.push_str(")")?;
    Ok((streams, sum))
}

#[test]
fn counts_terms(rt: HostRuntime) -> Result<(), Fail> {
    for terms in [1024, 1025] {
        let (streams, sum) = streams_and_sum(rt.alloc(), terms)?;
        let text = format!(in rt.alloc(); "{streams}eq t : int = {sum};")?;
        let clauses = clauses_of(rt.alloc(), 1, Site::Frame, text.as_str())?;
        match fault_of(rt.alloc(), &[], clauses.as_slice(), &[])? {
            None => assert_eq!(rt; terms, 1024),
            Some(refusal) => {
                assert_eq!(rt; terms, 1025);
                assert_eq!(rt; refusal.rule, Rule::Coefficient);
                // The first stream of the sum, behind `eq t : int = (`.
                let before = streams.as_str().len().wrapping_add(17);
                assert_eq!(rt; refusal.place.column as usize, before.wrapping_add(1));
            }
        }
    }
    Ok(())
}
