//! What claims, streams, constants and equations break of the rules on names and types.
ghost use Rattle.std.specs.Prelude.{◌≡◌, ◌++◌, ◌∷◌};
ghost use Rattle.std.specs.Option.{option_copied};
ghost use Rattle.ag_base.specs.declared.place.Rule.TheVariants.{Arity};
ghost use Rattle.ag_types.specs.ClauseFaults.{claim_faults, value_mismatch, unknown_target, equal_faults, eq_faults, several_faults, several_outputs, output_mismatches, constant_faults};
ghost use Rattle.ag_types.specs.Constants.{is_varying};
ghost use Rattle.ag_types.specs.ClauseFirsts.{first_of_several, first_output, is_arrow};
ghost use Rattle.ag_types.specs.Places.{first_place, first_broken, path_place};
ghost use Rattle.ag_types.specs.Types.{faults_in, type_of_var};

use crate::places::{either, path_place};
use crate::types::{arguments, arity, behind_first, inputs_of, mismatch, typing, unknown};
use ag_base::{Place, Refusal, Rule};
use ag_symbols::{Sight, Vars};
use ag_terms::{Binary, Equal, Labelled, NodeDef, Term, Ty, Unary, Var};

/// An assumption, a guarantee or a lemma is a truth.
pub fn claim(sight: &Sight<'_>, labelled: &Labelled) -> Option<Refusal>
    ensures { result ≡ first_broken (claim_faults sight.now labelled.now) }
{
    let typing = typing(sight, &labelled.claim);
    let of_claim = mismatch(Some(Ty::Bool), typing.ty, typing.first);
    either(typing.broken, of_claim)
}

/// The equation's name is one of these, and its value has that type.
pub fn equal(sight: &Sight<'_>, targets: &Vars<'_>, equation: &Equal) -> Option<Refusal>
    ensures { result ≡ first_broken (equal_faults sight.now targets.now equation.now) }
{
    let target = targets.of_name(equation.name.text.as_bytes());
    let of_name = unknown_target(target, equation.name.place);
    either(of_name, value(sight, target, &equation.value))
}

fn unknown_target(target: Option<&Var>, place: Place) -> Option<Refusal>
    ensures { result ≡ first_broken (unknown_target (option_copied target.entry) place) }
{
    match target {
        None => unknown(place),
        Some(_) => None,
    }
}

// The value has the type of what it is set for, if that is there.
fn value(sight: &Sight<'_>, target: Option<&Var>, term: &Term) -> Option<Refusal>
    ensures { result ≡ first_broken (value_mismatch sight.now (option_copied target.entry) term.now ++ faults_in sight.now term.now) }
{
    let typing = typing(sight, term);
    let of_value = mismatch(type_of_target(target), typing.ty, typing.first);
    either(of_value, typing.broken)
}

fn type_of_target(target: Option<&Var>) -> Option<Ty>
    ensures { result ≡ type_of_var (option_copied target.entry) }
{
    match target {
        None => None,
        Some(target) => Some(target.ty),
    }
}

/// The streams that `eq` declares have the types of their value, if there is one.
pub fn streams(sight: &Sight<'_>, vars: &[Var], term: &Option<Term>) -> Option<Refusal>
    ensures { result ≡ first_broken (eq_faults sight.now vars.now term.now) }
{
    match term {
        None => None,
        Some(term) => match vars {
            [var] => value(sight, Some(var), term),
            _ => several(sight, vars, term),
        },
    }
}

// Several names want a call of a node.
fn several(sight: &Sight<'_>, vars: &[Var], term: &Term) -> Option<Refusal>
    ensures { result ≡ first_broken (several_faults sight.now vars.now term.now) }
{
    match term {
        Term::Number { .. }
        | Term::Truth { .. }
        | Term::Named { .. }
        | Term::Unary { .. }
        | Term::Binary { .. }
        | Term::Choice { .. } => not_called(sight, term),
        Term::Call { path, args } => {
            let node = sight.node_of(path);
            let arguments = arguments(sight, inputs_of(node), args.as_slice());
            let given = args.as_slice().len();
            let of_call = first_of_several(
                vars,
                path_place(path),
                node,
                given,
                arguments.mismatched,
            );
            either(of_call, arguments.broken)
        }
    }
}

fn not_called(sight: &Sight<'_>, term: &Term) -> Option<Refusal>
    ensures { result ≡ first_broken (record { place = first_place term.now; rule = Arity } ∷ faults_in sight.now term.now) }
{
    let typing = typing(sight, term);
    let of_term = Refusal {
        place: typing.first,
        rule: Rule::Arity,
    };
    either(Some(of_term), typing.broken)
}

fn first_of_several(
    vars: &[Var],
    place: Place,
    node: Option<&NodeDef>,
    given: usize,
    mismatched: Option<Refusal>,
) -> Option<Refusal>
    ensures { result ≡ first_of_several vars.now place (option_copied node.entry) given mismatched }
{
    match node {
        None => unknown(place),
        Some(node) => {
            let inputs = arity(node.inputs.len(), given, place);
            let outputs = several_outputs(vars, node, place);
            either(inputs, either(mismatched, outputs))
        }
    }
}

// As many outputs as names, of their types.
fn several_outputs(vars: &[Var], node: &NodeDef, place: Place) -> Option<Refusal>
    ensures { result ≡ first_broken (several_outputs vars.now node.now place) }
{
    if vars.len() == node.outputs.len() {
        output_mismatches(vars, node.outputs.as_slice(), place)
    } else {
        Some(Refusal {
            place,
            rule: Rule::Arity,
        })
    }
}

fn output_mismatches(vars: &[Var], outputs: &[Var], place: Place) -> Option<Refusal>
    ensures { result ≡ first_broken (output_mismatches vars.now outputs.now place) }
{
    let mut broken = None;
    let mut left = outputs;
    for var in vars {
        broken = either(broken, first_output(var, left, place));
        left = behind_first(left);
    }
    broken
}

fn first_output(var: &Var, outputs: &[Var], place: Place) -> Option<Refusal>
    ensures { result ≡ first_output var.now outputs.now place }
{
    match outputs {
        [] => None,
        [output, ..] => mismatch(Some(var.ty), Some(output.ty), place),
    }
}

/// A constant names no stream, and its value has its type.
pub fn constant(sight: &Sight<'_>, name: &Var, term: &Term) -> Option<Refusal>
    ensures { result ≡ first_broken (constant_faults sight.now name.now term.now) }
{
    let of_value = value(sight, Some(name), term);
    if is_varying(sight, term) {
        let of_term = Refusal {
            place: typing(sight, term).first,
            rule: Rule::Mismatch,
        };
        either(Some(of_term), of_value)
    } else {
        of_value
    }
}

/// An expression names a stream, or holds a call, a `pre` or an arrow.
pub fn is_varying(sight: &Sight<'_>, term: &Term) -> bool
    ensures { result ≡ is_varying sight.now term.now }
{
    match term {
        Term::Number { .. } | Term::Truth { .. } => false,
        Term::Named { path } => sight.stream(path).is_some(),
        Term::Unary { op, arg, .. } => match op {
            Unary::Pre => true,
            Unary::Minus => is_varying(sight, arg.get()),
            Unary::Not => is_varying(sight, arg.get()),
        },
        Term::Binary {
            op,
            left,
            right,
            ..
        } => { is_arrow(*op) || (is_varying(sight, left.get()) || is_varying(sight, right.get())) }
        Term::Choice { test, yes, no, .. } => {
            is_varying(sight, test.get())
                || (is_varying(sight, yes.get()) || is_varying(sight, no.get()))
        }
        Term::Call { .. } => true,
    }
}

fn is_arrow(op: Binary) -> bool
    ensures { result ≡ is_arrow op }
{
    match op {
        Binary::Arrow => true,
        Binary::Implies | Binary::Iff | Binary::Or | Binary::And => false,
        Binary::Less | Binary::AtMost | Binary::More | Binary::AtLeast => false,
        Binary::Same | Binary::Differs => false,
        Binary::Plus | Binary::Minus | Binary::Times | Binary::Div | Binary::Mod => false,
    }
}
