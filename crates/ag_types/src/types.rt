//! The types of expressions, and the first rule on types that they break.
ghost use Rattle.std.specs.Prelude.{◌≡◌, ◌++◌, ◌⊎◌, Result, Some, Err, IfOk, drop};
ghost use Rattle.std.specs.Option.{option_copied};
ghost use Rattle.ag_terms.specs.declared.clauses.Ty.{Ty};
ghost use Rattle.ag_terms.specs.declared.terms.Term.{Term};
ghost use Rattle.ag_terms.specs.declared.clauses.Ty.TheVariants.{Bool as Boolean};
ghost use Rattle.ag_base.specs.declared.place.Refusal.{Refusal};
ghost use Rattle.ag_symbols.specs.Seen.{Names, value_of};
ghost use Rattle.ag_types.specs.Firsts.{either, type_of_unary, needed_alone, first_mismatch, mismatches_in, faults_among, inputs_of, first_of_call};
ghost use Rattle.ag_types.specs.Places.{first_place, first_broken, path_place, earlier};
ghost use Rattle.ag_types.specs.Types.{type_in, type_of_var, type_of_call, type_of_outputs, type_of_binary, same_type, needed_first, needed_second, mismatch, arity, unknown, faults_in, value_faults, IsTyped, IsIllTyped};

use crate::places::{earlier, either, path_place};
use ag_base::{Place, Refusal, Rule};
use ag_symbols::Sight;
use ag_terms::{Binary, NodeDef, Path, Term, Ty, Unary, Var};

/// What is known of a term: its type, if it has one, the first rule on types that it breaks, and the place
/// of its first token.
#[derive(Clone, Copy)]
pub struct Typed {
    pub ty: Option<Ty>,
    pub broken: Option<Refusal>,
    pub first: Place,
}

/// The first rules that the arguments of a call break: beside the inputs, and within themselves.
#[derive(Clone, Copy)]
pub struct ArgumentFaults {
    pub mismatched: Option<Refusal>,
    pub broken: Option<Refusal>,
}

/// The type of an expression, or the first rule on types that it breaks. It takes no memory.
pub fn type_of_term(sight: &Sight<'_>, term: &Term) -> Result<Ty, Refusal>
    // It breaks no rule on types, and this is its type.
    ensures ok { IfOk result (λ ty. IsTyped sight.now term.now ty) }
    // The refusal is the first broken rule, at its place.
    ensures refused { (r : Refusal) → result ≡ Err r → IsIllTyped sight.now term.now r }
{
    let typing = typing(sight, term);
    match (typing.broken, typing.ty) {
        (Some(refusal), _) => Err(refusal),
        (None, Some(ty)) => Ok(ty),
        (None, None) => unreachable!(),
    }
}

/// What is known of a term, by its operands.
#[cycle(typing)]
pub fn typing(sight: &Sight<'_>, term: &Term) -> Typed
    ensures ty { result.ty ≡ type_in sight.now term.now }
    ensures broken { result.broken ≡ first_broken (faults_in sight.now term.now) }
    ensures first { result.first ≡ first_place term.now }
{
    match term {
        Term::Number { place, .. } => sound(Ty::Int, *place),
        Term::Truth { place, .. } => sound(Ty::Bool, *place),
        Term::Named { path } => named(sight, path),
        Term::Unary { op, place, arg } => unary(*op, *place, typing(sight, arg.get())),
        Term::Binary {
            op,
            place,
            left,
            right,
        } => {
            let left = typing(sight, left.get());
            let right = typing(sight, right.get());
            binary(*op, *place, left, right)
        }
        Term::Choice {
            place,
            test,
            yes,
            no,
        } => {
            let test = typing(sight, test.get());
            let yes = typing(sight, yes.get());
            let no = typing(sight, no.get());
            choice(*place, test, yes, no)
        }
        Term::Call { path, args } => {
            let node = sight.node_of(path);
            let arguments = arguments(sight, inputs_of(node), args.as_slice());
            call(path, node, args.as_slice().len(), arguments)
        }
    }
}

/// The arguments of a call, beside the inputs of its node.
#[cycle(typing)]
pub fn arguments(sight: &Sight<'_>, inputs: &[Var], args: &[Term]) -> ArgumentFaults
    ensures mismatched { result.mismatched ≡ first_broken (mismatches_in sight.now inputs.now args.now) }
    ensures broken { result.broken ≡ first_broken (faults_among sight.now args.now) }
{
    let mut mismatched = None;
    let mut broken = None;
    let mut left = inputs;
    for arg in args {
        let typing = typing(sight, arg);
        mismatched = either(mismatched, first_mismatch(left, typing.ty, typing.first));
        broken = either(broken, typing.broken);
        left = behind_first(left);
    }
    ArgumentFaults { mismatched, broken }
}

// A term that breaks no rule.
fn sound(ty: Ty, first: Place) -> Typed
    ensures { result ≡ record { ty = Some ty; broken = None; first = first } }
{
    Typed {
        ty: Some(ty),
        broken: None,
        first,
    }
}

fn named(sight: &Sight<'_>, path: &Path) -> Typed
    ensures ty { result.ty ≡ type_of_var (value_of sight.now path.now) }
    ensures broken { result.broken ≡ first_broken (value_faults (value_of sight.now path.now) path.now) }
    ensures first { result.first ≡ path_place path.now }
{
    let first = path_place(path);
    match sight.value_of(path) {
        Some(value) => sound(value.ty, first),
        None => Typed {
            ty: None,
            broken: unknown(first),
            first,
        },
    }
}

fn unary(op: Unary, place: Place, arg: Typed) -> Typed
    ensures ty { result.ty ≡ type_of_unary op arg.ty }
    ensures broken { result.broken ≡ either arg.broken (first_broken (mismatch (needed_alone op) arg.ty arg.first)) }
    ensures first { result.first ≡ place }
{
    Typed {
        ty: type_of_unary(op, arg.ty),
        broken: either(arg.broken, mismatch(needed_alone(op), arg.ty, arg.first)),
        first: place,
    }
}

pub fn type_of_unary(op: Unary, arg: Option<Ty>) -> Option<Ty>
    ensures { result ≡ type_of_unary op arg }
{
    match op {
        Unary::Minus => Some(Ty::Int),
        Unary::Not => Some(Ty::Bool),
        Unary::Pre => arg,
    }
}

fn needed_alone(op: Unary) -> Option<Ty>
    ensures { result ≡ needed_alone op }
{
    match op {
        Unary::Minus => Some(Ty::Int),
        Unary::Not => Some(Ty::Bool),
        Unary::Pre => None,
    }
}

fn binary(op: Binary, place: Place, left: Typed, right: Typed) -> Typed
    ensures ty { result.ty ≡ type_of_binary op left.ty }
    ensures broken { result.broken ≡ either left.broken (either right.broken (either (first_broken (mismatch (needed_first op) left.ty left.first)) (first_broken (mismatch (needed_second op left.ty) right.ty right.first)))) }
    ensures first { result.first ≡ earlier left.first place }
{
    let first = mismatch(needed_first(op), left.ty, left.first);
    let second = mismatch(needed_second(op, left.ty), right.ty, right.first);
    Typed {
        ty: type_of_binary(op, left.ty),
        broken: either(left.broken, either(right.broken, either(first, second))),
        first: earlier(left.first, place),
    }
}

pub fn type_of_binary(op: Binary, first: Option<Ty>) -> Option<Ty>
    ensures { result ≡ type_of_binary op first }
{
    match op {
        Binary::Arrow => first,
        Binary::Plus | Binary::Minus | Binary::Times | Binary::Div | Binary::Mod => Some(Ty::Int),
        Binary::Implies | Binary::Iff | Binary::Or | Binary::And => Some(Ty::Bool),
        Binary::Less | Binary::AtMost | Binary::More | Binary::AtLeast => Some(Ty::Bool),
        Binary::Same | Binary::Differs => Some(Ty::Bool),
    }
}

fn needed_first(op: Binary) -> Option<Ty>
    ensures { result ≡ needed_first op }
{
    match op {
        Binary::Arrow | Binary::Same | Binary::Differs => None,
        Binary::Implies | Binary::Iff | Binary::Or | Binary::And => Some(Ty::Bool),
        Binary::Less | Binary::AtMost | Binary::More | Binary::AtLeast => Some(Ty::Int),
        Binary::Plus | Binary::Minus | Binary::Times | Binary::Div | Binary::Mod => Some(Ty::Int),
    }
}

fn needed_second(op: Binary, first: Option<Ty>) -> Option<Ty>
    ensures { result ≡ needed_second op first }
{
    match op {
        Binary::Arrow | Binary::Same | Binary::Differs => first,
        Binary::Implies | Binary::Iff | Binary::Or | Binary::And => Some(Ty::Bool),
        Binary::Less | Binary::AtMost | Binary::More | Binary::AtLeast => Some(Ty::Int),
        Binary::Plus | Binary::Minus | Binary::Times | Binary::Div | Binary::Mod => Some(Ty::Int),
    }
}

fn choice(place: Place, test: Typed, yes: Typed, no: Typed) -> Typed
    ensures ty { result.ty ≡ yes.ty }
    ensures broken { result.broken ≡ either test.broken (either yes.broken (either no.broken (either (first_broken (mismatch (Some Boolean) test.ty test.first)) (first_broken (mismatch yes.ty no.ty no.first))))) }
    ensures first { result.first ≡ place }
{
    let of_test = mismatch(Some(Ty::Bool), test.ty, test.first);
    let of_branch = mismatch(yes.ty, no.ty, no.first);
    let within = either(no.broken, either(of_test, of_branch));
    Typed {
        ty: yes.ty,
        broken: either(test.broken, either(yes.broken, within)),
        first: place,
    }
}

fn call(path: &Path, node: Option<&NodeDef>, given: usize, arguments: ArgumentFaults) -> Typed
    ensures ty { result.ty ≡ type_of_call (option_copied node.entry) }
    ensures broken { result.broken ≡ either (first_of_call (path_place path.now) (option_copied node.entry) given arguments.mismatched) arguments.broken }
    ensures first { result.first ≡ path_place path.now }
{
    let first = path_place(path);
    let of_call = first_of_call(first, node, given, arguments.mismatched);
    Typed {
        ty: type_of_call(node),
        broken: either(of_call, arguments.broken),
        first,
    }
}

/// The inputs of a node, if it is there.
pub fn inputs_of(node: Option<&NodeDef>) -> &[Var]
    ensures { result.now ≡ inputs_of (option_copied node.entry) }
{
    match node {
        None => &[],
        Some(node) => node.inputs.as_slice(),
    }
}

pub fn type_of_call(node: Option<&NodeDef>) -> Option<Ty>
    ensures { result ≡ type_of_call (option_copied node.entry) }
{
    match node {
        None => None,
        Some(node) => match node.outputs.as_slice() {
            [output] => Some(output.ty),
            _ => None,
        },
    }
}

fn first_of_call(
    place: Place,
    node: Option<&NodeDef>,
    given: usize,
    mismatched: Option<Refusal>,
) -> Option<Refusal>
    ensures { result ≡ first_of_call place (option_copied node.entry) given mismatched }
{
    match node {
        None => unknown(place),
        Some(node) => {
            let inputs = arity(node.inputs.len(), given, place);
            let outputs = arity(1, node.outputs.len(), place);
            either(inputs, either(mismatched, outputs))
        }
    }
}

// The rule that an argument of this type breaks beside the first of the inputs that are left.
fn first_mismatch(inputs: &[Var], ty: Option<Ty>, place: Place) -> Option<Refusal>
    ensures { result ≡ first_mismatch inputs.now ty place }
{
    match inputs {
        [] => None,
        [input, ..] => mismatch(Some(input.ty), ty, place),
    }
}

/// All but the first.
pub fn behind_first(vars: &[Var]) -> &[Var]
    ensures { result.now ≡ drop 1 vars.now }
{
    match vars {
        [] => vars,
        [_, rest @ ..] => rest,
    }
}

/// The rule that an operand of another type than is needed breaks at a place.
pub fn mismatch(needed: Option<Ty>, found: Option<Ty>, place: Place) -> Option<Refusal>
    ensures { result ≡ first_broken (mismatch needed found place) }
{
    match (needed, found) {
        (Some(needed), Some(found)) => {
            if same_type(needed, found) {
                None
            } else {
                Some(Refusal {
                    place,
                    rule: Rule::Mismatch,
                })
            }
        }
        _ => None,
    }
}

fn same_type(a: Ty, b: Ty) -> bool
    ensures { result ≡ same_type a b }
{
    match (a, b) {
        (Ty::Int, Ty::Int) | (Ty::Bool, Ty::Bool) => true,
        (Ty::Int, Ty::Bool) | (Ty::Bool, Ty::Int) => false,
    }
}

/// The rule that another number than is needed breaks at a place.
pub fn arity(needed: usize, found: usize, place: Place) -> Option<Refusal>
    ensures { result ≡ first_broken (arity needed found place) }
{
    if needed == found {
        None
    } else {
        Some(Refusal {
            place,
            rule: Rule::Arity,
        })
    }
}

/// The rule that a name breaks at its place which names nothing.
pub fn unknown(place: Place) -> Option<Refusal>
    ensures { result ≡ first_broken (unknown place) }
{
    Some(Refusal {
        place,
        rule: Rule::Unknown,
    })
}

/// An expression has one type and breaks no rule, or it has a first broken rule; never both.
pub fn one_answer()
    ensures one_type { (names : Names) (t : Term) (a b : Ty) → IsTyped names t a → IsTyped names t b → a ≡ b }
    ensures not_both { (names : Names) (t : Term) (ty : Ty) (r : Refusal) → IsTyped names t ty → IsIllTyped names t r → ⊥ }
    ensures either { (names : Names) (t : Term) → ((ty : Ty) × IsTyped names t ty) ⊎ ((r : Refusal) × IsIllTyped names t r) }
{}
