//! One pass over an expression, from its leaves up, by the rules on numbers.
ghost use Rattle.std.specs.Prelude.{◌≡◌, IfOk, Some};
ghost use Rattle.std.specs.Option.{option_copied};
ghost use Rattle.ag_symbols.specs.Seen.{sought, value_of};
ghost use Rattle.ag_linear.specs.Values.{carried, passes_limit};
ghost use Rattle.ag_types.specs.Constants.{AreKept, value_at};
ghost use Rattle.ag_types.specs.Firsts.{either};
ghost use Rattle.ag_types.specs.NumberFaults.{side_faults};
ghost use Rattle.ag_types.specs.Numbered.{known, number_by, truth_by, named_head, named_by, named_stream, unary_by, varies_between, divisor_of, binary_breaks, binary_by, choice_breaks, choice_by, call_by, breaks_among};
ghost use Rattle.ag_types.specs.Places.{first_broken};
ghost use Rattle.ag_types.specs.Rows.{whole_stream};
ghost use Rattle.ag_types.specs.Types.{type_of_var};

use crate::number_faults::{compared_of, divisor_of, operands_of, pre_of, product_of};
use crate::number_rows::{no_row, row_of_binary, row_of_hidden, row_of_stream, row_of_unary};
use crate::numbered::{
    Faults, Head, Numbered, UNBROKEN, closed, coefficient, own_equation, with_argument,
};
use crate::places::{earlier, either, path_place};
use crate::types::{type_of_binary, type_of_call, type_of_unary};
use ag_base::{OutOfMemory, Place, Refusal};
use ag_linear::{Value, binary_value, choice_value, literal_value, passes_limit, unary_value};
use ag_symbols::Sight;
use ag_terms::{Binary, NodeDef, Path, Term, Ty, Unary};
use std::alloc::Global;

/// What is known of an expression, where the constants that are seen have these values.
#[cycle(numbered)]
pub fn numbered(
    alloc: Global,
    sight: &Sight<'_>,
    values: &[Option<Value>],
    term: &Term,
) -> Result<Numbered, OutOfMemory>
    requires { AreKept values.now }
    ensures { IfOk result (λ n. n ≡ known sight.now values.now term.now) }
{
    match term {
        Term::Number { value, place } => Ok(number(alloc, *value, *place)),
        Term::Truth { value, place } => Ok(truth(alloc, *value, *place)),
        Term::Named { path } => named(alloc, sight, values, path),
        Term::Unary { op, place, arg } => {
            let stream = named_stream(sight, arg.get());
            let arg = numbered(alloc, sight, values, arg.get())?;
            unary(alloc, *op, *place, stream, arg)
        }
        Term::Binary {
            op,
            place,
            left,
            right,
        } => {
            let left = numbered(alloc, sight, values, left.get())?;
            let right = numbered(alloc, sight, values, right.get())?;
            binary(alloc, *op, *place, left, right)
        }
        Term::Choice {
            place,
            test,
            yes,
            no,
        } => {
            let test = numbered(alloc, sight, values, test.get())?;
            let yes = numbered(alloc, sight, values, yes.get())?;
            let no = numbered(alloc, sight, values, no.get())?;
            choice(alloc, *place, test, yes, no)
        }
        Term::Call { path, args } => {
            let arguments = arguments(alloc, sight, values, args.as_slice())?;
            call(alloc, sight.node_of(path), path, arguments)
        }
    }
}

// What the arguments of a call break.
#[cycle(numbered)]
fn arguments(
    alloc: Global,
    sight: &Sight<'_>,
    values: &[Option<Value>],
    args: &[Term],
) -> Result<Faults, OutOfMemory>
    requires { AreKept values.now }
    ensures { IfOk result (λ f. f ≡ breaks_among sight.now values.now args.now) }
{
    let mut faults = UNBROKEN;
    for arg in args {
        let arg = numbered(alloc, sight, values, arg)?;
        faults = with_argument(faults, &arg);
    }
    Ok(faults)
}

fn number(alloc: Global, value: i64, place: Place) -> Numbered
    ensures { result ≡ number_by value place }
{
    let literal = literal_value(value);
    let head = Head {
        ty: Some(Ty::Int),
        varies: false,
        first: place,
        value: literal.value,
    };
    let faults = Faults {
        of_constant: coefficient(literal.passes, place),
        of_parts: None,
    };
    closed(alloc, head, no_row(), faults)
}

fn truth(alloc: Global, value: bool, place: Place) -> Numbered
    ensures { result ≡ truth_by value place }
{
    let head = Head {
        ty: Some(Ty::Bool),
        varies: false,
        first: place,
        value: Some(Value::Truth(value)),
    };
    closed(alloc, head, no_row(), UNBROKEN)
}

fn named(
    alloc: Global,
    sight: &Sight<'_>,
    values: &[Option<Value>],
    path: &Path,
) -> Result<Numbered, OutOfMemory>
    requires { AreKept values.now }
    ensures { IfOk result (λ n. n ≡ named_by sight.now values.now path.now) }
{
    let head = named_head(sight, values, path);
    let exact = row_of_stream(alloc, false, whole_stream(sight, path))?;
    Ok(closed(alloc, head, exact, UNBROKEN))
}

fn named_head(sight: &Sight<'_>, values: &[Option<Value>], path: &Path) -> Head
    ensures { result ≡ named_head sight.now values.now path.now }
{
    Head {
        ty: type_of_name(sight, path),
        varies: sight.stream(path).is_some(),
        first: path_place(path),
        value: value_at(values, sight.constant(path)),
    }
}

fn type_of_name(sight: &Sight<'_>, path: &Path) -> Option<Ty>
    ensures { result ≡ type_of_var (value_of sight.now path.now) }
{
    match sight.value_of(path) {
        None => None,
        Some(var) => Some(var.ty),
    }
}

fn value_at(values: &[Option<Value>], at: Option<usize>) -> Option<Value>
    ensures { result ≡ value_at values.now at }
{
    match at {
        None => None,
        Some(at) => match values.get(at) {
            None => None,
            Some(value) => *value,
        },
    }
}

// The integer stream of that name.
fn whole_stream(sight: &Sight<'_>, path: &Path) -> Option<usize>
    ensures { result ≡ whole_stream sight.now (sought path.now path.now.«package») }
{
    let at = sight.stream(path)?;
    match sight.streams.get(at)?.ty {
        Ty::Int => Some(at),
        Ty::Bool => None,
    }
}

fn named_stream(sight: &Sight<'_>, term: &Term) -> Option<usize>
    ensures { result ≡ named_stream sight.now term.now }
{
    match term {
        Term::Named { path } => whole_stream(sight, path),
        _ => None,
    }
}

fn unary(
    alloc: Global,
    op: Unary,
    place: Place,
    stream: Option<usize>,
    arg: Numbered,
) -> Result<Numbered, OutOfMemory>
    ensures { IfOk result (λ n. n ≡ unary_by op place stream arg) }
{
    let valued = unary_value(op, arg.value);
    let head = Head {
        ty: type_of_unary(op, arg.ty),
        varies: op == Unary::Pre || arg.varies,
        first: place,
        value: valued.value,
    };
    let faults = Faults {
        of_constant: either(coefficient(valued.passes, place), arg.of_constant),
        of_parts: either(pre_of(op, &arg), arg.broken),
    };
    let exact = row_of_unary(alloc, op, stream, arg)?;
    Ok(closed(alloc, head, exact, faults))
}

fn binary(
    alloc: Global,
    op: Binary,
    place: Place,
    left: Numbered,
    right: Numbered,
) -> Result<Numbered, OutOfMemory>
    ensures { IfOk result (λ n. n ≡ binary_by op place left right) }
{
    let valued = binary_value(op, left.value, right.value);
    let head = Head {
        ty: type_of_binary(op, left.ty),
        varies: varies_between(op, left.varies, right.varies),
        first: earlier(left.first, place),
        value: valued.value,
    };
    let faults = Faults {
        of_constant: constant_faults(op, coefficient(valued.passes, head.first), &left, &right),
        of_parts: parts_faults(op, place, &left, &right),
    };
    let exact = row_of_binary(alloc, op, left, right)?;
    Ok(closed(alloc, head, exact, faults))
}

fn varies_between(op: Binary, left: bool, right: bool) -> bool
    ensures { result ≡ varies_between op left right }
{
    match op {
        Binary::Arrow => true,
        _ => left || right,
    }
}

// What an operator between two constants breaks, and these.
fn constant_faults(
    op: Binary,
    own: Option<Refusal>,
    left: &Numbered,
    right: &Numbered,
) -> Option<Refusal>
    ensures { result ≡ either own (either (first_broken (divisor_of op right.now)) (either left.now.of_constant right.now.of_constant)) }
{
    let within = either(left.of_constant, right.of_constant);
    either(own, either(divisor_of(op, right), within))
}

// What an operator breaks with its operands, and these.
fn parts_faults(op: Binary, place: Place, left: &Numbered, right: &Numbered) -> Option<Refusal>
    ensures { result ≡ (binary_breaks op place left.now right.now).of_parts }
{
    let within = either(left.broken, right.broken);
    let of_rows = either(
        compared_of(op, left, right),
        either(operands_of(op, left, right), within),
    );
    either(
        product_of(op, place, left, right),
        either(divisor_of(op, right), of_rows),
    )
}

fn choice(
    alloc: Global,
    place: Place,
    test: Numbered,
    yes: Numbered,
    no: Numbered,
) -> Result<Numbered, OutOfMemory>
    ensures { IfOk result (λ n. n ≡ choice_by place test yes no) }
{
    let head = Head {
        ty: yes.ty,
        varies: test.varies || yes.varies || no.varies,
        first: place,
        value: choice_value(test.value, yes.value, no.value),
    };
    let exact = row_of_hidden(alloc, yes.ty)?;
    let own = coefficient(passes_limit(head.value), place);
    let faults = choice_breaks(own, &test, &yes, &no);
    Ok(closed(alloc, head, exact, faults))
}

// Both branches have an equation of their own.
fn choice_breaks(own: Option<Refusal>, test: &Numbered, yes: &Numbered, no: &Numbered) -> Faults
    ensures { result ≡ choice_breaks own test.now yes.now no.now }
{
    let of_branches = either(yes.of_constant, no.of_constant);
    let within = either(test.broken, either(yes.broken, no.broken));
    Faults {
        of_constant: either(own, either(test.of_constant, of_branches)),
        of_parts: either(own_equation(yes), either(own_equation(no), within)),
    }
}

fn call(
    alloc: Global,
    node: Option<&NodeDef>,
    path: &Path,
    arguments: Faults,
) -> Result<Numbered, OutOfMemory>
    ensures { IfOk result (λ n. n ≡ call_by (option_copied node.entry) path.now arguments) }
{
    let head = Head {
        ty: type_of_call(node),
        varies: true,
        first: path_place(path),
        value: None,
    };
    let exact = row_of_hidden(alloc, head.ty)?;
    Ok(closed(alloc, head, exact, arguments))
}

/// The first rule that the right side of an equation breaks.
pub fn side(
    alloc: Global,
    sight: &Sight<'_>,
    values: &[Option<Value>],
    term: &Term,
) -> Result<Option<Refusal>, OutOfMemory>
    requires { AreKept values.now }
    ensures { IfOk result (λ r. r ≡ first_broken (side_faults sight.now values.now term.now)) }
{
    let side = numbered(alloc, sight, values, term)?;
    Ok(either(own_equation(&side), side.broken))
}
