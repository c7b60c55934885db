//! A scope: clauses that break no rule on types, and what they see.
ghost use Rattle.std.specs.Prelude.{◌≡◌, ◌≤◌, List, Option, Err, IfOk, None, length, map, take};
ghost use Rattle.std.specs.List.{filter};
ghost use Rattle.std.specs.Option.{option_copied};
ghost use Rattle.std.specs.Coded.{codes};
ghost use Rattle.std.proofs.Props.{props};
ghost use Rattle.ag_terms.specs.contracts.terms.Term as term;
ghost use Rattle.ag_base.specs.declared.place.Refusal.{Refusal};
ghost use Rattle.ag_base.specs.declared.place.Refused.TheVariants.{Model};
ghost use Rattle.ag_graph.specs.Circles.{AreCircles};
ghost use Rattle.ag_symbols.specs.Seen.{Seen, library_names, frame_names, names_seen, value_of, node_of, seen_of};
ghost use Rattle.ag_linear.specs.declared.value.Value.{Value};
ghost use Rattle.ag_types.specs.Answers.{Breaks, IsFirst, IsRefusal, IsSound};
ghost use Rattle.ag_types.specs.Constants.{AreKept};
ghost use Rattle.ag_types.specs.ConstantWorth.{AreWorth};
ghost use Rattle.ag_types.specs.Numbers.{numbers_from};
ghost use Rattle.ag_types.specs.SumRows.{HaveValues};
ghost use Rattle.ag_types.specs.Sums.{is_whole, whole_streams};
ghost use Rattle.ag_types.specs.Types.{IsTyped, IsIllTyped};
ghost use Rattle.ag_types.specs.Uses.{uses_of, AreValues, IsCircular};
ghost use Rattle.ag_types.specs.ValuedProps.{value_of-prop};

use crate::constants::values;
use crate::faults::first_fault;
use crate::integers::integers_before;
use crate::number_clauses::first_number_fault;
use crate::places::either;
use crate::types::type_of_term;
use crate::uses::{constants, first_circle, uses};
use ag_base::{OutOfMemory, Refusal, Refused, refusals_are_ordered};
use ag_graph::{Circles, circles};
use ag_linear::Value;
use ag_symbols::{Sight, Site, Sites};
use ag_terms::{Clause, NodeDef, Path, Term, Ty, Var};
use std::alloc::Global;
use std::marker::Model;

/// The clauses of a package's own annexes, of a component type's and of an implementation's, and the
/// streams that these don't declare, which together break no rule on types. It lends these, and finds
/// names in them.
#[derive(Drop)]
pub struct Scope<'a> {
    library: &'a [Clause],
    frame: &'a [Clause],
    body: &'a [Clause],
    ports: &'a [Var],
    site: Site<'a>,
    values: Vec<Option<Value>>,
    integers: Vec<usize>,
    ghost sees: { site ≡ names_seen (seen_of library.now frame.now body.now ports.now) } by { Prim.hlevel (props, codes, term.the_row.coded) },
    ghost valued: { AreValues (seen_of library.now frame.now body.now ports.now) values.items } by { Prim.hlevel (props, codes, term.the_row.coded) },
    ghost kept: { AreKept values.items } by { Prim.hlevel (props, codes) },
    ghost typed: { HaveValues (names_seen (seen_of library.now frame.now body.now ports.now)).constants values.items } by { Prim.hlevel (props, codes, term.the_row.coded, value_of-prop) },
    ghost counted: { integers.items ≡ numbers_from 0 (names_seen (seen_of library.now frame.now body.now ports.now)).streams } by { Prim.hlevel (props, codes, term.the_row.coded) },
}

impl<'a> Model for Scope<'a> {
    ghost use Rattle.std.specs.Coded.{codes};
    ghost use Rattle.ag_terms.specs.contracts.terms.Term as term;
    ghost use Rattle.ag_symbols.specs.Seen.{Seen, seen_of};

    ghost Value = { Seen };

    ghost coded = { Prim.hlevel (codes, term.the_row.coded) };

    ghost view = { λ s. seen_of s.library.now s.frame.now s.body.now s.ports.now };
}

impl<'a> Scope<'a> {
    /// The scope of these clauses and streams, or the first rule on types that the clauses break. `ports` has
    /// the streams of own ports, and those of subcomponents, of their ports and by `eq` of their types, as
    /// `c.x`; a port without a stream isn't listed.
    pub fn make(
        alloc: Global,
        library: &'a [Clause],
        frame: &'a [Clause],
        body: &'a [Clause],
        ports: &'a [Var],
    ) -> Result<Scope<'a>, Refused>
        // It is seen as what it was made from.
        ensures seen { IfOk result (λ s. s ≡ seen_of library.now frame.now body.now ports.now) }
        // The clauses break no rule.
        ensures sound { IfOk result (λ s. IsSound (seen_of library.now frame.now body.now ports.now)) }
        // They break this rule, and none that comes before it.
        ensures refused { (r : Refusal) → result ≡ Err (Model r) → IsRefusal (seen_of library.now frame.now body.now ports.now) r }
    {
        let checked = match check(alloc, library, frame, body, ports) {
            Ok(checked) => checked,
            Err(OutOfMemory) => return Err(Refused::OutOfMemory),
        };
        match checked.broken {
            Some(refusal) => Err(Refused::Model(refusal)),
            None => Ok(Scope {
                library,
                frame,
                body,
                ports,
                site: checked.site,
                values: checked.values,
                integers: checked.integers,
            }),
        }
    }

    pub fn library(&self) -> &'a [Clause]
        ensures { result.now ≡ self.now.library }
    {
        self.library
    }

    pub fn frame(&self) -> &'a [Clause]
        ensures { result.now ≡ self.now.frame }
    {
        self.frame
    }

    pub fn body(&self) -> &'a [Clause]
        ensures { result.now ≡ self.now.body }
    {
        self.body
    }

    pub fn ports(&self) -> &'a [Var]
        ensures { result.now ≡ self.now.ports }
    {
        self.ports
    }

    /// The stream or constant that a name in an expression is.
    pub fn value_of(&self, path: &Path) -> Option<&Var>
        ensures { option_copied result ≡ value_of (names_seen self.now) path.now }
    {
        self.sight().value_of(path)
    }

    /// The node that a call calls.
    pub fn node_of(&self, path: &Path) -> Option<&NodeDef>
        ensures { option_copied result ≡ node_of (names_seen self.now) path.now }
    {
        self.sight().node_of(path)
    }

    /// How many integer streams the clauses see.
    pub fn integer_streams(&self) -> usize
        ensures { result ≡ length (whole_streams (names_seen self.now)) }
    {
        self.integers_before(self.sight().streams.as_slice().len())
    }

    // How many integer streams stand before this one among all.
    pub(crate) fn integers_before(&self, stream: usize) -> usize
        requires { stream ≤ length (names_seen self.now).streams }
        ensures { result ≡ length (filter is_whole (take stream (names_seen self.now).streams)) }
    {
        self.integers[stream]
    }

    /// The constants have values, and each is worth what its expression is worth, in every run.
    pub fn constants_are_worth(&self)
        ensures { (values : List (Option Value)) × AreWorth self.now values }
    {
        let _values = self.values();
    }

    pub(crate) fn sight(&self) -> Sight<'_>
        ensures { result ≡ names_seen self.now }
    {
        self.site.sight()
    }

    // The values of the constants, in order.
    pub(crate) fn values(&self) -> &[Option<Value>]
        ensures values { AreValues self.now result.now }
        ensures kept { AreKept result.now }
        ensures typed { HaveValues (names_seen self.now).constants result.now }
    {
        self.values.as_slice()
    }
}

/// The type of an expression, or the first rule on types that it breaks. It takes no memory.
pub fn type_of(scope: &Scope<'_>, term: &Term) -> Result<Ty, Refusal>
    // It breaks no rule on types, and this is its type.
    ensures ok { IfOk result (λ ty. IsTyped (names_seen scope.now) term.now ty) }
    // The refusal is the first broken rule, at its place.
    ensures refused { (r : Refusal) → result ≡ Err r → IsIllTyped (names_seen scope.now) term.now r }
{
    type_of_term(&scope.sight(), term)
}

/// No two refusals fit one scope, and none fits one that breaks no rule. The circles are those of the scope's
/// uses, which every graph has.
pub fn one_refusal(_circles: &Circles)
    ghost seen: { Seen }
    requires { AreCircles (uses_of seen) _circles.now.on_circle _circles.now.order }
    ensures one { (r q : Refusal) → IsRefusal seen r → IsRefusal seen q → r ≡ q }
    ensures not_both { (r : Refusal) → IsSound seen → IsRefusal seen r → ⊥ }
{
    refusals_are_ordered();
}

// What an implementation's clauses see, the values of the constants, the positions of integer streams, and
// the first broken rule.
#[derive(Drop)]
struct Checked<'a> {
    site: Site<'a>,
    values: Vec<Option<Value>>,
    integers: Vec<usize>,
    broken: Option<Refusal>,
}

fn check<'a>(
    alloc: Global,
    library: &'a [Clause],
    frame: &'a [Clause],
    body: &'a [Clause],
    ports: &'a [Var],
) -> Result<Checked<'a>, OutOfMemory>
    ensures site { IfOk result (λ c. c.site ≡ names_seen (seen_of library.now frame.now body.now ports.now)) }
    ensures values { IfOk result (λ c. AreValues (seen_of library.now frame.now body.now ports.now) c.values.items) }
    ensures kept { IfOk result (λ c. AreKept c.values.items) }
    ensures typed { IfOk result (λ c. c.broken ≡ None → HaveValues (names_seen (seen_of library.now frame.now body.now ports.now)).constants c.values.items) }
    ensures counted { IfOk result (λ c. c.integers.items ≡ numbers_from 0 (names_seen (seen_of library.now frame.now body.now ports.now)).streams) }
    ensures broken { IfOk result (λ c. IsFirst (Breaks (seen_of library.now frame.now body.now ports.now) c.values.items) c.broken) }
{
    let sites = Sites::make(alloc, library, frame, body, ports)?;
    let evaluated = evaluate(alloc, &sites, &*library, &*frame, &*body, ports)?;
    let values = evaluated.values;
    let of_names = first_fault(alloc, &sites, library, frame, body, ports)?;
    let of_numbers = first_number_fault(
        alloc,
        &sites,
        values.as_slice(),
        library,
        frame,
        body,
        ports,
    )?;
    let integers = integers_before(alloc, sites.body.sight().streams.as_slice())?;
    Ok(Checked {
        site: sites.body,
        values,
        integers,
        broken: either(of_names, either(evaluated.circular, of_numbers)),
    })
}

// The values of a scope's constants, and the first constant or node that uses itself.
#[derive(Drop)]
struct Evaluated {
    values: Vec<Option<Value>>,
    circular: Option<Refusal>,
}

fn evaluate<'s>(
    alloc: Global,
    sites: &'s Sites<'_>,
    library: &'s [Clause],
    frame: &'s [Clause],
    body: &'s [Clause],
    ports: &[Var],
) -> Result<Evaluated, OutOfMemory>
    ghost seen: { Seen }
    requires seen { seen ≡ seen_of library.now frame.now body.now ports.now }
    requires library { sites.now.library ≡ library_names seen }
    requires frame { sites.now.frame ≡ frame_names seen }
    requires body { sites.now.body ≡ names_seen seen }
    ensures values { IfOk result (λ e. AreValues seen e.values.items) }
    ensures kept { IfOk result (λ e. AreKept e.values.items) }
    ensures typed { IfOk result (λ e. IsFirst (Breaks seen e.values.items) None → HaveValues (names_seen seen).constants e.values.items) }
    ensures circular { IfOk result (λ e. IsFirst (IsCircular seen) e.circular) }
{
    let constants = constants(alloc, sites, library, frame, body)?;
    let uses = uses(alloc, sites, constants.as_slice(), library, frame, body)?;
    let circles = circles(alloc, &uses)?;
    let values = values(alloc, constants.as_slice(), &circles)?;
    let circular = first_circle(sites, constants.as_slice(), &circles);
    Ok(Evaluated { values, circular })
}
