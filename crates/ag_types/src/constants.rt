//! The values of constants.
ghost use Rattle.std.specs.Prelude.{◌≡◌, true, IfOk};
ghost use Rattle.ag_graph.specs.Circles.{AreCircles};
ghost use Rattle.ag_symbols.specs.Seen.{Seen};
ghost use Rattle.ag_types.specs.Constants.{AreKept, is_kept};
ghost use Rattle.ag_types.specs.Uses.{constants_of, uses_of, declared_value, AreValues};

use crate::claims::constant;
use crate::numbers::numbered;
use crate::places::either;
use crate::uses::Constant;
use ag_base::OutOfMemory;
use ag_graph::Circles;
use ag_linear::Value;
use std::alloc::Global;

/// The values of a scope's constants, each evaluated once, behind those that it uses.
pub fn values(
    alloc: Global,
    constants: &[Constant<'_>],
    circles: &Circles,
) -> Result<Vec<Option<Value>>, OutOfMemory>
    ghost seen: { Seen }
    requires constants { constants.now ≡ constants_of seen }
    requires circles { AreCircles (uses_of seen) circles.now.on_circle circles.now.order }
    ensures values { IfOk result (λ vs. AreValues seen vs.items) }
    ensures kept { IfOk result (λ vs. AreKept vs.items) }
{
    let on_circle = circles.on_circle.as_slice();
    let mut values = vec![in alloc; None; constants.len()]?;
    for vertex in circles.order.as_slice() {
        let at = *vertex;
        if at >= constants.len() || on_circle[at] {
            continue;
        }
        values[at] = declared_value(alloc, &constants[at], values.as_slice())?;
    }
    Ok(values)
}

// The value of a constant whose expression breaks no rule, where the others have these values.
fn declared_value(
    alloc: Global,
    declared: &Constant<'_>,
    values: &[Option<Value>],
) -> Result<Option<Value>, OutOfMemory>
    requires { AreKept values.now }
    ensures value { IfOk result (λ v. v ≡ declared_value values.now declared.now) }
    ensures kept { IfOk result (λ v. is_kept v ≡ true) }
{
    let of_types = constant(&declared.sight, declared.var, declared.term);
    let numbered = numbered(alloc, &declared.sight, values, declared.term)?;
    match either(of_types, numbered.of_constant) {
        None => Ok(numbered.value),
        Some(_) => Ok(None),
    }
}
