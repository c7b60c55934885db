//! The integer streams among all.
ghost use Rattle.std.specs.Prelude.{◌≡◌, map, IfOk};
ghost use Rattle.ag_types.specs.Numbers.{numbers_from};
ghost use Rattle.ag_types.specs.Sums.{is_whole};

use ag_base::OutOfMemory;
use ag_terms::{Ty, Var};
use std::alloc::Global;

/// For each stream the number of integer streams before it, and behind the last one that of all.
pub fn integers_before(alloc: Global, streams: &[&Var]) -> Result<Vec<usize>, OutOfMemory>
    ensures { IfOk result (λ ns. ns.items ≡ numbers_from 0 (map (λ v. v.now) streams.now)) }
{
    let mut numbers = Vec::new(alloc);
    let mut before = 0;
    for stream in streams {
        numbers.push(before)?;
        if is_integer(stream) {
            before += 1;
        }
    }
    numbers.push(before)?;
    Ok(numbers)
}

fn is_integer(stream: &Var) -> bool
    ensures { result ≡ is_whole stream.now }
{
    matches!(stream.ty, Ty::Int)
}
