//! Laws about the definitions, for the crates above: functions that do nothing.
ghost use Rattle.std.specs.Prelude.{◌≡◌, List, Bool};
ghost use Rattle.ag_stream.specs.Values.{Moment, AreTruths, truths};
ghost use Rattle.ag_stream.specs.Forms.{IsWellFormed};

use crate::problem::ProblemDraft;

/// The truths of the parts are fixed by the parts: each is what its part says of the truths of the
/// operands, and no other list of truths is so.
pub fn truths_are_fixed(draft: &ProblemDraft)
    requires { IsWellFormed draft.now }
    ensures each { (m : Moment) → AreTruths m draft.now.parts (truths m draft.now.parts) }
    ensures only { (m : Moment) (known : List Bool) → AreTruths m draft.now.parts known → known ≡ truths m draft.now.parts }
{
    let _ = draft;
}
