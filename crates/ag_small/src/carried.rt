//! Laws on a layer's problems by number, and between their runs and the runs of the layer by name.
ghost use Rattle.ag_small.specs.Carried.{NamedHaveNumbered, NumberedHaveNamed, PremisesAgree, BreakingAgrees, VerdictsCarryOver, ObligationsAreFit};

/// Named runs that keep the assigns and numbered runs that keep the equations stand for each other,
/// and agree on what they keep and break.
pub fn runs_stand()
    ensures named { NamedHaveNumbered }
    ensures numbered { NumberedHaveNamed }
    ensures premises { PremisesAgree }
    ensures breaking { BreakingAgrees }
{}

/// A verdict that is true of an obligation's numbered problem is true of the named obligation.
pub fn verdicts_carry_over()
    ensures { VerdictsCarryOver }
{}

/// A package that keeps the rules has few obligations, each of a problem that one instant decides and
/// that no other obligation has.
pub fn obligations_are_fit()
    ensures { ObligationsAreFit }
{}
