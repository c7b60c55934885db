//! Laws of plain problems: their single instants decide them.
ghost use Rattle.ag_verdict.specs.Plain.{LastBreaks, UnbrokenIsProved, BrokenIsRefuted, KeptIsConsistent, UnkeptIsInconsistent};

/// A plain problem has nothing that looks back, so each instant of a run or a window stands for
/// itself.
pub fn instants_decide()
    ensures last_breaks { LastBreaks }
    ensures proved { UnbrokenIsProved }
    ensures refuted { BrokenIsRefuted }
    ensures consistent { KeptIsConsistent }
    ensures inconsistent { UnkeptIsInconsistent }
{}
