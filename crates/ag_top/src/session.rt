//! A package under check, with the store of its verdicts.
ghost use Rattle.std.specs.Prelude.{◌≡◌, [], false};
ghost use Rattle.ag_small.specs.Rules.{IsWellFormed};

use ag_base::Limits;
use ag_board::Board;
use ag_small::Package;

/// A package, the limits of its proofs, and the store that keeps the verdicts of its obligations.
/// Between two commands no claim is out.
#[derive(Drop)]
pub struct Session {
    pub model: Package,
    pub limits: Limits,
    pub board: Board,
    ghost formed: { IsWellFormed model },
    ghost none_out: { board.state.tickets ≡ [] },
    ghost not_stopped: { board.state.is_stopped ≡ false },
    ghost promised: { board.spare ≡ 1 },
}
