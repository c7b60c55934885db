//! Whether work is to go on: a call that may take long asks a halt from time to time.
ghost use Rattle.std.specs.Prelude.{◌≡◌, ◌≤◌, ◌-◌, ◌==◌, IsTrue, ℕ, false, if◌then◌else◌};
ghost use Rattle.ag_base.specs.Outside.{Rose};
ghost use Rattle.ag_base.specs.Memory.{one_more};
ghost use Rattle.ag_base.specs.Halts.{Countdown, IsLater};

use std::marker::Model;

/// Says whether a call is to stop.
pub trait Halt {
    /// How often it has said yes. The count never falls, and stands still at its last value.
    ghost yeses: { Self → ℕ };

    /// That the second state may come from the first one by polls.
    ghost follows: { Self → Self → Type 0 };

    /// Whether to stop.
    fn poll(&mut self) -> bool
        ensures never_falls { yeses self.old ≤ yeses self.new }
        ensures yes { IsTrue result → Rose (yeses self.old) (yeses self.new) }
        ensures kept { result ≡ false → yeses self.new ≡ yeses self.old }
        ensures follows { follows self.old self.new };

    /// Each state follows itself.
    ghost reflexive: { (s : Self) → follows s s };

    /// What follows a state follows whatever that one follows.
    ghost transitive: { (s t u : Self) → follows s t → follows t u → follows s u };
}

/// Never says yes.
#[derive(Clone, Copy, Debug)]
pub struct Never;

impl Halt for Never {
    ghost use Rattle.std.proofs.Common.{rules};

    ghost yeses = { λ _. 0 };

    ghost follows = { λ _ _. Unit {0} };

    fn poll(&mut self) -> bool
        ensures never_falls { 0 ≤ 0 }
        ensures yes { IsTrue result → Rose 0 0 }
        ensures kept { result ≡ false → ◌≡◌ {A = ℕ} 0 0 }
        ensures follows { Unit {0} }
        ensures no { result ≡ false }
    {
        false
    }

    ghost reflexive = { Prim.search rules };

    ghost transitive = { Prim.search rules };
}

/// Says yes from a poll on.
#[derive(Drop)]
pub struct AfterPolls {
    left: u32,
    yeses: u64,
}

impl Model for AfterPolls {
    ghost use Rattle.ag_base.specs.Halts.{Countdown};

    ghost Value = { Countdown };

    ghost view = { λ h. record { left = h.left; yeses = h.yeses } };
}

impl AfterPolls {
    /// Says yes from its n-th poll on, counted from 1; 0 is as 1.
    pub fn make(n: u32) -> AfterPolls
        ensures { result ≡ record { left = n - 1; yeses = 0 } }
    {
        AfterPolls {
            left: n.saturating_sub(1),
            yeses: 0,
        }
    }
}

impl Halt for AfterPolls {
    ghost use Rattle.std.proofs.Common.{rules};

    ghost yeses = { λ h. h.yeses };

    ghost follows = { IsLater };

    fn poll(&mut self) -> bool
        ensures never_falls { self.old.yeses ≤ self.new.yeses }
        ensures yes { IsTrue result → Rose self.old.yeses self.new.yeses }
        ensures kept { result ≡ false → self.new.yeses ≡ self.old.yeses }
        ensures follows { IsLater self.old self.new }
        // It says yes exactly where no noes are left.
        ensures exactly { result ≡ (self.old.left == 0) }
        ensures left { self.new.left ≡ self.old.left - 1 }
        ensures counted { self.new.yeses ≡ (if result then one_more self.old.yeses else self.old.yeses) }
    {
        if self.left > 0 {
            self.left -= 1;
            return false;
        }
        self.yeses = self.yeses.saturating_add(1);
        true
    }

    ghost reflexive = { Prim.search rules };

    ghost transitive = { Prim.search rules };
}
