//! The limits that a user may set.
ghost use Rattle.std.specs.Prelude.{◌≡◌, ◌≤◌, ◌↔◌, IsSome, IfSome};
ghost use Rattle.ag_base.specs.Range.{AreInRange};

/// How far a proof may go. Each number is in its range.
#[derive(Clone, Copy)]
pub struct Limits {
    /// The greatest number of steps of a k-induction, 1 to 30.
    pub depth: u32,
    /// The most facts that one query keeps, 1 to 100,000.
    pub work: u32,
    /// The most rows that one trying of rows keeps, 100 to 100,000.
    pub leaf: u32,
    /// How many instants a run of the premises has, 1 to 30.
    pub consistency: u32,
    /// How many workers prove beside the editor, 0 to 32.
    pub workers: u32,
    ghost in_range: { AreInRange depth work leaf consistency workers },
}

impl Limits {
    ghost use Rattle.ag_base.specs.Limits.{IsLimits};

    /// The limits of these numbers, where each is in its range.
    pub fn make(depth: u32, work: u32, leaf: u32, consistency: u32, workers: u32) -> Option<Limits>
        ensures in_range { IsSome result ↔ AreInRange depth work leaf consistency workers }
        ensures value { IfSome result (λ l. IsLimits l depth work leaf consistency workers) }
    {
        let fits = 1 <= depth
            && depth <= 30
            && 1 <= work
            && work <= 100_000
            && 100 <= leaf
            && leaf <= 100_000
            && 1 <= consistency
            && consistency <= 30
            && workers <= 32;
        if fits {
            Some(Limits {
                depth,
                work,
                leaf,
                consistency,
                workers,
            })
        } else {
            None
        }
    }

    /// The limits that hold where none is set.
    pub fn usual() -> Limits
        ensures { IsLimits result 10 20000 5000 1 2 }
    {
        Limits {
            depth: 10,
            work: 20_000,
            leaf: 5_000,
            consistency: 1,
            workers: 2,
        }
    }
}
