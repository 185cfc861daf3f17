//! Laws of what happens hop by hop, and tables worked by hand.
ghost use Rattle.std.specs.Prelude.{◌≡◌, ℕ, suc, List, map};
ghost use Rattle.std.specs.List.{flat_map};
ghost use Rattle.nk_table.specs.declared.Tables.{Tables};
ghost use Rattle.nk_table.specs.Hops.{Copy, waiting, left_after, with_earlier_records};
ghost use Rattle.nk_table.specs.Worked.{CrossesOnce, TiesDrop, SendsToAnotherPort, GroupsCopy, PrefixesMatch};

/// What waits or has left after k + 1 crossings is what one crossing leads to, followed by k more,
/// as lists in order.
pub fn the_first_crossing()
    ensures waiting { (t : Tables) (k : ℕ) (pk : List ℕ) → waiting t (suc k) pk
        ≡ flat_map (λ (c : Copy). map (with_earlier_records c.records) (waiting t k c.packet))
        (waiting t 1 pk) }
    ensures left { (t : Tables) (k : ℕ) (pk : List ℕ) → left_after t (suc k) pk
        ≡ flat_map (λ (c : Copy). map (with_earlier_records c.records) (left_after t k c.packet))
        (waiting t 1 pk) }
{}

/// What small tables do, worked out by hand: a crossing, a tie, exits, a group and prefixes.
pub fn worked_tables()
    ensures crossing { CrossesOnce }
    ensures ties { TiesDrop }
    ensures exits { SendsToAnotherPort }
    ensures groups { GroupsCopy }
    ensures prefixes { PrefixesMatch }
{}
