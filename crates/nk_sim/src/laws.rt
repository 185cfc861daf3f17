//! Laws of traces.
ghost use Rattle.std.specs.Prelude.{◌≡◌, ℕ, List};
ghost use Rattle.nk_table.specs.declared.Tables.{Tables};
ghost use Rattle.nk_sim.specs.declared.tracing.Traced.{Traced};
ghost use Rattle.nk_sim.specs.Traces.{IsTrace};

/// A packet has one trace: the histories' order and how often each one stands leave no choice.
pub fn a_packet_has_one_trace()
    ensures { (t : Tables) (hops : ℕ) (pk : List ℕ) (a b : Traced) → IsTrace t hops pk a
        → IsTrace t hops pk b → a ≡ b }
{}
