//! The laws.
ghost use Rattle.std.specs.Prelude.{◌≡◌, ◌+◌, ℕ, Some, None, List, [], ◌∷◌, slice_get};
ghost use Rattle.nk_policy.specs.Policy.{Policy};
ghost use Rattle.nk_names.specs.declared.Program.{Program};
ghost use Rattle.nk_names.specs.Accepted.{IsStartPacket};
ghost use Rattle.nk_table.specs.declared.Tables.{Tables};
ghost use Rattle.nk_update.specs.Plans.{pair_of};
ghost use Rattle.nk_update.specs.Steps.{plan_of};
ghost use Rattle.nk_compile.specs.declared.pair.TablePair.{TablePair};
ghost use Rattle.nk_compile.specs.Carries.{Carries};
ghost use Rattle.nk_compile.specs.PairAnswers.{IsCompiledPair};
ghost use Rattle.nk_flight.specs.Flights.{Event, nothing_in_flight, after_events};
ghost use Rattle.nk_flight.specs.Owed.{flying_from, left_from, with_crossings};
ghost use Rattle.nk_flight.specs.Once.{all_erased};
ghost use Rattle.nk_flight.specs.declared.versions.Version.{Version};
ghost use Rattle.nk_flight.specs.Updates.{UpdateEvent, AreEntering, stages_of, tables_by, at_the_start, after_updates};
ghost use Rattle.nk_flight.specs.UpdateDraws.{after_turns};
ghost use Rattle.nk_schedules.specs.Schedules.{IsEachOnceOf, IsNoOther, policy_by};

/// In whatever order packets are injected and copies are handled: of each injection of a packet on a declared port without
/// a tag, each history that the policy has from the packet either has left, once, or is owed by one copy in flight alone;
/// and nothing else has left.
pub fn each_history_of_the_policy_once()
    ensures each { (program : Program) (p : Policy) (t : Tables) (events : List Event) (i k : ℕ)
        (pk : List ℕ)
        → let s = after_events events (nothing_in_flight t) in
        Carries program p t → slice_get s.packets i ≡ Some pk
        → IsStartPacket program.fields program.topo pk
        → IsEachOnceOf p pk t k (all_erased t (with_crossings k (left_from (i + 1) s.left)))
        (flying_from (i + 1) s.flying) }
    ensures left { (program : Program) (p : Policy) (t : Tables) (events : List Event) (i : ℕ)
        (pk : List ℕ)
        → let s = after_events events (nothing_in_flight t) in
        Carries program p t → slice_get s.packets i ≡ Some pk
        → IsStartPacket program.fields program.topo pk
        → IsNoOther p pk (all_erased t (left_from (i + 1) s.left)) }
{}

/// While the tables of a new policy take those of an old one's place by the plan of both, in whatever order packets are
/// injected, copies are handled and plan steps are done: an injection that hasn't stepped is one copy without records, and
/// nothing of it has left. Else it keeps to the policy of its version: each history that this one has from the packet either
/// has left, once, or is owed by one copy in flight alone; and nothing else has left. It asks that each packet comes in on a
/// declared port without a tag, which is said of all that come in and of this one.
pub fn each_packet_keeps_to_one_policy()
    ensures each { (program : Program) (old new : List ℕ) (r : TablePair)
        (both : IsCompiledPair program old new r)
        (events : List UpdateEvent) (i k : ℕ) (pk : List ℕ) (v : Version)
        → let p = pair_of r.old r.new r.old_tags in let g = stages_of
        (plan_of p) in let s = after_updates g events (at_the_start g) in
        let t = tables_by p v in
        AreEntering r.old events → slice_get s.flight.packets i ≡ Some pk
        → IsStartPacket program.fields program.topo pk
        → s.versions (i + 1) ≡ Some v
        → IsEachOnceOf (policy_by both.p both.q v) pk t k
        (all_erased t (with_crossings k (left_from (i + 1) s.flight.left)))
        (flying_from (i + 1) s.flight.flying) }
    ensures left { (program : Program) (old new : List ℕ) (r : TablePair)
        (both : IsCompiledPair program old new r)
        (events : List UpdateEvent) (i : ℕ) (pk : List ℕ) (v : Version)
        → let p = pair_of r.old r.new r.old_tags in let g = stages_of
        (plan_of p) in let s = after_updates g events (at_the_start g) in
        let t = tables_by p v in
        AreEntering r.old events → slice_get s.flight.packets i ≡ Some pk
        → IsStartPacket program.fields program.topo pk
        → s.versions (i + 1) ≡ Some v
        → IsNoOther (policy_by both.p both.q v) pk
        (all_erased t (left_from (i + 1) s.flight.left)) }
    ensures unstepped { (program : Program) (old new : List ℕ) (r : TablePair)
        (both : IsCompiledPair program old new r)
        (events : List UpdateEvent) (i : ℕ) (pk : List ℕ)
        → let p = pair_of r.old r.new r.old_tags in let g = stages_of
        (plan_of p) in let s = after_updates g events (at_the_start g) in
        AreEntering r.old events → slice_get s.flight.packets i ≡ Some pk
        → s.versions (i + 1) ≡ None
        → (flying_from (i + 1) s.flight.flying ≡ record { records = []; packet = pk } ∷ [])
        × (left_from (i + 1) s.flight.left ≡ []) }
{}

/// While the tables of a new policy take those of an old one's place by the plan of both, draws from a seed say what happens in
/// each of so many turns, and one packet comes in again and again. Where this packet is in range, on a declared port and
/// without a tag, each injection of it keeps to one policy.
pub fn a_drawn_update_keeps_to_one_policy()
    ensures each { (program : Program) (old new : List ℕ) (r : TablePair)
        (both : IsCompiledPair program old new r)
        (seed turns i k : ℕ) (pk : List ℕ) (v : Version)
        → let p = pair_of r.old r.new r.old_tags in let g = stages_of
        (plan_of p) in let s = after_turns g seed turns pk (at_the_start g) in
        let t = tables_by p v in
        IsStartPacket program.fields program.topo pk → slice_get s.flight.packets i ≡ Some pk
        → s.versions (i + 1) ≡ Some v
        → IsEachOnceOf (policy_by both.p both.q v) pk t k
        (all_erased t (with_crossings k (left_from (i + 1) s.flight.left)))
        (flying_from (i + 1) s.flight.flying) }
    ensures left { (program : Program) (old new : List ℕ) (r : TablePair)
        (both : IsCompiledPair program old new r)
        (seed turns i : ℕ) (pk : List ℕ) (v : Version)
        → let p = pair_of r.old r.new r.old_tags in let g = stages_of
        (plan_of p) in let s = after_turns g seed turns pk (at_the_start g) in
        let t = tables_by p v in
        IsStartPacket program.fields program.topo pk → slice_get s.flight.packets i ≡ Some pk
        → s.versions (i + 1) ≡ Some v
        → IsNoOther (policy_by both.p both.q v) pk
        (all_erased t (left_from (i + 1) s.flight.left)) }
    ensures unstepped { (program : Program) (old new : List ℕ) (r : TablePair)
        (both : IsCompiledPair program old new r)
        (seed turns i : ℕ) (pk : List ℕ)
        → let p = pair_of r.old r.new r.old_tags in let g = stages_of
        (plan_of p) in let s = after_turns g seed turns pk (at_the_start g) in
        IsStartPacket program.fields program.topo pk → slice_get s.flight.packets i ≡ Some pk
        → s.versions (i + 1) ≡ None
        → (flying_from (i + 1) s.flight.flying ≡ record { records = []; packet = pk } ∷ [])
        × (left_from (i + 1) s.flight.left ≡ []) }
{}
