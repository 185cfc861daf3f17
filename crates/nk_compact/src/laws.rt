//! Laws of compilation with few tags.
ghost use Rattle.std.specs.Prelude.{◌≡◌, ℕ, Some, List};
ghost use Rattle.nk_field.specs.Packet.{IsFieldTable};
ghost use Rattle.nk_topo.specs.Topology.{AreLinks};
ghost use Rattle.nk_policy.specs.Policy.{Policy};
ghost use Rattle.nk_policy.specs.Distinct.{HasDistinct};
ghost use Rattle.nk_policy.specs.Ranges.{IsInRange};
ghost use Rattle.nk_names.specs.declared.Program.{Program};
ghost use Rattle.nk_names.specs.Accepted.{IsStartPacket, IsCompilable};
ghost use Rattle.nk_names.specs.Named.{policy_named};
ghost use Rattle.nk_names.specs.ProgramValue.{IsProgram};
ghost use Rattle.nk_table.specs.declared.Tables.{Tables};
ghost use Rattle.nk_compile.specs.Carries.{Carries};
ghost use Rattle.nk_compact.specs.MergedTable.{IsMergedTable};

/// The merged table of a compilable policy, where alike tag sets share a tag, carries it too.
pub fn the_merged_table_carries()
    ensures compilable { (program : Program) (p : Policy) (tags : List (List ℕ)) (classes : List ℕ)
        (t : Tables)
        → IsFieldTable program.fields → AreLinks program.topo
        → HasDistinct p → IsInRange p program.fields → IsCompilable program.fields program.topo p
        → IsMergedTable program.fields program.topo
        (IsStartPacket program.fields program.topo) p tags classes t
        → Carries program p t }
    ensures named { (program : Program) (name : List ℕ) (p : Policy) (tags : List (List ℕ))
        (classes : List ℕ) (t : Tables)
        → IsProgram program.fields program.topo program.lets
        → policy_named program name ≡ Some p → IsCompilable program.fields program.topo p
        → IsMergedTable program.fields program.topo
        (IsStartPacket program.fields program.topo) p tags classes t
        → Carries program p t }
{}
