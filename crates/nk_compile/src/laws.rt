//! Laws of compilation.
ghost use Rattle.std.specs.Prelude.{◌≡◌, ℕ, Some, List};
ghost use Rattle.nk_field.specs.Packet.{FieldTable, IsFieldTable};
ghost use Rattle.nk_topo.specs.Topology.{Topology, AreLinks};
ghost use Rattle.nk_policy.specs.Policy.{Policy};
ghost use Rattle.nk_policy.specs.Distinct.{HasDistinct};
ghost use Rattle.nk_policy.specs.Ranges.{IsInRange};
ghost use Rattle.nk_names.specs.declared.Program.{Program};
ghost use Rattle.nk_names.specs.Accepted.{IsStartPacket, IsCompilable, IsAccepted};
ghost use Rattle.nk_names.specs.Named.{policy_named};
ghost use Rattle.nk_names.specs.ProgramOf.{program_by};
ghost use Rattle.nk_names.specs.ProgramValue.{IsProgram};
ghost use Rattle.nk_table.specs.declared.Tables.{Tables};
ghost use Rattle.nk_update.specs.Plans.{IsPlannable, pair_of};
ghost use Rattle.nk_update.specs.Tags.{HaveTheirTags};
ghost use Rattle.nk_compile.specs.declared.refusal.Refusal.{Refusal};
ghost use Rattle.nk_compile.specs.Counted.{HasTagSets};
ghost use Rattle.nk_compile.specs.NumberedAfter.{IsTableAfter};
ghost use Rattle.nk_compile.specs.PairAnswers.{FitTogether, IsPairReason, IsPairRefused};
ghost use Rattle.nk_compile.specs.WholeTable.{IsTableOf};
ghost use Rattle.nk_compile.specs.Carries.{Carries};
ghost use Rattle.nk_compile.specs.Smallest.{MeetsAll};

/// The printed table of a compilable policy carries it.
pub fn the_printed_table_carries()
    ensures compilable { (program : Program) (p : Policy) (t : Tables)
        → IsFieldTable program.fields → AreLinks program.topo
        → HasDistinct p → IsInRange p program.fields → IsCompilable program.fields program.topo p
        → IsTableOf program.fields program.topo (IsStartPacket program.fields program.topo) p t
        → Carries program p t }
    ensures accepted { (program : Program) (name : List ℕ) (p : Policy) (t : Tables)
        → IsProgram program.fields program.topo program.lets
        → policy_named program name ≡ Some p → IsAccepted program p
        → IsTableOf program.fields program.topo (IsStartPacket program.fields program.topo) p t
        → Carries program p t }
{}

/// The law's premises can hold: the smallest table is printed for its policy.
pub fn the_smallest_table_is_printed()
    ensures { MeetsAll }
{}

/// The printed tables of a compilable policy carry it too where its tags are numbered after others.
pub fn the_tables_after_carry()
    ensures compilable { (program : Program) (first : ℕ) (p : Policy) (t : Tables)
        → IsFieldTable program.fields → AreLinks program.topo
        → HasDistinct p → IsInRange p program.fields → IsCompilable program.fields program.topo p
        → IsTableAfter first program.fields program.topo
        (IsStartPacket program.fields program.topo) p t
        → Carries program p t }
    ensures accepted { (program : Program) (name : List ℕ) (first : ℕ) (p : Policy) (t : Tables)
        → IsProgram program.fields program.topo program.lets
        → policy_named program name ≡ Some p → IsAccepted program p
        → IsTableAfter first program.fields program.topo
        (IsStartPacket program.fields program.topo) p t
        → Carries program p t }
{}

/// Tables of an old and a new policy, the new one's tags numbered after the old one's, can be planned; and the copies that
/// cross links have the tags of their own policy.
pub fn the_numbered_pair_can_be_planned()
    ensures plannable { (fields : FieldTable) (topo : Topology) (p q : Policy) (old new : Tables)
        (old_tags : ℕ)
        → HasTagSets fields topo p old_tags
        → IsTableOf fields topo (IsStartPacket fields topo) p old
        → IsTableAfter old_tags fields topo (IsStartPacket fields topo) q new
        → IsPlannable (pair_of old new old_tags) }
    ensures tags { (fields : FieldTable) (topo : Topology) (p q : Policy) (old new : Tables)
        (old_tags : ℕ)
        → IsFieldTable fields → AreLinks topo
        → HasDistinct p → IsInRange p fields → IsCompilable fields topo p
        → HasDistinct q → IsInRange q fields → IsCompilable fields topo q
        → HasTagSets fields topo p old_tags
        → IsTableOf fields topo (IsStartPacket fields topo) p old
        → IsTableAfter old_tags fields topo (IsStartPacket fields topo) q new
        → HaveTheirTags (pair_of old new old_tags) }
{}

/// There is no reason to refuse two accepted policies whose tags fit together. So two such names of one program are refused
/// by no program that says the same.
pub fn fitting_policies_are_not_refused()
    ensures policies { (program : Program) (p q : Policy) (r : Refusal) → IsAccepted program p
        → IsAccepted program q
        → FitTogether program.fields program.topo p q
        → IsPairReason program.fields program.topo p q r → ⊥ }
    ensures names { (program other : Program) (old new : List ℕ) (p q : Policy) (r : Refusal)
        → program_by program ≡ program_by other
        → policy_named program old ≡ Some p → policy_named program new ≡ Some q
        → IsAccepted program p → IsAccepted program q
        → FitTogether program.fields program.topo p q → IsPairRefused other old new r → ⊥ }
{}
