//! Laws of what is answered: over the definitions, at most one answer is right. Two programs say the same where they have
//! the same fields, the same topology and the same policies by the same names (`program_by`).
ghost use Rattle.std.specs.Prelude.{◌≡◌, ◌⊎◌, ℕ, List, Some, Ok, Err};
ghost use Rattle.std.specs.declared.result.Result.{Result};
ghost use Rattle.nk_field.specs.Order.{Found};
ghost use Rattle.nk_field.specs.Packet.{FieldTable, IsFieldTable};
ghost use Rattle.nk_topo.specs.Topology.{Topology};
ghost use Rattle.nk_policy.specs.After.{id_policy};
ghost use Rattle.nk_policy.specs.Policy.{Policy};
ghost use Rattle.nk_names.specs.declared.Program.{Program};
ghost use Rattle.nk_names.specs.Accepted.{IsStartPacket, IsAccepted};
ghost use Rattle.nk_names.specs.ProgramOf.{program_by};
ghost use Rattle.nk_names.specs.ProgramValue.{IsProgram};
ghost use Rattle.nk_names.specs.Topologies.{IsDeclarable};
ghost use Rattle.nk_table.specs.declared.Tables.{Tables};
ghost use Rattle.nk_compile.specs.declared.refusal.Refusal.{Refusal};
ghost use Rattle.nk_compile.specs.declared.refusal.Refusal.TheVariants.{NoPolicy};
ghost use Rattle.nk_compile.specs.declared.refusal.CompileError.{CompileError};
ghost use Rattle.nk_compile.specs.declared.refusal.CompileError.TheVariants.{NoMemory, Refused};
ghost use Rattle.nk_compile.specs.Answers.{IsCompileResult, IsPolicyAnswer};
ghost use Rattle.nk_compile.specs.Headline.{IsAcceptedByName, IsCompiled, IsCompiledPolicy};
ghost use Rattle.nk_compile.specs.NumberedAfter.{IsTableAfter};
ghost use Rattle.nk_compile.specs.PairAnswers.{FitTogether, IsCompiledPair, IsPairRefused, IsPairAnswer};
ghost use Rattle.nk_compact.specs.declared.compact.Compact.{Compact};
ghost use Rattle.nk_compact.specs.Compacted.{AcceptsCompact, IsCompacted, IsCompactRefused};
ghost use Rattle.nk_names.specs.Named.{policy_named};
ghost use Rattle.nk_compile.specs.declared.pair.TablePair.{TablePair};
ghost use Rattle.nk_compile.specs.Refusals.{IsReason, IsRefused};
ghost use Rattle.nk_compile.specs.Smallest.{tag_alone, one_port, one_row};
ghost use Rattle.nk_compile.specs.WholeTable.{IsTableOf};
ghost use Rattle.nk_cert.specs.Certificates.{CertificateValue};
ghost use Rattle.nk_cert.specs.Equality.{Side, AreSame, IsLeastDifference};
ghost use Rattle.nk_cert.specs.Verdicts.{Finding};
ghost use Rattle.nk_bisim.specs.Answers.{IsCompared};
ghost use Rattle.nk_cert.specs.declared.compared.Compared.{Compared};
ghost use Rattle.nk_query.specs.Asked.{Asked, Question, NamesQuestion};
ghost use Rattle.nk_query.specs.Answers.{IsNamedQuestion, IsHindranceByName, IsAsked};
ghost use Rattle.nk_query.specs.declared.error.QueryError.{QueryError};
ghost use Rattle.nk_query.specs.declared.error.QueryError.TheVariants as query;
ghost use Rattle.nk_query.specs.declared.query.Answer.{Answer};
ghost use Rattle.nk_uniqueness.specs.Packets.{HavePackets};
ghost use Rattle.nk_uniqueness.specs.Queried.{Queried, queried_by, IsToldOf, IsToldOfNamed, IsFoundOfNamed};
ghost use Rattle.nk_uniqueness.specs.Texts.{TextsHavePackets};
ghost use Rattle.nk_uniqueness.specs.Told.{Told, told_of, LacksOne, IsTold, IsToldFor, IsFoundFor};
ghost use Rattle.nk_uniqueness.specs.Worked.{AreMetBySmallPolicy, HasSeveralTables, IsSmallDifference};

use nk_check::laws::{one_certificate_is_printed, one_thing_is_found};
use nk_compile::laws::the_smallest_table_is_printed;
use nk_names::laws::{declared_fields_are_writable, declared_topologies_are_declarable};

/// There is no reason to refuse an accepted policy. So a name that one program accepts is refused by no program that says
/// the same.
pub fn accepted_policies_have_no_reason()
    ensures policy { (program : Program) (p : Policy) (r : Refusal)
        → IsAccepted program p → IsReason program.fields program.topo p r → ⊥ }
    ensures name { (program other : Program) (name : List ℕ) (r : Refusal)
        → program_by program ≡ program_by other
        → IsAcceptedByName program name → IsRefused other name r → ⊥ }
{}

/// A policy has at most one first reason to be refused, with all that is printed of it; and so has a name, in programs
/// that say the same.
pub fn a_policy_has_one_reason()
    ensures policy { (fields : FieldTable) (topo : Topology) (p : Policy) (r s : Refusal)
        → IsReason fields topo p r → IsReason fields topo p s → r ≡ s }
    ensures name { (program other : Program) (name : List ℕ) (r s : Refusal)
        → program_by program ≡ program_by other
        → IsRefused program name r → IsRefused other name s → r ≡ s }
{}

/// A policy has at most one printed table, where packets in range can be at each switch, whatever number its tags go on
/// after; and so has a name, in programs that say the same.
pub fn one_table_is_printed()
    ensures policy { (fields : FieldTable) (topo : Topology) (p : Policy) (t u : Tables)
        → HavePackets fields topo
        → IsTableOf fields topo (IsStartPacket fields topo) p t
        → IsTableOf fields topo (IsStartPacket fields topo) p u → t ≡ u }
    ensures following { (first : ℕ) (fields : FieldTable) (topo : Topology) (p : Policy)
        (t u : Tables) → HavePackets fields topo
        → IsTableAfter first fields topo (IsStartPacket fields topo) p t
        → IsTableAfter first fields topo (IsStartPacket fields topo) p u → t ≡ u }
    ensures name { (program other : Program) (name : List ℕ) (t u : Tables)
        → program_by program ≡ program_by other
        → HavePackets program.fields program.topo
        → IsCompiled program name t → IsCompiled other name u → t ≡ u }
{}

/// Compiling a name has one answer, unless memory runs out: where the name is accepted, its tables, and where it is
/// refused, the reason.
pub fn compiling_has_one_answer()
    ensures accepted { (program other : Program) (name : List ℕ) (a : Result Tables CompileError)
        → program_by program ≡ program_by other
        → IsAcceptedByName program name → IsCompileResult other name a
        → (a ≡ Err NoMemory) ⊎ ((t : Tables) × (a ≡ Ok t) × IsCompiled other name t) }
    ensures refused { (program other : Program) (name : List ℕ) (r : Refusal)
        (a : Result Tables CompileError) → program_by program ≡ program_by other
        → IsRefused program name r → IsCompileResult other name a
        → (a ≡ Err NoMemory) ⊎ (a ≡ Err (Refused r)) }
    ensures one { (program other : Program) (name : List ℕ) (a b : Result Tables CompileError)
        → program_by program ≡ program_by other
        → HavePackets program.fields program.topo → IsCompileResult program name a
        → IsCompileResult other name b
        → (a ≡ Err NoMemory) ⊎ ((b ≡ Err NoMemory) ⊎ (a ≡ b)) }
{}

/// Compiling a policy has one answer, unless memory runs out, whether it has a name or not: where it is accepted, its tables,
/// and where it is refused, the reason, which is never that a name is missing. It is the same over programs with the same fields
/// and the same topology; and what is answered of a policy is what is answered of its name.
pub fn compiling_a_policy_has_one_answer()
    ensures accepted { (program : Program) (p : Policy) (a : Result Tables CompileError)
        → IsAccepted program p → IsPolicyAnswer program p a
        → (a ≡ Err NoMemory) ⊎ ((t : Tables) × (a ≡ Ok t) × IsCompiledPolicy program p t) }
    ensures refused { (program : Program) (p : Policy) (r : Refusal)
        (a : Result Tables CompileError)
        → IsReason program.fields program.topo p r → IsPolicyAnswer program p a
        → (a ≡ Err NoMemory) ⊎ (a ≡ Err (Refused r)) }
    ensures one { (program other : Program) (p : Policy) (a b : Result Tables CompileError)
        → program.fields ≡ other.fields → program.topo ≡ other.topo
        → HavePackets program.fields program.topo
        → IsPolicyAnswer program p a → IsPolicyAnswer other p b
        → (a ≡ Err NoMemory) ⊎ ((b ≡ Err NoMemory) ⊎ (a ≡ b)) }
    ensures unnamed { (fields : FieldTable) (topo : Topology) (p : Policy)
        → IsReason fields topo p NoPolicy → ⊥ }
    ensures named { (program : Program) (name : List ℕ) (p : Policy)
        (a : Result Tables CompileError)
        → policy_named program name ≡ Some p → IsPolicyAnswer program p a
        → IsCompileResult program name a }
{}

/// Compacting a name has one answer, unless memory runs out: where the classes of its policy's tag sets are no more than the tag has
/// values above 0, the one merged tables with the one list of what tells its tags apart, and else the one reason.
pub fn compacting_has_one_answer()
    ensures tables { (program other : Program) (name : List ℕ) (a b : Compact)
        → program_by program ≡ program_by other
        → HavePackets program.fields program.topo
        → IsCompacted program name a → IsCompacted other name b → a ≡ b }
    ensures accepted { (program other : Program) (name : List ℕ) (r : Refusal)
        → program_by program ≡ program_by other
        → AcceptsCompact program name → IsCompactRefused other name r → ⊥ }
    ensures refused { (program other : Program) (name : List ℕ) (r s : Refusal)
        → program_by program ≡ program_by other
        → IsCompactRefused program name r → IsCompactRefused other name s → r ≡ s }
{}

/// Compiling two names for an update has one answer, unless memory runs out: where both are accepted and their tags fit
/// together, the one pair of tables, and else the one reason.
pub fn compiling_a_pair_has_one_answer()
    ensures accepted { (program other : Program) (old new : List ℕ) (p q : Policy)
        (a : Result TablePair CompileError)
        → program_by program ≡ program_by other
        → policy_named program old ≡ Some p → policy_named program new ≡ Some q
        → IsAccepted program p → IsAccepted program q
        → FitTogether program.fields program.topo p q → IsPairAnswer other old new a
        → (a ≡ Err NoMemory) ⊎ ((r : TablePair) × (a ≡ Ok r) × IsCompiledPair other old new r) }
    ensures refused_alone { (program other : Program) (old new : List ℕ) (r : Refusal)
        (a : Result TablePair CompileError)
        → program_by program ≡ program_by other
        → IsPairRefused program old new r → IsPairAnswer other old new a
        → (a ≡ Err NoMemory) ⊎ (a ≡ Err (Refused r)) }
    ensures tables { (program other : Program) (old new : List ℕ) (a b : TablePair)
        → program_by program ≡ program_by other
        → HavePackets program.fields program.topo
        → IsCompiledPair program old new a → IsCompiledPair other old new b → a ≡ b }
    ensures compiled { (program other : Program) (old new : List ℕ) (a : TablePair) (r : Refusal)
        → program_by program ≡ program_by other
        → IsCompiledPair program old new a → IsPairRefused other old new r → ⊥ }
    ensures refused { (program other : Program) (old new : List ℕ) (r s : Refusal)
        → program_by program ≡ program_by other
        → IsPairRefused program old new r → IsPairRefused other old new s → r ≡ s }
    ensures one { (program other : Program) (old new : List ℕ) (a b : Result TablePair CompileError)
        → program_by program ≡ program_by other
        → HavePackets program.fields program.topo → IsPairAnswer program old new a
        → IsPairAnswer other old new b
        → (a ≡ Err NoMemory) ⊎ ((b ≡ Err NoMemory) ⊎ (a ≡ b)) }
{}

/// Packets in range can be at each switch of a program with a topology that a text can declare, and so of each text's program.
pub fn switches_have_packets()
    ensures program { (program : Program) → IsProgram program.fields program.topo program.lets
        → IsDeclarable program.topo → HavePackets program.fields program.topo }
    ensures texts { TextsHavePackets }
{
    declared_fields_are_writable();
    declared_topologies_are_declarable();
}

/// Two policies have at most one least history that one of them alone has, and it is of one side; policies that give the
/// same histories have none.
pub fn one_difference_is_least()
    ensures one { (fields : FieldTable) (p q : Policy) (s t : Side) (f g : Found)
        → IsLeastDifference fields p q s f → IsLeastDifference fields p q t g → (s ≡ t) × (f ≡ g) }
    ensures none { (fields : FieldTable) (p q : Policy) (s : Side) (f : Found)
        → AreSame fields p q → IsLeastDifference fields p q s f → ⊥ }
{}

/// Of two policies at most one thing can be answered: their printed certificate, where both give the same histories, or
/// the least history that one of them alone has. So it is of two names, in programs that say the same; of a name without
/// a policy nothing is answered.
pub fn one_comparison_is_told()
    ensures policies { (fields : FieldTable) (p q : Policy) (a b : Told) → IsFieldTable fields
        → IsTold fields p q a → IsTold fields p q b → a ≡ b }
    ensures names { (program other : Program) (left right : List ℕ) (a b : Told)
        → program_by program ≡ program_by other
        → IsFieldTable program.fields → IsToldFor program left right a
        → IsToldFor other left right b → a ≡ b }
    ensures answers { (program other : Program) (left right : List ℕ) (a b : Compared)
        → program_by program ≡ program_by other
        → IsFieldTable program.fields → IsCompared program left right (Ok a)
        → IsCompared other left right (Ok b)
        → told_of a ≡ told_of b }
    ensures no_policy { (program other : Program) (left right : List ℕ) (a : Told)
        → program_by program ≡ program_by other
        → IsToldFor program left right a → LacksOne other left right → ⊥ }
{
    one_certificate_is_printed();
}

/// At most one thing is found of a certificate for two names, in programs that say the same, and nothing for a name without a
/// policy.
pub fn one_finding_is_told()
    ensures names { (program other : Program) (left right : List ℕ) (c : CertificateValue)
        (v w : Finding)
        → program_by program ≡ program_by other → IsFoundFor program left right c v
        → IsFoundFor other left right c w → v ≡ w }
    ensures no_policy { (program other : Program) (left right : List ℕ) (c : CertificateValue)
        (v : Finding)
        → program_by program ≡ program_by other → IsFoundFor program left right c v
        → LacksOne other left right → ⊥ }
{
    one_thing_is_found();
}

/// The names of a query have at most one question, in programs that say the same. Where it can be made, the only error is
/// that memory ran out; and beside that a query has at most one error.
pub fn one_question_is_asked()
    ensures question { (program other : Program) (asked : Asked) (x y : Question)
        → program_by program ≡ program_by other
        → NamesQuestion program asked x → NamesQuestion other asked y → x ≡ y }
    ensures no_cause { (program other : Program) (asked : Asked) (x : Question) (cause : QueryError)
        → program_by program ≡ program_by other
        → IsNamedQuestion program asked x → IsHindranceByName other asked cause
        → cause ≡ query.NoMemory }
    ensures one_cause { (program other : Program) (asked : Asked) (a b : QueryError)
        → program_by program ≡ program_by other
        → IsHindranceByName program asked a → IsHindranceByName other asked b
        → (a ≡ query.NoMemory) ⊎ ((b ≡ query.NoMemory) ⊎ (a ≡ b)) }
{}

/// Of a query's question at most one thing can be answered: the printed certificate of the question and `drop`, where no
/// history breaks it, or the least history that does. So it is of names, in programs that say the same, and so it is of
/// what is found of a certificate for them.
pub fn one_thing_is_told_of_a_query()
    ensures question { (fields : FieldTable) (x : Question) (a b : Queried) → IsFieldTable fields
        → IsToldOf fields x a → IsToldOf fields x b → a ≡ b }
    ensures names { (program other : Program) (asked : Asked) (a b : Queried)
        → program_by program ≡ program_by other
        → IsFieldTable program.fields → IsToldOfNamed program asked a → IsToldOfNamed other asked b
        → a ≡ b }
    ensures answers { (program other : Program) (asked : Asked) (a b : Answer)
        → program_by program ≡ program_by other
        → IsFieldTable program.fields → IsAsked program asked (Ok a) → IsAsked other asked (Ok b)
        → queried_by a ≡ queried_by b }
    ensures findings { (program other : Program) (asked : Asked) (c : CertificateValue)
        (v w : Finding) → program_by program ≡ program_by other
        → IsFoundOfNamed program asked c v → IsFoundOfNamed other asked c w → v ≡ w }
{
    one_certificate_is_printed();
    one_thing_is_found();
}

/// Small instances. The premises of the laws can hold: of the smallest table's program, whose policy is accepted and has
/// that table alone; without a tag the same policy is refused; and two small policies have a least difference. A switch
/// of number 65,536, at which no packet can be, has two printed tables, so the premise is needed.
pub fn worked_answers()
    ensures met { AreMetBySmallPolicy }
    ensures smallest { (u : Tables)
        → IsTableOf tag_alone one_port (IsStartPacket tag_alone one_port) id_policy u
        → u ≡ one_row }
    ensures difference { IsSmallDifference }
    ensures several { HasSeveralTables }
{
    the_smallest_table_is_printed();
}
