//! Laws of certificates and of equality.
//!
//! Each function is a theorem: it takes nothing, does nothing, and its contract is the statement. `AreSame` says that two
//! policies give the same histories on every packet in range, `AreSides` that their dups are numbered and that they share no
//! number, `IsCertificate` that each row of a certificate meets its four parts.
ghost use Rattle.std.specs.Prelude.{◌≡◌, ◌↔◌, ◌+◌, ◌≤◌, ◌⊎◌, ◌∷◌, [], true, false, ℕ, Bool, List, Contains, length, slice_index};
ghost use Rattle.nk_field.specs.declared.packet.Packet.{Packet};
ghost use Rattle.nk_field.specs.Packet.{FieldTable, IsFieldTable, IsPacket as IsPacketOf};
ghost use Rattle.nk_field.specs.Order.{Found, IsLeast};
ghost use Rattle.nk_policy.specs.Policy.{Policy, dups_of};
ghost use Rattle.nk_policy.specs.Ranges.{IsInRange};
ghost use Rattle.nk_policy.specs.PositionSets.{AreSides};
ghost use Rattle.nk_store.specs.declared.node.Out.{Out};
ghost use Rattle.nk_store.specs.StoreState.{StoreState, IsId, IsStorePacket, Grows, AreTidy};
ghost use Rattle.nk_auto.specs.Plain.{Sends};
ghost use Rattle.nk_auto.specs.Automaton.{IsState, IsAutomaton};
ghost use Rattle.nk_apply.specs.Unions.{AreIds};
ghost use Rattle.nk_determ.specs.Sets.{HasEachSetOnce};
ghost use Rattle.nk_determ.specs.Pairs.{AreLabelsBelow};
ghost use Rattle.nk_reach.specs.Sides.{alone, ends_of, AreOneSided};
ghost use Rattle.nk_determ.specs.Counterexamples.{IsCounterexampleWithTarget, IsCounterexample};
ghost use Rattle.nk_runs.specs.Labels.{IsAmong};
ghost use Rattle.nk_cert.specs.Equality.{Side, AreSame, HasOneAlone, IsAloneFrom, IsLeastDifference};
ghost use Rattle.nk_cert.specs.Together.{AreNumbered, either_of, AgreeBySets, HavePositionSets};
ghost use Rattle.nk_cert.specs.Certificates.{CertificateValue, CertRow, at_dups, certificate_rows, IsRowPositionOf, MeetsPosition, MeetsFinals, MeetsHop, IsCertificate};
ghost use Rattle.nk_cert.specs.Verdicts.{Finding, hop_part, IsFinding, FailsFirst, HasPredicates, ArePartsDecided};
ghost use Rattle.nk_cert.specs.Printed.{IsPrinted};
ghost use Rattle.nk_cert.specs.Levelled.{IsAutomatonOfBoth, HasEach, IsOneSided, AreLevelsOfBoth, AreJoined, target_of_side, AreSideLevels};
ghost use Rattle.nk_cert.specs.FromLevels.{IsCertificateOf};
ghost use Rattle.nk_check.specs.Worked.{left_policy, right_policy, small, short};
ghost use Rattle.nk_cert.specs.Checked.{IsSetAt, HasNoViolation, StepsLeadToRows};

/// A certificate shows that both policies give the same histories on every packet in range, whoever made it.
pub fn a_certificate_shows_equality()
    ensures sides { (fields : FieldTable) (p q : Policy) → AreSides p q
        → IsInRange p fields → IsInRange q fields
        → (c : CertificateValue) → IsCertificate fields p q c → AreSame fields p q }
    // So it does for policies as `check_policies` takes them, the right one's dups numbered on from the left one's.
    ensures numbered { (fields : FieldTable) (p q : Policy) → AreNumbered p q
        → IsInRange p fields → IsInRange q fields
        → (c : CertificateValue) → IsCertificate fields p q c → AreSame fields p q }
{}

/// Where both policies give the same histories, the printed certificate is a certificate.
pub fn the_printed_certificate_is_one()
    ensures { (fields : FieldTable) (p q : Policy) → AreSides p q
        → IsInRange p fields → IsInRange q fields → AreSame fields p q
        → (c : CertificateValue) → IsPrinted fields p q c → IsCertificate fields p q c }
{}

/// Two policies have at most one printed certificate.
pub fn one_certificate_is_printed()
    ensures { (fields : FieldTable) (p q : Policy) → IsFieldTable fields
        → (c d : CertificateValue) → IsPrinted fields p q c → IsPrinted fields p q d → c ≡ d }
{}

/// So the printed certificate of two policies is a certificate exactly where they give the same histories.
pub fn the_printed_certificate_tells()
    ensures { (fields : FieldTable) (p q : Policy) → AreSides p q
        → IsInRange p fields → IsInRange q fields
        → (c : CertificateValue) → IsPrinted fields p q c
        → IsCertificate fields p q c ↔ AreSame fields p q }
{}

/// At most one thing is found of a certificate: that it is one, or that a certain row fails first, in a certain part. It
/// is contradictory that nothing is found; and where each row's parts are decidable, something is found. They are
/// decidable where there is an automaton of both policies and the rows have predicates.
pub fn one_thing_is_found()
    ensures at_most { (fields : FieldTable) (p q : Policy) (c : CertificateValue) (v w : Finding)
        → IsFinding fields p q c v → IsFinding fields p q c w → v ≡ w }
    ensures not_nothing { (fields : FieldTable) (p q : Policy) (c : CertificateValue)
        → ((v : Finding) → IsFinding fields p q c v → ⊥) → ⊥ }
    ensures decided { (fields : FieldTable) (p q : Policy) (c : CertificateValue)
        → ((row : CertRow) → Contains (certificate_rows c) row
        → ArePartsDecided fields p q (certificate_rows c) row)
        → (v : Finding) × IsFinding fields p q c v }
    ensures automaton { (fields : FieldTable) (st : StoreState) (states : List ℕ) (left right : ℕ)
        (p q : Policy)
        → IsAutomatonOfBoth fields st states left right p q
        → (c : CertificateValue) → HasPredicates c → (v : Finding) × IsFinding fields p q c v }
{}

/// A small certificate with its positions out of order is a certificate; with the start row alone it fails in that row's
/// hop.
pub fn worked_certificates()
    ensures is_one { (fields : FieldTable) → IsCertificate fields left_policy right_policy small }
    ensures fails { (fields : FieldTable) (pk : Packet) → IsPacketOf fields pk
        → FailsFirst fields left_policy right_policy (certificate_rows short) 1 hop_part }
{}

/// Both policies give the same histories exactly where, for every start packet and all records, the left and the right
/// members of the set of their positions end alike. That all records have such a set is known where an automaton of both is.
pub fn equality_is_by_sets()
    ensures members { (fields : FieldTable) (p q : Policy) → AreSides p q → AreSame fields p q
        → AgreeBySets fields p q }
    ensures histories { (fields : FieldTable) (p q : Policy) → AreSides p q
        → HavePositionSets fields p q → AgreeBySets fields p q → AreSame fields p q }
    ensures sets { (fields : FieldTable) (st : StoreState) (states : List ℕ) (left right : ℕ)
        (p q : Policy)
        → IsAutomatonOfBoth fields st states left right p q → HavePositionSets fields p q }
    ensures exactly { (fields : FieldTable) (st : StoreState) (states : List ℕ) (left right : ℕ)
        (p q : Policy)
        → IsAutomatonOfBoth fields st states left right p q
        → AreSame fields p q ↔ AgreeBySets fields p q }
{}

/// Levels of both policies from all packets, up to an end of one side alone: without one the policies give the same histories
/// on every packet in range, and with one some history is of one of them alone.
pub fn levels_tell_equality()
    ensures same { (fields : FieldTable) (p q : Policy) (states : List ℕ) (left right : ℕ)
        (first old new : StoreState)
        (ss : List (List ℕ)) (set start : ℕ) (bad : List ℕ → List ℕ → List Out)
        (ls : List (List (ℕ × ℕ)))
        → AreLevelsOfBoth fields p q states left right first old new ss set start bad ls false
        → AreSame fields p q }
    ensures differ { (fields : FieldTable) (p q : Policy) (states : List ℕ) (left right : ℕ)
        (first old new : StoreState)
        (ss : List (List ℕ)) (set start : ℕ) (bad : List ℕ → List ℕ → List Out)
        (ls : List (List (ℕ × ℕ)))
        → AreLevelsOfBoth fields p q states left right first old new ss set start bad ls true
        → HasOneAlone fields p q }
{}

/// The automata of two policies that are numbered one after the other, with a start that sends where either start does, are the
/// automaton of both as one.
pub fn automata_are_joined()
    ensures start { (st : StoreState) (left right d : ℕ) (p q : Policy) → IsState st left p
        → IsState st right q → IsId st d
        → ((pk y : List ℕ) (t : ℕ) → IsStorePacket st pk
        → Sends st d pk y t ↔ (Sends st left pk y t ⊎ Sends st right pk y t))
        → IsState st d (either_of p q) }
    ensures states { (st : StoreState) (of_left of_right states : List ℕ) (p q : Policy)
        → AreNumbered p q
        → IsAutomaton st of_left 1 p → IsAutomaton st of_right (1 + dups_of p) q
        → IsState st (slice_index states 0) (either_of p q) → AreJoined of_left of_right states p q
        → IsAutomaton st states 1 (either_of p q) }
{}

/// An automaton of both policies stands while the store grows, and what the goal of sides finds bad is one-sided.
pub fn automata_of_both_stand()
    ensures stands { (fields : FieldTable) (st new : StoreState) (states : List ℕ) (left right : ℕ)
        (p q : Policy)
        → IsAutomatonOfBoth fields st states left right p q → Grows st new → AreTidy new
        → IsAutomatonOfBoth fields new states left right p q }
    ensures goal { (first made old : StoreState) (states : List ℕ) (left right bound : ℕ)
        (ends : List ℕ)
        → AreIds made ends → length ends ≡ length states → Grows first made → Grows made old
        → ((set pk : List ℕ) → AreLabelsBelow (length states) set → IsStorePacket first pk
        → AreOneSided first states left right bound set pk (alone (ends_of made ends set pk)))
        → IsOneSided first states left right bound (λ set pk. alone (ends_of old ends set pk)) }
{}

/// The parts of a row on the automaton of both policies. Position: each number is one of those of all dups. Finals: at no
/// packet of the row the set of its labels has an end of one side alone. Hop: each step of that set from a packet of the row
/// leads to a set that some row has, and to a packet of that row.
pub fn rows_are_checked_by_sets()
    ensures position { (fields : FieldTable) (st : StoreState) (states : List ℕ) (left right : ℕ)
        (p q : Policy)
        → IsAutomatonOfBoth fields st states left right p q → (positions : List ℕ)
        → IsRowPositionOf p q (at_dups positions)
        ↔ ((l : ℕ) → Contains positions l → (1 ≤ l) × (l ≤ dups_of p + dups_of q)) }
    ensures finals { (fields : FieldTable) (st : StoreState) (states : List ℕ) (left right : ℕ)
        (p q : Policy)
        → IsAutomatonOfBoth fields st states left right p q
        → (bad : List ℕ → List ℕ → List Out) → IsOneSided st states left right (1 + dups_of p) bad
        → (row : CertRow) → MeetsPosition fields p q row → (set : List ℕ)
        → IsSetAt row.row_position set
        → MeetsFinals fields p q row ↔ HasNoViolation st bad row set }
    ensures hop { (fields : FieldTable) (st : StoreState) (states : List ℕ) (left right : ℕ)
        (p q : Policy)
        → IsAutomatonOfBoth fields st states left right p q
        → (all : List CertRow) (row : CertRow) → MeetsPosition fields p q row
        → (set : List ℕ) → IsSetAt row.row_position set
        → MeetsHop fields p q all row ↔ StepsLeadToRows st states all row set }
{}

/// The certificate that is made of levels of both policies without a violation is the printed one, and it is a certificate.
pub fn levels_give_the_printed_certificate()
    ensures printed { (fields : FieldTable) (p q : Policy) (states : List ℕ) (left right : ℕ)
        (first old new final : StoreState)
        (ss : List (List ℕ)) (set start : ℕ) (bad : List ℕ → List ℕ → List Out)
        (ls : List (List (ℕ × ℕ)))
        → AreLevelsOfBoth fields p q states left right first old new ss set start bad ls false
        → HasEachSetOnce ss → Grows old new → Grows new final
        → (c : CertificateValue) → IsCertificateOf new final ss ls c → IsPrinted fields p q c }
    ensures is_one { (fields : FieldTable) (p q : Policy) (states : List ℕ) (left right : ℕ)
        (first old new final : StoreState)
        (ss : List (List ℕ)) (set start : ℕ) (bad : List ℕ → List ℕ → List Out)
        (ls : List (List (ℕ × ℕ)))
        → AreLevelsOfBoth fields p q states left right first old new ss set start bad ls false
        → HasEachSetOnce ss → Grows old new → Grows new final → IsInRange p fields
        → IsInRange q fields
        → (c : CertificateValue) → IsCertificateOf new final ss ls c → IsCertificate fields p q c }
{}

/// Histories that break the goal of sides: from any start packets, with target 0 those of the left policy alone, with target 1
/// those of the right one alone, and no others. So from all packets the least that breaks is the least difference.
pub fn histories_of_one_side_break()
    ensures left { (fields : FieldTable) (st : StoreState) (states : List ℕ) (left right : ℕ)
        (p q : Policy)
        → IsAutomatonOfBoth fields st states left right p q
        → (bad : List ℕ → List ℕ → List Out) → IsOneSided st states left right (1 + dups_of p) bad
        → (start : ℕ) (f : Found)
        → IsCounterexampleWithTarget st states (0 ∷ []) start bad 0 f ↔ IsAloneFrom
        (IsAmong st start) p q f }
    ensures right { (fields : FieldTable) (st : StoreState) (states : List ℕ) (left right : ℕ)
        (p q : Policy)
        → IsAutomatonOfBoth fields st states left right p q
        → (bad : List ℕ → List ℕ → List Out) → IsOneSided st states left right (1 + dups_of p) bad
        → (start : ℕ) (f : Found)
        → IsCounterexampleWithTarget st states (0 ∷ []) start bad 1 f ↔ IsAloneFrom
        (IsAmong st start) q p f }
    ensures no_other { (fields : FieldTable) (st : StoreState) (states : List ℕ) (left right : ℕ)
        (p q : Policy)
        → IsAutomatonOfBoth fields st states left right p q
        → (bad : List ℕ → List ℕ → List Out) → IsOneSided st states left right (1 + dups_of p) bad
        → (start t : ℕ) (f : Found) → IsCounterexampleWithTarget st states (0 ∷ []) start bad t f
        → (t ≡ 0) ⊎ (t ≡ 1) }
    ensures least { (fields : FieldTable) (st : StoreState) (states : List ℕ) (left right : ℕ)
        (p q : Policy)
        → IsAutomatonOfBoth fields st states left right p q
        → (bad : List ℕ → List ℕ → List Out) → IsOneSided st states left right (1 + dups_of p) bad
        → (start : ℕ) → HasEach st start → (side : Side) (f : Found)
        → IsCounterexampleWithTarget st states (0 ∷ []) start bad (target_of_side side) f
        → IsLeast (λ g. IsCounterexample st states (0 ∷ []) start bad g) f
        → IsLeastDifference fields p q side f }
{}

/// Levels up to ends of one side alone, over the automaton of two policies, are the levels of both.
pub fn side_levels_are_of_both()
    ensures { (fields : FieldTable) (p q : Policy) (states : List ℕ) (left right bound : ℕ)
        (first new : StoreState)
        (ss : List (List ℕ)) (ends : List ℕ) (ls : List (List (ℕ × ℕ))) (broken : Bool)
        → IsAutomatonOfBoth fields first states left right p q → bound ≡ 1 + dups_of p
        → (l : AreSideLevels first states left right bound new ss ends ls broken)
        → AreLevelsOfBoth fields p q states left right first l.old new ss l.set l.start l.bad ls
        broken }
{}
