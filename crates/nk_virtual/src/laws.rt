//! Laws of virtual links.
//!
//! Each function is a theorem: it takes nothing, does nothing, and its contract is the statement.
ghost use Rattle.std.specs.Prelude.{◌≡◌, ◌≤◌, ℕ, ◌↔◌, false, List, [], ◌∷◌, map, All};
ghost use Rattle.nk_field.specs.declared.packet.Packet.{Packet};
ghost use Rattle.nk_field.specs.Packet.{FieldTable, IsFieldTable, IsPacket, IsUntagged};
ghost use Rattle.nk_policy.specs.Policy.{Policy, test, not_of, link, marked_from};
ghost use Rattle.nk_policy.specs.Meaning.{Gives};
ghost use Rattle.nk_policy.specs.Ranges.{IsOverFields};
ghost use Rattle.nk_policy.specs.Leaves.{has_leaf, is_on_field, is_dup, is_switch_assignment};
ghost use Rattle.nk_topo.specs.Topology.{Link};
ghost use Rattle.nk_names.specs.Accepted.{is_link_outside};
ghost use Rattle.nk_policy.specs.Complements.{NegatesPredicates};
ghost use Rattle.nk_policy.specs.Worked.{HasHistories};
ghost use Rattle.nk_field.specs.Order.{Found};
ghost use Rattle.nk_virtual.specs.Carriage.{IsOnTarget, IsOffTarget, IsNotCarried, IsFirstOffTarget, IsFirstNotCarried};
ghost use Rattle.nk_virtual.specs.Endings.{without_records};
ghost use Rattle.nk_virtual.specs.Fabrics.{LiesOver, IsVirtual, IsCarried, IsAtStartOf, moved_along};
ghost use Rattle.nk_names.specs.declared.Program.{Program};
ghost use Rattle.nk_names.specs.ProgramOf.{program_by};
ghost use Rattle.nk_names.specs.ProgramValue.{VirtualLink, AreVirtual};
ghost use Rattle.nk_virtual.specs.Answers.{IsPhysical};
ghost use Rattle.nk_virtual.specs.Reasons.{IsVirtualReason};
ghost use Rattle.nk_virtual.specs.declared.refusal.VirtualRefusal.{VirtualRefusal};
ghost use Rattle.nk_virtual.specs.Physical.{physical};
ghost use Rattle.nk_virtual.specs.Worked.{one_to_three, across_virtual, virtual_history, physical_history, HasAllThatIsAsked};

/// From a packet in range without a tag, each history of the physical policy lies over one of the virtual policy that ends
/// at the same packet; and so it is where its dups are numbered anew.
pub fn physical_histories_lie_over_virtual_ones()
    ensures histories { (fields : FieldTable) (links : List VirtualLink) (p : Policy)
        → IsFieldTable fields → IsVirtual fields links p
        → (pk : Packet) (w : List Packet) (last : Packet) → IsPacket fields pk
        → IsUntagged fields pk
        → Gives (physical links p) pk w last
        → (v : List Packet) × Gives p pk v last × LiesOver links w v }
    ensures numbered { (fields : FieldTable) (links : List VirtualLink) (p : Policy)
        → IsFieldTable fields → IsVirtual fields links p
        → (n : ℕ) (pk : Packet) (w : List Packet) (last : Packet) → IsPacket fields pk
        → IsUntagged fields pk
        → Gives (marked_from (physical links p) n) pk w last
        → (v : List Packet) × Gives p pk v last × LiesOver links w v }
{}

/// From such a packet each history of the virtual policy has one of the physical policy that lies over it and ends at the
/// same packet; and so it is where its dups are numbered anew.
pub fn virtual_histories_have_physical_ones()
    ensures histories { (fields : FieldTable) (links : List VirtualLink) (p : Policy)
        → IsFieldTable fields → IsVirtual fields links p
        → (pk : Packet) (v : List Packet) (last : Packet) → IsPacket fields pk
        → IsUntagged fields pk
        → Gives p pk v last
        → (w : List Packet) × Gives (physical links p) pk w last × LiesOver links w v }
    ensures numbered { (fields : FieldTable) (links : List VirtualLink) (p : Policy)
        → IsFieldTable fields → IsVirtual fields links p
        → (n : ℕ) (pk : Packet) (v : List Packet) (last : Packet) → IsPacket fields pk
        → IsUntagged fields pk
        → Gives p pk v last
        → (w : List Packet) × Gives (marked_from (physical links p) n) pk w last
        × LiesOver links w v }
{}

/// So packets leave the physical policy exactly where they leave the virtual one.
pub fn packets_leave_where_the_virtual_policy_says()
    ensures { (fields : FieldTable) (links : List VirtualLink) (p : Policy)
        → IsFieldTable fields → IsVirtual fields links p
        → (pk last : Packet) → IsPacket fields pk → IsUntagged fields pk
        → ((w : List Packet) × Gives (physical links p) pk w last) ↔
        ((v : List Packet) × Gives p pk v last) }
{}

/// A physical policy is over the fields where the virtual policy and the fabrics are, and its complements are of predicates.
pub fn physical_policies_stay_fit()
    ensures over { (fields : FieldTable) (links : List VirtualLink) (p : Policy)
        → IsOverFields fields p → All (λ k. IsOverFields fields k.fabric) links
        → (n : ℕ) → IsOverFields fields (marked_from (physical links p) n) }
    ensures complements { (links : List VirtualLink) (p : Policy)
        → NegatesPredicates p → All (λ k. NegatesPredicates k.fabric) links
        → (n : ℕ) → NegatesPredicates (marked_from (physical links p) n) }
{}

/// What the virtual policy and the fabrics don't have, the physical policy hasn't: a test or an assignment of the tag, a dup
/// or an assignment of the switch outside of link literals, a literal that is no declared link. Literals of virtual links are
/// all gone.
pub fn physical_policies_stay_plain()
    ensures tag_free { (tag : ℕ) (links : List VirtualLink) (p : Policy) → 2 ≤ tag
        → has_leaf (is_link_outside (map (λ k. k.ends) links)) p ≡ false
        → has_leaf (is_on_field tag) p ≡ false
        → All (λ k. has_leaf (is_on_field tag) k.fabric ≡ false) links
        → (n : ℕ) → has_leaf (is_on_field tag) (marked_from (physical links p) n) ≡ false }
    ensures dups_in_links { (links : List VirtualLink) (p : Policy)
        → has_leaf (is_link_outside (map (λ k. k.ends) links)) p ≡ false
        → has_leaf is_dup p ≡ false
        → All (λ k. has_leaf is_dup k.fabric ≡ false) links
        → (n : ℕ) → has_leaf is_dup (marked_from (physical links p) n) ≡ false }
    ensures switch_in_links { (links : List VirtualLink) (p : Policy)
        → has_leaf (is_link_outside (map (λ k. k.ends) links)) p ≡ false
        → has_leaf is_switch_assignment p ≡ false
        → All (λ k. has_leaf is_switch_assignment k.fabric ≡ false) links
        → (n : ℕ) → has_leaf is_switch_assignment (marked_from (physical links p) n) ≡ false }
    ensures links_declared { (declared : List Link) (links : List VirtualLink) (p : Policy)
        → has_leaf (is_link_outside (map (λ k. k.ends) links)) p ≡ false
        → NegatesPredicates p
        → All (λ k. has_leaf (is_link_outside declared) k.fabric ≡ false) links
        → (n : ℕ) → has_leaf (is_link_outside declared) (marked_from (physical links p) n) ≡ false }
{}

/// A policy without its dups records nothing, and ends where the policy does.
pub fn a_fabric_ends_where_it_does_without_dups()
    ensures { (p : Policy) (pk : Packet) (w : List Packet) (last : Packet)
        → Gives (without_records p) pk w last ↔
        ((w ≡ []) × ((u : List Packet) × Gives p pk u last)) }
{}

/// So a virtual link is carried exactly where from each packet in range without a tag at its start the fabric without its
/// dups ends at the moved packet alone, and does end.
pub fn ends_tell_whether_a_link_is_carried()
    ensures { (fields : FieldTable) (k : VirtualLink) → IsCarried fields k
        ↔ ((x : Packet) → IsPacket fields x → IsUntagged fields x → IsAtStartOf k x
        → ((last : Packet) → Gives (without_records k.fabric) x [] last → last ≡ moved_along k x)
        × ((last : Packet) × Gives (without_records k.fabric) x [] last)) }
{}

/// At most one thing is found of a virtual link: the first history off target is one, and so is the first packet without a
/// history; where one is found, the link isn't carried, and where each history is on target none is off.
pub fn one_carriage()
    ensures off_target { (fields : FieldTable) (k : VirtualLink) (f g : Found)
        → IsFirstOffTarget fields k f → IsFirstOffTarget fields k g → f ≡ g }
    ensures not_carried { (fields : FieldTable) (k : VirtualLink) (x y : Packet)
        → IsFirstNotCarried fields k x → IsFirstNotCarried fields k y → x ≡ y }
    ensures on_target { (fields : FieldTable) (k : VirtualLink) → IsOnTarget fields k
        → (f : Found) → IsOffTarget fields k f → ⊥ }
    ensures carried { (fields : FieldTable) (k : VirtualLink) → IsCarried fields k
        → ((f : Found) → IsOffTarget fields k f → ⊥)
        × ((x : Packet) → IsNotCarried fields k x → ⊥) }
{}

/// At most one thing is answered to a name, unless memory runs out, in programs that say the same: the first reason why it has no
/// physical policy is one, there is none beside a physical policy, and of that there is one.
pub fn one_thing_is_answered_of_a_name()
    ensures reasons { (program other : Program) (name : List ℕ) (r s : VirtualRefusal)
        → program_by program ≡ program_by other
        → AreVirtual program.fields program.topo program.fabrics program.virtuals
        → IsVirtualReason program name r → IsVirtualReason other name s → r ≡ s }
    ensures none { (program other : Program) (name : List ℕ) (q : Policy) (r : VirtualRefusal)
        → program_by program ≡ program_by other
        → IsPhysical program name q → IsVirtualReason other name r → ⊥ }
    ensures policies { (program other : Program) (name : List ℕ) (q s : Policy)
        → program_by program ≡ program_by other
        → IsPhysical program name q → IsPhysical other name s → q ≡ s }
{}

/// A small virtual policy, worked out by hand: from port 1 of switch 1 to switch 3, by switch 2.
pub fn worked_fabric()
    ensures literal { HasHistories across_virtual virtual_history }
    ensures fabric { HasHistories (physical (one_to_three ∷ []) across_virtual) physical_history }
    ensures other_literal { physical (one_to_three ∷ []) (link 1 1 3 2 1) ≡ link 1 1 3 2 1 }
    ensures complement { physical (one_to_three ∷ []) (not_of (test 2 3)) ≡ not_of (test 2 3) }
{}

/// What the laws ask can hold where something happens: of that policy over that fabric, with a packet that crosses.
pub fn worked_premises()
    ensures { HasAllThatIsAsked }
{}
