//! Laws of sets of labels that are alike, and of classes.
//!
//! Each function is a theorem: it takes nothing, does nothing, and its contract is the statement. `SetGives` says which
//! histories a set of labels gives from a packet, `AreAlike` that two sets give the same from every packet in range.
ghost use Rattle.std.specs.Prelude.{◌≡◌, true, ℕ, ◌<◌, ◌↔◌, ◌∷◌, [], List, Contains, length, map};
ghost use Rattle.nk_field.specs.declared.packet.Packet.{Packet};
ghost use Rattle.nk_policy.specs.Policy.{Policy};
ghost use Rattle.nk_policy.specs.Meaning.{Gives};
ghost use Rattle.nk_policy.specs.Distinct.{HasDistinct};
ghost use Rattle.nk_policy.specs.After.{has_dup};
ghost use Rattle.nk_store.specs.StoreState.{StoreState, IsStorePacket, Grows, AreTidy};
ghost use Rattle.nk_determ.specs.Automaton.{IsAutomaton};
ghost use Rattle.nk_determ.specs.Pairs.{AreStates, AreLabelsBelow};
ghost use Rattle.nk_merge.specs.Alike.{SetGives, AreAlike, AreTagsAlike};
ghost use Rattle.nk_merge.specs.Classes.{AreClasses};
ghost use Rattle.nk_merge.specs.SumsAfter.{sum_after};
ghost use Rattle.nk_merge.specs.DisjointCopies.{again, label_count, AreDisjointCopies, IsDisjointCopy};
ghost use Rattle.nk_merge.specs.declared.disjoint_copy.DisjointCopy.{DisjointCopy};

/// To be alike is an equivalence.
pub fn alike_sets_are_an_equivalence()
    ensures itself { (st : StoreState) (states s : List ℕ) → AreAlike st states s s }
    ensures back { (st : StoreState) (states s t : List ℕ) → AreAlike st states s t
        → AreAlike st states t s }
    ensures on { (st : StoreState) (states s t u : List ℕ) → AreAlike st states s t
        → AreAlike st states t u → AreAlike st states s u }
{}

/// What a set gives stays while the store grows, and so do the states with each label twice.
pub fn sets_give_as_the_store_grows()
    ensures gives { (old new : StoreState) (states : List ℕ) → Grows old new → AreStates old states
        → (set x : List ℕ) (w : List (List ℕ)) (y : List ℕ) → AreLabelsBelow (length states) set
        → IsStorePacket old x
        → SetGives old states set x w y ↔ SetGives new states set x w y }
    ensures alike { (old new : StoreState) (states : List ℕ) → Grows old new → AreStates old states
        → (s t : List ℕ) → AreLabelsBelow (length states) s → AreLabelsBelow (length states) t
        → AreAlike old states s t ↔ AreAlike new states s t }
    ensures disjoint { (old new : StoreState) (states : List ℕ) (t : DisjointCopy) → Grows old new
        → IsDisjointCopy old states t → IsDisjointCopy new states t }
{}

/// A set gives what its members give.
pub fn a_set_gives_what_its_members_give()
    ensures { (st : StoreState) (states : List ℕ) → AreStates st states → AreTidy st
        → (set x : List ℕ) (w : List (List ℕ)) (y : List ℕ) → AreLabelsBelow (length states) set
        → IsStorePacket st x
        → SetGives st states set x w y ↔
        ((l : ℕ) × Contains set l × SetGives st states (l ∷ []) x w y) }
{}

/// Of states with each label twice, each copy of a set gives what the set gives.
pub fn each_copy_gives_the_same()
    ensures once { (st : StoreState) (states rows : List ℕ) → AreStates st states → AreTidy st
        → AreDisjointCopies st states rows
        → (set x : List ℕ) (w : List (List ℕ)) (y : List ℕ) → AreLabelsBelow (length states) set
        → IsStorePacket st x
        → SetGives st rows set x w y ↔ SetGives st states set x w y }
    ensures disjoint { (st : StoreState) (states rows : List ℕ) → AreStates st states → AreTidy st
        → AreDisjointCopies st states rows
        → (set x : List ℕ) (w : List (List ℕ)) (y : List ℕ) → AreLabelsBelow (length states) set
        → ((l : ℕ) → Contains set l → 0 < l) → IsStorePacket st x
        → SetGives st rows (map (again
        (label_count states)) set) x w y ↔ SetGives st states set x w y }
{}

/// Two lists of the numbers of the classes of the same tags are one.
pub fn classes_have_one_numbering()
    ensures { (st : StoreState) (states : List ℕ) (ss : List (List ℕ)) (tags : List ℕ) (count : ℕ)
        (a b : List ℕ)
        → AreClasses (AreTagsAlike st states ss tags) count a
        → AreClasses (AreTagsAlike st states ss tags) count b → a ≡ b }
{}

/// Over the automaton of a policy a set of the policy's dups gives what is left of the policy after them, as a sum. So two such
/// sets are alike exactly where these sums have the same histories from every packet in range.
pub fn sets_give_what_is_left()
    ensures gives { (st : StoreState) (states : List ℕ) (p : Policy) → IsAutomaton st states 1 p
        → HasDistinct p → AreTidy st
        → (set : List ℕ) → ((l : ℕ) → Contains set l → has_dup p l ≡ true)
        → (x : Packet) (w : List Packet) (y : Packet) → IsStorePacket st x
        → SetGives st states set x w y ↔ Gives (sum_after p set) x w y }
    ensures alike { (st : StoreState) (states : List ℕ) (p : Policy) → IsAutomaton st states 1 p
        → HasDistinct p → AreTidy st
        → (s t : List ℕ) → ((l : ℕ) → Contains s l → has_dup p l ≡ true)
        → ((l : ℕ) → Contains t l → has_dup p l ≡ true)
        → AreAlike st states s t
        ↔ ((x : Packet) → IsStorePacket st x → (w : List Packet) (y : Packet)
        → Gives (sum_after p s) x w y ↔ Gives (sum_after p t) x w y) }
{}
