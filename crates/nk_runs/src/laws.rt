//! Laws of levels over an automaton: label sets of runs, walks, tag sets, and ends.
//!
//! Each function is a theorem: it takes nothing, does nothing, and its contract is the statement. `IsAutomaton` says that
//! states are the automaton of a policy, `At` which set of labels is met at which packet by so many records, `AreLevels` what
//! levels are; `AreTidy` and `HasEachSetOnce` are what a store and sets of labels always are.
ghost use Rattle.std.specs.Prelude.{◌≡◌, true, false, ℕ, Bool, ◌↔◌, ◌∷◌, [], List, length, map, slice_index_or};
ghost use Rattle.nk_field.specs.declared.packet.Packet.{Packet};
ghost use Rattle.nk_field.specs.Order.{Found};
ghost use Rattle.nk_policy.specs.Policy.{Policy};
ghost use Rattle.nk_policy.specs.Meaning.{Gives};
ghost use Rattle.nk_policy.specs.Distinct.{HasDistinct};
ghost use Rattle.nk_policy.specs.Leaves.{has_leaf, is_dup};
ghost use Rattle.nk_policy.specs.Labels.{IsTagSet, AtLeast};
ghost use Rattle.nk_policy.specs.Tags.{AreTags};
ghost use Rattle.nk_store.specs.declared.node.Out.{Out};
ghost use Rattle.nk_store.specs.StoreState.{StoreState, IsStorePacket, Grows, AreTidy};
ghost use Rattle.nk_determ.specs.Sets.{HasEachSetOnce};
ghost use Rattle.nk_determ.specs.Automaton.{IsAutomaton};
ghost use Rattle.nk_determ.specs.States.{StateLeads};
ghost use Rattle.nk_determ.specs.Pairs.{Node, AreStates, AreLabelsBelow, IsStep};
ghost use Rattle.nk_determ.specs.Levels.{At, AreLevels};
ghost use Rattle.nk_determ.specs.InOrder.{IsAtOdd, AreNumbers};
ghost use Rattle.nk_runs.specs.Labels.{IsAmong, IsLabelled, members};
ghost use Rattle.nk_determ.specs.Counterexamples.{Walks, IsCounterexample};
ghost use Rattle.nk_runs.specs.Walked.{IsMetAfter};
ghost use Rattle.nk_runs.specs.Wrong.{AreWrongEnds, HasWrongEnd};

/// An automaton stands while the store grows, and levels can be made of its states.
pub fn automaton_stands()
    ensures stands { (st new : StoreState) (states : List ℕ) (first : ℕ) (p : Policy)
        → IsAutomaton st states first p → Grows st new → IsAutomaton new states first p }
    ensures states { (st : StoreState) (states : List ℕ) (p : Policy) → IsAutomaton st states 1 p
        → AreStates st states }
{}

/// A set is met at a packet after so many records exactly where it has all labels at which runs can be that have recorded
/// so many packets, this one last.
pub fn levels_are_runs()
    ensures { (st : StoreState) (states : List ℕ) (start : ℕ) (p : Policy)
        → IsAutomaton st states 1 p → HasDistinct p → AreTidy st
        → (i : ℕ) (n : Node) → At st states (0 ∷ []) start i n ↔ IsLabelled p
        (IsAmong st start) i n }
{}

/// Where all dups stand in link literals and levels ended without a violation, the sets at odd levels are the tag sets, and
/// their numbers are in the tag sets' order.
pub fn tag_sets_are_numbered()
    ensures exactly { (old new : StoreState) (ss : List (List ℕ)) (states : List ℕ) (set start : ℕ)
        (bad : List ℕ → List ℕ → List Out) (ls : List (List (ℕ × ℕ))) (p : Policy)
        → IsAutomaton old states 1 p → HasDistinct p → AreTidy old → has_leaf is_dup p ≡ false
        → slice_index_or ss set [] ≡ 0 ∷ [] → Grows old new
        → AreLevels old new ss states set start bad ls false
        → (labels : List ℕ) → IsTagSet p (IsAmong old start) labels ↔
        ((s : ℕ) × IsAtOdd ls s × (members ss s ≡ labels)) }
    ensures tags { (old new : StoreState) (ss : List (List ℕ)) (states : List ℕ) (set start : ℕ)
        (bad : List ℕ → List ℕ → List Out) (ls : List (List (ℕ × ℕ))) (r : List ℕ) (p : Policy)
        → IsAutomaton old states 1 p → HasDistinct p → AreTidy old → has_leaf is_dup p ≡ false
        → slice_index_or ss set [] ≡ 0 ∷ [] → HasEachSetOnce ss → Grows old new
        → AreLevels old new ss states set start bad ls false → AreNumbers ss ls r
        → AreTags p (IsAmong old start) (map (members ss) r) }
{}

/// Where so many sets are at odd levels there are at least as many tag sets.
pub fn too_many_tag_sets()
    ensures { (old new : StoreState) (ss : List (List ℕ)) (states : List ℕ) (set start : ℕ)
        (bad : List ℕ → List ℕ → List Out) (ls : List (List (ℕ × ℕ))) (p : Policy)
        → IsAutomaton old states 1 p → HasDistinct p → AreTidy old
        → slice_index_or ss set [] ≡ 0 ∷ [] → HasEachSetOnce ss → Grows old new
        → AreLevels old new ss states set start bad ls false
        → (least : ℕ) → AtLeast least (IsAtOdd ls)
        → AtLeast least (IsTagSet p (IsAmong old start)) }
{}

/// Levels whose violations are the wrong ends of members: where they ended without one no history from a start packet ends
/// wrongly, and where they are broken one does.
pub fn ends_are_met()
    ensures none { (old new : StoreState) (ss : List (List ℕ)) (states : List ℕ) (set start : ℕ)
        (bad : List ℕ → List ℕ → List Out) (ls : List (List (ℕ × ℕ))) (p : Policy)
        (wrong : Packet → Bool)
        → IsAutomaton old states 1 p → HasDistinct p → AreTidy old
        → slice_index_or ss set [] ≡ 0 ∷ [] → AreWrongEnds old states wrong bad
        → AreLevels old new ss states set start bad ls false
        → HasWrongEnd p (IsAmong old start) wrong → ⊥ }
    ensures some { (old new : StoreState) (ss : List (List ℕ)) (states : List ℕ) (set start : ℕ)
        (bad : List ℕ → List ℕ → List Out) (ls : List (List (ℕ × ℕ))) (p : Policy)
        (wrong : Packet → Bool)
        → IsAutomaton old states 1 p → HasDistinct p → AreTidy old
        → slice_index_or ss set [] ≡ 0 ∷ [] → AreWrongEnds old states wrong bad
        → AreLevels old new ss states set start bad ls true
        → HasWrongEnd p (IsAmong old start) wrong }
{}

/// Walks along set states from the start at a packet are runs from that packet: records are walked to a set exactly where it has
/// all positions at which runs can be that have recorded exactly these packets, and the walk ends at the last of them.
pub fn walks_are_runs()
    ensures runs { (st : StoreState) (states : List ℕ) (p : Policy) → IsAutomaton st states 1 p
        → HasDistinct p → AreTidy st
        → (pk : Packet) (u : List Packet) (n : Node) → IsStorePacket st pk
        → Walks (IsStep st states) (0 ∷ [], pk) u n ↔ IsMetAfter p pk u n }
    ensures places { (st : StoreState) (states : List ℕ) (p : Policy) → IsAutomaton st states 1 p
        → HasDistinct p → AreTidy st
        → (pk : Packet) (u : List Packet) (n : Node) → IsStorePacket st pk
        → Walks (IsStep st states) (0 ∷ [], pk) u n
        → IsStorePacket st n.1 × AreLabelsBelow (length states) n.0 }
{}

/// A policy's histories are the ends of walks: its records are walked, and it has the history exactly where some member of the
/// set that is met after them has a state that ends at the last packet.
pub fn ends_are_histories()
    ensures ends { (st : StoreState) (states : List ℕ) (p : Policy) → IsAutomaton st states 1 p
        → HasDistinct p → AreTidy st
        → (pk : Packet) (u : List Packet) (n : Node) (last : Packet) → IsStorePacket st pk
        → Walks (IsStep st states) (0 ∷ [], pk) u n
        → Gives p pk u last ↔ StateLeads st states n.0 n.1 last 0 }
    ensures walked { (st : StoreState) (states : List ℕ) (p : Policy) → IsAutomaton st states 1 p
        → HasDistinct p → AreTidy st
        → (pk : Packet) (u : List Packet) (last : Packet) → IsStorePacket st pk → Gives p pk u last
        → (n : Node) × Walks (IsStep st states) (0 ∷ [], pk) u n }
{}

/// Where violations are the wrong ends of members, a history breaks the goal exactly where it is the policy's, from a start
/// packet, and ends wrongly.
pub fn wrong_ends_break()
    ensures { (st : StoreState) (states : List ℕ) (start : ℕ) (bad : List ℕ → List ℕ → List Out)
        (p : Policy) (wrong : Packet → Bool)
        → IsAutomaton st states 1 p → HasDistinct p → AreTidy st → AreWrongEnds st states wrong bad
        → (f : Found) → IsCounterexample st states (0 ∷ []) start bad f
        ↔ (IsAmong st start f.start × Gives p f.start f.records f.last × (wrong f.last ≡ true)) }
{}
