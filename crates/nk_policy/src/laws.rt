//! Laws of runs: how far a run of a policy has come, what is left of the policy there, and the sets of positions.
//!
//! Each function is a theorem: it takes nothing, does nothing, and its contract is the statement. `Gives` is the meaning
//! of a policy on packets and histories, `Runs` the same with the number of its dup beside each record, `RecordsAt` a
//! run so far, whose last step is a dup, and `after` what is left of a policy after one of its dups.
ghost use Rattle.std.specs.Prelude.{◌≡◌, ◌≤◌, ◌+◌, ◌*◌, true, false, ℕ, ◌↔◌, ◌++◌, ◌∷◌, [], List, length, map, All, Contains};
ghost use Rattle.std.specs.List.{range_with_len};
ghost use Rattle.nk_field.specs.declared.packet.Packet.{Packet};
ghost use Rattle.nk_field.specs.Packet.{FieldTable, IsPacket};
ghost use Rattle.nk_policy.specs.Policy.{Policy, test, range, assign, sum_of, seq_of, not_of, dup, link, no_part, marked_from, without_links, depth_of, size_of, dups_of, numbers_of, is_predicate};
ghost use Rattle.nk_policy.specs.Meaning.{Gives, Runs};
ghost use Rattle.nk_policy.specs.Progress.{Marked, RecordsAt};
ghost use Rattle.nk_policy.specs.After.{after, has_dup};
ghost use Rattle.nk_policy.specs.Distinct.{HasDistinct};
ghost use Rattle.nk_policy.specs.Labels.{HasRecorded, HasExactly};
ghost use Rattle.nk_policy.specs.PositionSets.{at_position, IsPosition, last_from, IsOwn, IsRecordedNext, IsNextOfEither, IsPositionOfEither, StepsTo, IsNumbered, AreSides};
ghost use Rattle.nk_policy.specs.Leaves.{has_leaf, is_dup, is_switch_assignment};
ghost use Rattle.nk_policy.specs.Literals.{Literal, HoldsLiteral, IsAtSource};
ghost use Rattle.nk_policy.specs.Crossings.{RecordsAtSources, IsBetween, IsOnLink};
ghost use Rattle.nk_policy.specs.Ranges.{IsInRange, IsOverFields};
ghost use Rattle.nk_policy.specs.Worked.{packet, start, ending, sum2, seq2, over_one_link, HasHistories, Keeps, Drops};

/// A history is a run whose numbers are forgotten.
pub fn a_history_is_a_run()
    ensures { (p : Policy) (pk : Packet) (w : List Packet) (y : Packet)
        → Gives p pk w y ↔ ((v : Marked) × (map (λ r. r.0) v ≡ w) × Runs p pk v y) }
{}

/// The numbers in a run, complete or so far, are those of the policy's dups; and so are the dups of what is left.
pub fn runs_have_the_policys_dups()
    ensures complete { (p : Policy) (pk : Packet) (v : Marked) (y : Packet)
        → Runs p pk v y → All (λ r. has_dup p r.1 ≡ true) v }
    ensures so_far { (p : Policy) (pk : Packet) (u : Marked) (x : Packet) (l : ℕ)
        → RecordsAt p pk u x l → All (λ r. has_dup p r.1 ≡ true) (u ++ (x, l) ∷ []) }
    ensures rest { (p : Policy) (k l : ℕ) → has_dup (after p k) l ≡ true → has_dup p l ≡ true }
{}

/// A run that records x at dup l is a run so far that ends there, followed by a run of what is left after the dup.
pub fn a_run_splits()
    ensures complete { (p : Policy) → HasDistinct p
        → (pk : Packet) (u : Marked) (x : Packet) (l : ℕ) (v : Marked) (y : Packet)
        → Runs p pk (u ++ (x, l) ∷ v) y ↔ (RecordsAt p pk u x l × Runs (after p l) x v y) }
    ensures so_far { (p : Policy) → HasDistinct p
        → (pk : Packet) (u : Marked) (x : Packet) (l : ℕ) (v : Marked) (y : Packet) (l' : ℕ)
        → RecordsAt p pk (u ++ (x, l) ∷ v) y l' ↔
        (RecordsAt p pk u x l × RecordsAt (after p l) x v y l') }
{}

/// A run of what is left after dup k splits in the same way, and the second run is a run of what is left of the whole policy.
pub fn a_rest_splits()
    ensures complete { (p : Policy) → HasDistinct p
        → (k : ℕ) (pk : Packet) (u : Marked) (x : Packet) (l : ℕ) (v : Marked) (y : Packet)
        → Runs (after p k) pk (u ++ (x, l) ∷ v) y
        ↔ (RecordsAt (after p k) pk u x l × Runs (after p l) x v y) }
    ensures so_far { (p : Policy) → HasDistinct p
        → (k : ℕ) (pk : Packet) (u : Marked) (x : Packet) (l : ℕ) (v : Marked) (y : Packet) (l' : ℕ)
        → RecordsAt (after p k) pk (u ++ (x, l) ∷ v) y l'
        ↔ (RecordsAt (after p k) pk u x l × RecordsAt (after p l) x v y l') }
{}

/// First step: a run whose first record is x at dup l is a run so far to there, followed by a run of what is left after
/// l.
pub fn first_step()
    ensures complete { (p : Policy) → HasDistinct p
        → (pk x : Packet) (l : ℕ) (v : Marked) (y : Packet)
        → Runs p pk ((x, l) ∷ v) y ↔ (RecordsAt p pk [] x l × Runs (after p l) x v y) }
    ensures so_far { (p : Policy) → HasDistinct p
        → (pk x : Packet) (l : ℕ) (v : Marked) (y : Packet) (l' : ℕ)
        → RecordsAt p pk ((x, l) ∷ v) y l' ↔
        (RecordsAt p pk [] x l × RecordsAt (after p l) x v y l') }
{}

/// Next step: a run of what is left after k whose next record is y at l is a run so far to there, followed by a run of
/// what is left of the policy after l.
pub fn next_step()
    ensures complete { (p : Policy) → HasDistinct p
        → (k : ℕ) (x y : Packet) (l : ℕ) (v : Marked) (z : Packet)
        → Runs (after p k) x ((y, l) ∷ v) z ↔
        (RecordsAt (after p k) x [] y l × Runs (after p l) y v z) }
    ensures so_far { (p : Policy) → HasDistinct p
        → (k : ℕ) (x y : Packet) (l : ℕ) (v : Marked) (z : Packet) (l' : ℕ)
        → RecordsAt (after p k) x ((y, l) ∷ v) z l'
        ↔ (RecordsAt (after p k) x [] y l × RecordsAt (after p l) y v z l') }
{}

/// Last step: a run so far that records one packet after (x, l) is one to (x, l), followed by one step of what is left
/// after l; and a complete run whose last record is (x, l) is one so far to there, followed by an end without a record.
pub fn last_step()
    ensures step { (p : Policy) → HasDistinct p
        → (pk : Packet) (u : Marked) (x : Packet) (l : ℕ) (y : Packet) (l' : ℕ)
        → RecordsAt p pk (u ++ (x, l) ∷ []) y l' ↔
        (RecordsAt p pk u x l × RecordsAt (after p l) x [] y l') }
    ensures end { (p : Policy) → HasDistinct p
        → (pk : Packet) (u : Marked) (x : Packet) (l : ℕ) (y : Packet)
        → Runs p pk (u ++ (x, l) ∷ []) y ↔ (RecordsAt p pk u x l × Runs (after p l) x [] y) }
{}

/// Where a run is after one record, and after one more, and where it ends, by its packets alone.
pub fn a_run_goes_on_by_one()
    ensures first { (p : Policy) → HasDistinct p
        → (pk y : Packet) (l : ℕ) → HasRecorded p pk (y ∷ []) l ↔ RecordsAt p pk [] y l }
    ensures next { (p : Policy) → HasDistinct p
        → (pk : Packet) (u : List Packet) (x y : Packet) (l' : ℕ)
        → HasRecorded p pk ((u ++ x ∷ []) ++ y ∷ []) l'
        ↔ ((l : ℕ) × HasRecorded p pk (u ++ x ∷ []) l × RecordsAt (after p l) x [] y l') }
    ensures end { (p : Policy) → HasDistinct p
        → (pk : Packet) (u : List Packet) (x z : Packet)
        → Gives p pk (u ++ x ∷ []) z
        ↔ ((l : ℕ) × HasRecorded p pk (u ++ x ∷ []) l × Gives (after p l) x [] z) }
{}

/// The label set after one more record has exactly the labels at which its members record next, and the policy ends
/// where a member does.
pub fn label_sets_follow()
    ensures next { (p : Policy) → HasDistinct p
        → (pk : Packet) (u : List Packet) (x y : Packet) (s next : List ℕ)
        → HasExactly (HasRecorded p pk (u ++ x ∷ [])) s
        → HasExactly (HasRecorded p pk ((u ++ x ∷ []) ++ y ∷ [])) next
        ↔ HasExactly (λ l'. (l : ℕ) × Contains s l × RecordsAt (after p l) x [] y l') next }
    ensures end { (p : Policy) → HasDistinct p
        → (pk : Packet) (u : List Packet) (x z : Packet) (s : List ℕ)
        → HasExactly (HasRecorded p pk (u ++ x ∷ [])) s
        → Gives p pk (u ++ x ∷ []) z ↔ ((l : ℕ) × Contains s l × Gives (after p l) x [] z) }
{}

/// The set of positions after any records is the one to which stepping from position 0, set by set, leads; and a policy
/// gives a history exactly where some member of the set of its records ends at its last packet without another record.
pub fn one_policys_sets()
    ensures start { (p : Policy) (pk : Packet) → HasExactly (IsPosition p pk []) (0 ∷ []) }
    ensures next { (p : Policy) → IsNumbered p
        → (pk : Packet) (u : List Packet) (y : Packet) (s next : List ℕ)
        → HasExactly (IsPosition p pk u) s
        → HasExactly (IsPosition p pk (u ++ y ∷ [])) next
        ↔ HasExactly (IsRecordedNext p s (last_from pk u) y) next }
    ensures steps { (p : Policy) → IsNumbered p
        → (pk : Packet) (u : List Packet) (s t : List ℕ)
        → StepsTo (IsRecordedNext p) (0 ∷ []) pk u t → HasExactly (IsPosition p pk u) s ↔ (s ≡ t) }
    ensures end { (p : Policy) → IsNumbered p
        → (pk : Packet) (u : List Packet) (z : Packet) (s : List ℕ)
        → HasExactly (IsPosition p pk u) s
        → Gives p pk u z
        ↔ ((l : ℕ) × Contains s l × Gives (at_position p l) (last_from pk u) [] z) }
{}

/// The set of positions of two policies that share no number, after any records, is the one to which stepping from position 0,
/// set by set, leads. One set has the positions of both, the start of both is position 0, and each side's positions and
/// histories are those of its own members.
pub fn two_policies_sets()
    ensures start { (p q : Policy) → AreSides p q
        → (pk : Packet) → HasExactly (IsPositionOfEither p q pk []) (0 ∷ []) }
    ensures next { (p q : Policy) → AreSides p q
        → (pk : Packet) (u : List Packet) (y : Packet) (s next : List ℕ)
        → HasExactly (IsPositionOfEither p q pk u) s
        → HasExactly (IsPositionOfEither p q pk (u ++ y ∷ [])) next
        ↔ HasExactly (IsNextOfEither p q s (last_from pk u) y) next }
    ensures steps { (p q : Policy) → AreSides p q
        → (pk : Packet) (u : List Packet) (s t : List ℕ)
        → StepsTo (IsNextOfEither p q) (0 ∷ []) pk u t
        → HasExactly (IsPositionOfEither p q pk u) s ↔ (s ≡ t) }
    ensures left_members { (p q : Policy) → AreSides p q
        → (pk : Packet) (u : List Packet) (s : List ℕ)
        → HasExactly (IsPositionOfEither p q pk u) s
        → (l : ℕ) → (Contains s l × IsOwn p l) ↔ IsPosition p pk u l }
    ensures right_members { (p q : Policy) → AreSides p q
        → (pk : Packet) (u : List Packet) (s : List ℕ)
        → HasExactly (IsPositionOfEither p q pk u) s
        → (l : ℕ) → (Contains s l × IsOwn q l) ↔ IsPosition q pk u l }
    ensures left_end { (p q : Policy) → AreSides p q
        → (pk : Packet) (u : List Packet) (z : Packet) (s : List ℕ)
        → HasExactly (IsPositionOfEither p q pk u) s
        → Gives p pk u z
        ↔ ((l : ℕ) × Contains s l × IsOwn p l × Gives (at_position p l) (last_from pk u) [] z) }
    ensures right_end { (p q : Policy) → AreSides p q
        → (pk : Packet) (u : List Packet) (z : Packet) (s : List ℕ)
        → HasExactly (IsPositionOfEither p q pk u) s
        → Gives q pk u z
        ↔ ((l : ℕ) × Contains s l × IsOwn q l × Gives (at_position q l) (last_from pk u) [] z) }
{}

/// Where all dups stand in link literals, runs record at the source of a link and then at its target, in turn. From the
/// first dup of a literal the only step is the move across its link. Where besides no assignment outside literals sets
/// the switch, packets stay at their switch between links.
pub fn links_take_turns()
    ensures start { (p : Policy) → has_leaf is_dup p ≡ false → RecordsAtSources (HoldsLiteral p) p }
    ensures on_link { (p : Policy) → HasDistinct p
        → (k : Literal) → HoldsLiteral p k → IsOnLink k (after p k.mark) }
    ensures off_link { (p : Policy) → HasDistinct p → has_leaf is_dup p ≡ false
        → (k : Literal) → HoldsLiteral p k
        → RecordsAtSources (HoldsLiteral p) (after p (k.mark + 1)) }
    ensures start_stays { (p : Policy)
        → has_leaf is_dup p ≡ false → has_leaf is_switch_assignment p ≡ false
        → IsBetween (HoldsLiteral p) p }
    ensures off_link_stays { (p : Policy) → HasDistinct p
        → has_leaf is_dup p ≡ false → has_leaf is_switch_assignment p ≡ false
        → (k : Literal) → HoldsLiteral p k → IsBetween (HoldsLiteral p) (after p (k.mark + 1)) }
{}

/// So odd lists of records end at first dups, at the source of their link, even ones at second dups, and histories are
/// even.
pub fn records_alternate()
    ensures odd { (p : Policy) → HasDistinct p → has_leaf is_dup p ≡ false
        → (n : ℕ) (pk : Packet) (u : List Packet) (l : ℕ) → length u ≡ 2 * n + 1
        → HasRecorded p pk u l
        → (k : Literal) × HoldsLiteral p k × (k.mark ≡ l)
        × ((front : List Packet) × (x : Packet) × (u ≡ front ++ x ∷ []) × IsAtSource k x) }
    ensures even { (p : Policy) → HasDistinct p → has_leaf is_dup p ≡ false
        → (n : ℕ) (pk : Packet) (u : List Packet) (l : ℕ) → length u ≡ 2 * n + 2
        → HasRecorded p pk u l
        → (k : Literal) × HoldsLiteral p k × (k.mark + 1 ≡ l) }
    ensures histories { (p : Policy) → HasDistinct p → has_leaf is_dup p ≡ false
        → (pk : Packet) (w : List Packet) (z : Packet) → Gives p pk w z → (n : ℕ)
        × (length w ≡ 2 * n) }
{}

/// A policy that is numbered from n on has the numbers n, n + 1 and so on in text order, so its dups have different
/// numbers; and two policies of which one is numbered after the other share none.
pub fn numbered_dups_differ()
    ensures in_order { (p : Policy) (n : ℕ)
        → numbers_of (marked_from p n) ≡ range_with_len n (dups_of p) }
    ensures listed { (p : Policy) (l : ℕ) → Contains (numbers_of p) l ↔ (has_dup p l ≡ true) }
    ensures distinct { (p : Policy) (n : ℕ) → marked_from p n ≡ p → HasDistinct p }
    ensures apart { (p q : Policy) (n m : ℕ) → marked_from p n ≡ p → marked_from q m ≡ q
        → n + dups_of p ≤ m → (l : ℕ) → has_dup p l ≡ true → has_dup q l ≡ true → ⊥ }
    ensures numbered { (p : Policy) (n : ℕ) → 1 ≤ n → marked_from p n ≡ p → IsNumbered p }
    ensures sides { (p q : Policy) (n : ℕ) → 1 ≤ n
        → marked_from p n ≡ p → marked_from q (n + dups_of p) ≡ q → AreSides p q }
{}

/// A policy that is numbered anew gives the same histories and has the same shape; to number it once more changes
/// nothing, and neither does numbering a policy that has no dup.
pub fn numbering_keeps()
    ensures meaning { (p : Policy) (n : ℕ) (pk : Packet) (w : List Packet) (y : Packet)
        → Gives (marked_from p n) pk w y ↔ Gives p pk w y }
    ensures depth { (p : Policy) (n : ℕ) → depth_of (marked_from p n) ≡ depth_of p }
    ensures size { (p : Policy) (n : ℕ) → size_of (marked_from p n) ≡ size_of p }
    ensures dups { (p : Policy) (n : ℕ) → dups_of (marked_from p n) ≡ dups_of p }
    ensures predicate { (p : Policy) (n : ℕ) → is_predicate (marked_from p n) ≡ is_predicate p }
    ensures again { (p : Policy) (m n : ℕ) → marked_from (marked_from p m) n ≡ marked_from p n }
    ensures dupless { (p : Policy) (n : ℕ) → dups_of p ≡ 0 → marked_from p n ≡ p }
{}

/// A policy with its link literals written out gives the same histories, has the same runs, complete and so far, and
/// the same dups.
pub fn written_out_links_keep()
    ensures meaning { (p : Policy) (pk : Packet) (w : List Packet) (y : Packet)
        → Gives (without_links p) pk w y ↔ Gives p pk w y }
    ensures runs { (p : Policy) (pk : Packet) (v : Marked) (y : Packet)
        → Runs (without_links p) pk v y ↔ Runs p pk v y }
    ensures so_far { (p : Policy) (pk : Packet) (u : Marked) (x : Packet) (l : ℕ)
        → RecordsAt (without_links p) pk u x l ↔ RecordsAt p pk u x l }
    ensures dups { (p : Policy) (l : ℕ) → has_dup (without_links p) l ≡ has_dup p l }
{}

/// A policy over the fields sets them to values in range, and is still over them when it is numbered anew, when its link
/// literals are written out, and in what is left of it after a dup.
pub fn policies_stay_over_fields()
    ensures in_range { (fields : FieldTable) (p : Policy) → IsOverFields fields p
        → IsInRange p fields }
    ensures numbered { (fields : FieldTable) (p : Policy) (n : ℕ)
        → IsOverFields fields (marked_from p n) ↔ IsOverFields fields p }
    ensures written_out { (fields : FieldTable) (p : Policy)
        → IsOverFields fields (without_links p) ↔ IsOverFields fields p }
    ensures rest { (fields : FieldTable) (p : Policy) (l : ℕ)
        → IsOverFields fields p → IsOverFields fields (after p l) }
{}

/// From a packet in range, a policy that sets fields to values in range records and ends at packets in range; and so
/// does what is left of it.
pub fn runs_stay_in_range()
    ensures ends { (fields : FieldTable) (p : Policy) → IsInRange p fields
        → (pk : Packet) (w : List Packet) (y : Packet)
        → Gives p pk w y → IsPacket fields pk → IsPacket fields y }
    ensures records { (fields : FieldTable) (p : Policy) → IsInRange p fields
        → (pk : Packet) (u : Marked) (x : Packet) (l : ℕ)
        → RecordsAt p pk u x l → IsPacket fields pk → IsPacket fields x }
    ensures rest { (fields : FieldTable) (p : Policy) → IsInRange p fields
        → (k : ℕ) → IsInRange (after p k) fields }
{}

/// The histories of small policies, worked out by hand.
pub fn worked_histories()
    ensures id { Keeps (seq_of no_part) }
    ensures drop { Drops (sum_of no_part) }
    ensures test_passes { Keeps (test 2 3) }
    ensures test_fails { Drops (test 2 2) }
    ensures range_passes { Keeps (range 2 3 3) × Keeps (range 2 0 7) }
    ensures range_fails { Drops (range 2 0 2) × Drops (range 2 4 7) }
    ensures range_of_no_value { Drops (range 2 4 3) × Drops (range 2 3 2) }
    ensures complement_of_true { Drops (not_of (test 2 3)) }
    ensures complement_of_false { Keeps (not_of (test 2 2)) }
    ensures assignment { HasHistories (assign 1 2) (ending [] (packet 1 2 3) ∷ []) }
    ensures dup { HasHistories (dup 1) (ending (start ∷ []) start ∷ []) }
    ensures sum { HasHistories (sum2 (assign 1 1) (assign 1 2))
        (ending [] (packet 1 1 3) ∷ ending [] (packet 1 2 3) ∷ []) }
    ensures sum_of_the_same { HasHistories (sum2 (test 2 3) (test 1 1))
        (ending [] start ∷ ending [] start ∷ []) }
    ensures set_then_record { HasHistories (seq2 (assign 1 2) (dup 1))
        (ending (packet 1 2 3 ∷ []) (packet 1 2 3) ∷ []) }
    ensures record_then_set { HasHistories (seq2 (dup 1) (assign 1 2))
        (ending (packet 1 1 3 ∷ []) (packet 1 2 3) ∷ []) }
    ensures sum_then_record { HasHistories (seq2 (sum2 (assign 1 1) (assign 1 2)) (dup 1))
        (ending (packet 1 1 3 ∷ []) (packet 1 1 3) ∷ ending (packet 1 2 3 ∷ []) (packet 1 2 3)
        ∷ []) }
    ensures link_from_here { HasHistories (link 1 1 2 5 1)
        (ending (packet 1 1 3 ∷ packet 2 5 3 ∷ []) (packet 2 5 3) ∷ []) }
    ensures link_from_elsewhere { Drops (link 1 2 2 1 1) }
    ensures path { HasHistories over_one_link
        (ending (packet 1 2 3 ∷ packet 2 1 3 ∷ []) (packet 2 2 3) ∷ []) }
{}
