//! Laws of plans.
ghost use Rattle.std.specs.Prelude.{◌≡◌, ◌≤◌, ◌<◌, ℕ, List, [], slice_index};
ghost use Rattle.nk_table.specs.declared.Tables.{Tables};
ghost use Rattle.nk_table.specs.Rules.{sent_for};
ghost use Rattle.nk_update.specs.Plans.{Pair, IsPlannable};
ghost use Rattle.nk_update.specs.Steps.{plan_steps_of, plan_of, tables_after, AreFourTables};
ghost use Rattle.nk_update.specs.Tags.{HaveTheirTags};
ghost use Rattle.nk_update.specs.Worked.{worked_pair, grouped_pair, GroupsGoOn};

/// With so many plan steps done at its switch, a packet is handled by the rows of its own tag alone: with an old tag by the
/// old tables until the third step; with a new one by the new tables from the first step on; with tag 0 by the old tables
/// until the second step, and by the new ones from there.
pub fn lookup_by_tag()
    ensures old_tag { (p : Pair) (steps : ℕ) (pk : List ℕ) → IsPlannable p
        → let tag = slice_index pk p.tag in
        1 ≤ tag → tag ≤ p.old_tags → steps ≤ 2
        → sent_for (tables_after (plan_of p) steps) pk ≡ sent_for p.old pk }
    ensures old_tag_gone { (p : Pair) (steps : ℕ) (pk : List ℕ) → IsPlannable p
        → let tag = slice_index pk p.tag in
        1 ≤ tag → tag ≤ p.old_tags → 3 ≤ steps → sent_for (tables_after (plan_of p) steps) pk ≡ [] }
    ensures new_tag { (p : Pair) (steps : ℕ) (pk : List ℕ) → IsPlannable p
        → let tag = slice_index pk p.tag in
        p.old_tags < tag → 1 ≤ steps
        → sent_for (tables_after (plan_of p) steps) pk ≡ sent_for p.new pk }
    ensures no_new_tag { (p : Pair) (steps : ℕ) (pk : List ℕ) → IsPlannable p
        → let tag = slice_index pk p.tag in
        p.old_tags < tag → steps < 1 → sent_for (tables_after (plan_of p) steps) pk ≡ [] }
    ensures untagged_before { (p : Pair) (steps : ℕ) (pk : List ℕ) → IsPlannable p
        → slice_index pk p.tag ≡ 0
        → steps ≤ 1 → sent_for (tables_after (plan_of p) steps) pk ≡ sent_for p.old pk }
    ensures untagged_after { (p : Pair) (steps : ℕ) (pk : List ℕ) → IsPlannable p
        → slice_index pk p.tag ≡ 0
        → 2 ≤ steps → sent_for (tables_after (plan_of p) steps) pk ≡ sent_for p.new pk }
{}

/// The four tables of a switch are the old one, and those after each of its three plan steps.
pub fn the_four_tables()
    ensures { (old new : Tables) (tag sw : ℕ)
        → AreFourTables old new tag sw (plan_steps_of old new tag sw) }
{}

/// A plan that is worked by hand.
pub fn a_worked_plan()
    ensures groups { GroupsGoOn }
    ensures plannable { IsPlannable grouped_pair }
{}

/// Tables that meet the conditions of a plan, and whose crossing copies have their tags.
pub fn worked_tables_meet_the_conditions()
    ensures plannable { IsPlannable worked_pair }
    ensures tags { HaveTheirTags worked_pair }
{}
