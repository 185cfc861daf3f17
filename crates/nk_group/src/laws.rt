//! Laws of groups.
ghost use Rattle.nk_group.specs.Groups.{GroupsKeepBuckets, GroupsDiffer, GroupsKeepTheChoice};

/// Each row keeps its priority and matches, and its target names its buckets.
pub fn groups_keep_buckets()
    ensures { GroupsKeepBuckets }
{}

/// No two groups have one bucket list.
pub fn groups_differ()
    ensures { GroupsDiffer }
{}

/// At each packet the rows with groups choose the same buckets as the plain rows.
pub fn groups_keep_the_choice()
    ensures { GroupsKeepTheChoice }
{}
