//! Rows and their groups.
use nk_field::{Act, List};
use nk_group::group_rows;
use nk_table::{Bucket, Exit, Group, Plain, Row, Target};
use std::alloc::{AllocError, Global};
use std::test::Fail;

/// The rows: a priority, and the ports of the buckets.
const ROWS: [(u16, &[u16]); 5] = [
    (9, &[]),
    (8, &[7]),
    (4, &[1, 2]),
    (2, &[2, 1]),
    (1, &[1, 2]),
];

/// Buckets that send to these ports.
fn buckets(alloc: Global, ports: &[u16]) -> Result<List<Bucket>, AllocError> {
    let mut buckets = List::new(alloc);
    for port in ports {
        buckets.push(Bucket {
            sets: Act::none(alloc),
            exit: Exit::Port(*port),
        })?;
    }
    Ok(buckets)
}

/// The rows, each for all packets.
fn plain_rows(alloc: Global) -> Result<Vec<Plain>, AllocError> {
    let mut all = Vec::new(alloc);
    for (priority, ports) in ROWS {
        all.push(Plain {
            priority,
            matches: List::new(alloc),
            buckets: buckets(alloc, ports)?,
        })?;
    }
    Ok(all)
}

/// Whether the rows send where they should: none and one bucket need no group, and the last row has the group of the third.
fn are_targets(rows: &[Row]) -> bool {
    rows.len() == 5
        && rows[0].priority == 9
        && matches!(&rows[0].target, Target::Discard)
        && matches!(&rows[1].target, Target::Bucket(b) if b.exit == Exit::Port(7))
        && matches!(&rows[2].target, Target::Group(1))
        && matches!(&rows[3].target, Target::Group(2))
        && matches!(&rows[4].target, Target::Group(1))
}

/// Whether the two groups are numbered by first use, and the second one has its buckets in order.
fn are_groups(groups: &[Group]) -> bool {
    groups.len() == 2
        && groups[0].number == 1
        && groups[1].number == 2
        && groups[1].buckets.len() == 2
        && groups[1].buckets.at(0).exit == Exit::Port(2)
}

/// Whether that holds of what is made of the rows.
fn are_numbered_by_first_use(alloc: Global) -> Result<bool, AllocError> {
    let (rows, groups) = group_rows(alloc, plain_rows(alloc)?)?;
    Ok(are_targets(rows.as_slice()) && are_groups(groups.as_slice()))
}

#[test]
fn groups_are_numbered_by_first_use(rt: HostRuntime) -> Result<(), Fail> {
    assert!(rt; are_numbered_by_first_use(rt.alloc())?);
    Ok(())
}
