//! Whole runs of `vtorc`: what it finds, and what it does about it.

use crate::tests::{REPARENT, Row, THREE_ACKERS, plays};
use std::test::Fail;

#[test]
fn a_vtorc_repairs_what_it_finds(rt: HostRuntime) -> Result<(), Fail> {
    let rows = [
        // Who has a transaction that the primary lacks is drained.
        Row {
            script: &[
                THREE_ACKERS,
                REPARENT,
                "settle
cut zone1-100 zone1-101
cut zone1-100 zone1-102
start w write 1
turn w 5
crash zone1-100 keep 0
finish w
EmergencyReparentShard commerce/0
restart zone1-100
PlannedReparentShard commerce/0 --new-primary zone1-102
vtorc
",
            ],
            printed: "PlannedReparentShard commerce/0: promoted zone1-0000000100 in term 1
[w] write: unknown 00000000-0000-4000-8000-000000000100:2 on zone1-0000000100 in term 1
EmergencyReparentShard commerce/0: promoted zone1-0000000101 in term 2
PlannedReparentShard commerce/0: promoted zone1-0000000102 in term 3
  not joined zone1-0000000100: errant 00000000-0000-4000-8000-000000000100:2
vtorc: ErrantGTIDDetected on zone1-0000000100
vtorc: drained zone1-0000000100
",
            status: 1,
        },
        // A dead primary is replaced, and joins its successor when it is back.
        Row {
            script: &[
                "shard commerce/0 cross_cell
tablet zone1-100 replica 00000000-0000-4000-8000-000000000100
tablet zone1-101 replica 00000000-0000-4000-8000-000000000101
tablet zone1-102 rdonly 00000000-0000-4000-8000-000000000102
tablet zone2-200 replica 00000000-0000-4000-8000-000000000200
tablet zone2-201 replica 00000000-0000-4000-8000-000000000201
PlannedReparentShard commerce/0 --new-primary zone1-100
write 3
settle
crash zone1-100 keep 0
vtorc
write 1
restart zone1-100
vtorc
GetShard commerce/0
",
            ],
            printed: "PlannedReparentShard commerce/0: promoted zone1-0000000100 in term 1
write: committed 00000000-0000-4000-8000-000000000100:2 on zone1-0000000100 in term 1
write: committed 00000000-0000-4000-8000-000000000100:3 on zone1-0000000100 in term 1
write: committed 00000000-0000-4000-8000-000000000100:4 on zone1-0000000100 in term 1
vtorc: DeadPrimary on zone1-0000000100
vtorc: promoted zone1-0000000101 in term 2
write: committed 00000000-0000-4000-8000-000000000101:2 on zone1-0000000101 in term 2
vtorc: ReplicationStopped on zone1-0000000100
vtorc: joined zone1-0000000100 to zone1-0000000101
{\"keyspace\":\"commerce\",\"primary_alias\":\"zone1-0000000101\",\"primary_term_start_time\":\"2024-01-01T00:00:00.000Z\",\"shard\":\"0\",\"term\":2}
",
            status: 0,
        },
        // A shard without a primary gets one, and then nothing is amiss.
        Row {
            script: &[
                "shard commerce/0 semi_sync
tablet zone1-100 replica 00000000-0000-4000-8000-000000000100
tablet zone1-101 replica 00000000-0000-4000-8000-000000000101
vtorc
vtorc
",
            ],
            printed: "vtorc: ClusterHasNoPrimary on zone1-0000000100
vtorc: promoted zone1-0000000100 in term 1
vtorc: NoProblem
",
            status: 0,
        },
    ];
    plays(&rt, rt.alloc(), &rows)
}
