//! Whole runs of the three reparents: whom they promote, what they refuse, and what the next one finds of one that was cut off.

use crate::tests::{REPARENT, Row, THREE_ACKERS, plays};
use std::test::Fail;

/// Four replicas under the policy `semi_sync`.
const FOUR_REPLICAS: &str = "shard commerce/0 semi_sync
tablet zone1-100 replica 00000000-0000-4000-8000-000000000100
tablet zone1-101 replica 00000000-0000-4000-8000-000000000101
tablet zone1-102 replica 00000000-0000-4000-8000-000000000102
tablet zone1-103 replica 00000000-0000-4000-8000-000000000103
";

#[test]
fn planned_reparents_go_by_their_options(rt: HostRuntime) -> Result<(), Fail> {
    let rows = [Row {
        script: &[
            "shard commerce/0 none
tablet zone1-100 replica 00000000-0000-4000-8000-000000000100
tablet zone1-103 spare 00000000-0000-4000-8000-000000000103
tablet zone2-200 replica 00000000-0000-4000-8000-000000000200
PlannedReparentShard commerce/0 --new-primary zone9-1
PlannedReparentShard commerce/0 --new-primary zone1-103
PlannedReparentShard commerce/0 --new-primary zone1-100 --avoid-primary zone1-100
PlannedReparentShard commerce/0 --expected-primary zone1-100
PlannedReparentShard commerce/0 --new-primary zone1-100
PlannedReparentShard commerce/0 --new-primary zone2-200
PlannedReparentShard commerce/0 --avoid-primary zone2-200
PlannedReparentShard commerce/0 --avoid-primary zone1-100
PlannedReparentShard commerce/0 --new-primary=zone2-200 --allow-cross-cell-promotion
",
        ],
        printed: "PlannedReparentShard commerce/0: refused 3 NoSuchTablet: zone9-0000000001
PlannedReparentShard commerce/0: refused 4 NotEligible: zone1-0000000103 must_not
PlannedReparentShard commerce/0: refused 6 BothGiven
PlannedReparentShard commerce/0: refused 5 ExpectedPrimary: none
PlannedReparentShard commerce/0: promoted zone1-0000000100 in term 2
PlannedReparentShard commerce/0: refused 15 CrossCell: zone2-0000000200 is in zone2
PlannedReparentShard commerce/0: nothing to do, primary is zone1-0000000100
PlannedReparentShard commerce/0: refused 9 NoCandidate: zone1-0000000100 avoided, zone1-0000000103 must_not, zone2-0000000200 other cell
PlannedReparentShard commerce/0: promoted zone2-0000000200 in term 6
",
        status: 1,
    }];
    plays(&rt, rt.alloc(), &rows)
}

#[test]
fn a_planned_reparent_is_undone(rt: HostRuntime) -> Result<(), Fail> {
    let rows = [
        // Who lacks an entry is not promoted, and the old primary has its place back.
        Row {
            script: &[
                THREE_ACKERS,
                REPARENT,
                "settle
cut zone1-100 zone1-101
write 1
start p PlannedReparentShard commerce/0 --new-primary zone1-101
turn p 20
tick 16s
finish p
write 1
",
            ],
            printed: "PlannedReparentShard commerce/0: promoted zone1-0000000100 in term 1
write: committed 00000000-0000-4000-8000-000000000100:2 on zone1-0000000100 in term 1
[p] PlannedReparentShard commerce/0: refused 10 NotCaughtUp: zone1-0000000101 lacks 00000000-0000-4000-8000-000000000100:2 since 2024-01-01T00:00:00.000Z at 2024-01-01T00:00:16.000Z; undone
write: committed 00000000-0000-4000-8000-000000000100:4 on zone1-0000000100 in term 2
",
            status: 1,
        },
        // Where the last reparent was cut off, that is the tablet that it promoted. It is not recorded then.
        Row {
            script: &[
                THREE_ACKERS,
                REPARENT,
                "settle
local zone1-102
start p PlannedReparentShard commerce/0 --new-primary zone1-101
turn p 14
lapse
PlannedReparentShard commerce/0 --new-primary zone1-102
write 1
",
            ],
            printed: "PlannedReparentShard commerce/0: promoted zone1-0000000100 in term 1
PlannedReparentShard commerce/0: refused 18 Errant: zone1-0000000102 has 00000000-0000-4000-8000-000000000102:1; undone
write: committed 00000000-0000-4000-8000-000000000101:3 on zone1-0000000101 in term 3
",
            status: 1,
        },
    ];
    plays(&rt, rt.alloc(), &rows)
}

#[test]
fn a_reparent_that_was_cut_off_is_finished(rt: HostRuntime) -> Result<(), Fail> {
    let rows = [
        // The next reparent goes on from the tablet that it promoted.
        Row {
            script: &[
                THREE_ACKERS,
                REPARENT,
                "settle
start p PlannedReparentShard commerce/0 --new-primary zone1-101
turn p 14
lapse
PlannedReparentShard commerce/0 --new-primary zone1-102
finish p
settle
repeat 21
show zone1-101
",
            ],
            printed: "PlannedReparentShard commerce/0: promoted zone1-0000000100 in term 1
PlannedReparentShard commerce/0: promoted zone1-0000000102 in term 3
[p] PlannedReparentShard commerce/0: refused 2 LockLost: topology is at term 3
show zone1-0000000101: replica of zone1-0000000102 in term 3, position MySQL56/00000000-0000-4000-8000-000000000100:1,00000000-0000-4000-8000-000000000101:1,00000000-0000-4000-8000-000000000102:1
",
            status: 1,
        },
        // That tablet is recorded by hand, and no other is.
        Row {
            script: &[
                THREE_ACKERS,
                REPARENT,
                "settle
start p PlannedReparentShard commerce/0 --new-primary zone1-101
turn p 14
lapse
TabletExternallyReparented zone1-102
TabletExternallyReparented zone1-101
",
            ],
            printed: "PlannedReparentShard commerce/0: promoted zone1-0000000100 in term 1
TabletExternallyReparented zone1-0000000102: refused 19 NotPromoted: zone1-0000000102 has newest row 1
TabletExternallyReparented zone1-0000000101: recorded in term 2
",
            status: 1,
        },
    ];
    plays(&rt, rt.alloc(), &rows)
}

#[test]
fn an_emergency_promotes_who_has_all_that_was_told(rt: HostRuntime) -> Result<(), Fail> {
    let rows = [
        Row {
            script: &[
                THREE_ACKERS,
                REPARENT,
                "write 2
crash zone1-100 keep 0
EmergencyReparentShard commerce/0
write 1
show zone1-101
",
            ],
            printed: "PlannedReparentShard commerce/0: promoted zone1-0000000100 in term 1
write: committed 00000000-0000-4000-8000-000000000100:2 on zone1-0000000100 in term 1
write: committed 00000000-0000-4000-8000-000000000100:3 on zone1-0000000100 in term 1
EmergencyReparentShard commerce/0: promoted zone1-0000000101 in term 2
write: committed 00000000-0000-4000-8000-000000000101:2 on zone1-0000000101 in term 2
show zone1-0000000101: primary of term 2, position MySQL56/00000000-0000-4000-8000-000000000100:1-3,00000000-0000-4000-8000-000000000101:1-2
",
            status: 0,
        },
        // The read-only tablet acknowledged, and the replica is promoted.
        Row {
            script: &[
                "shard commerce/0 semi_sync_with_rdonly_ack
tablet zone1-100 replica 00000000-0000-4000-8000-000000000100
tablet zone1-101 replica 00000000-0000-4000-8000-000000000101
tablet zone1-102 rdonly 00000000-0000-4000-8000-000000000102
PlannedReparentShard commerce/0 --new-primary zone1-100
cut zone1-100 zone1-101
write 2
crash zone1-100 keep 0
EmergencyReparentShard commerce/0
show zone1-101
",
            ],
            printed: "PlannedReparentShard commerce/0: promoted zone1-0000000100 in term 1
write: committed 00000000-0000-4000-8000-000000000100:2 on zone1-0000000100 in term 1
write: committed 00000000-0000-4000-8000-000000000100:3 on zone1-0000000100 in term 1
EmergencyReparentShard commerce/0: promoted zone1-0000000101 in term 2
show zone1-0000000101: primary of term 2, position MySQL56/00000000-0000-4000-8000-000000000100:1-3,00000000-0000-4000-8000-000000000101:1
",
            status: 0,
        },
    ];
    plays(&rt, rt.alloc(), &rows)
}

#[test]
fn an_emergency_is_refused(rt: HostRuntime) -> Result<(), Fail> {
    let rows = [
        // The old primary may still get what it needs to commit.
        Row {
            script: &[
                FOUR_REPLICAS,
                REPARENT,
                "crash zone1-100 keep 0
crash zone1-101 keep 0
EmergencyReparentShard commerce/0
",
            ],
            printed: "PlannedReparentShard commerce/0: promoted zone1-0000000100 in term 1
EmergencyReparentShard commerce/0: refused 12 NotRevoked: zone1-0000000100 may still commit; unreached zone1-0000000100 down, zone1-0000000101 down
",
            status: 1,
        },
        // Two have what the other has not.
        Row {
            script: &[
                THREE_ACKERS,
                REPARENT,
                "settle
cut zone1-100 zone1-101
local zone1-101
write 1
crash zone1-100 keep 0
EmergencyReparentShard commerce/0
",
            ],
            printed: "PlannedReparentShard commerce/0: promoted zone1-0000000100 in term 1
write: committed 00000000-0000-4000-8000-000000000100:2 on zone1-0000000100 in term 1
EmergencyReparentShard commerce/0: refused 14 SplitBrain: zone1-0000000101 has 00000000-0000-4000-8000-000000000100:1,00000000-0000-4000-8000-000000000101:1 and zone1-0000000102 has 00000000-0000-4000-8000-000000000100:1-2
",
            status: 1,
        },
        // Nobody is left to acknowledge.
        Row {
            script: &[
                "shard commerce/0 semi_sync
tablet zone1-100 replica 00000000-0000-4000-8000-000000000100
tablet zone1-101 replica 00000000-0000-4000-8000-000000000101
PlannedReparentShard commerce/0 --new-primary zone1-100
crash zone1-100 keep 0
EmergencyReparentShard commerce/0 --new-primary zone1-101
EmergencyReparentShard commerce/0
",
            ],
            printed: "PlannedReparentShard commerce/0: promoted zone1-0000000100 in term 1
EmergencyReparentShard commerce/0: refused 13 CannotEstablish: zone1-0000000101 has 0 of 1 ackers
EmergencyReparentShard commerce/0: refused 9 NoCandidate: zone1-0000000100 unreached, zone1-0000000101 short of ackers
",
            status: 1,
        },
    ];
    plays(&rt, rt.alloc(), &rows)
}

#[test]
fn an_emergency_loses_the_lock(rt: HostRuntime) -> Result<(), Fail> {
    let rows = [
        // A call of the first one comes late: what is written there is told to nobody.
        Row {
            script: &[
                FOUR_REPLICAS,
                REPARENT,
                "settle
write 1
start e EmergencyReparentShard commerce/0 --new-primary zone1-101
turn e 16
cut control zone1-101
lapse
finish e
EmergencyReparentShard commerce/0 --new-primary zone1-102
write 1
mend control zone1-101
repeat 27
write 1 to zone1-101
show zone1-101
",
            ],
            printed: "PlannedReparentShard commerce/0: promoted zone1-0000000100 in term 1
write: committed 00000000-0000-4000-8000-000000000100:2 on zone1-0000000100 in term 1
[e] EmergencyReparentShard commerce/0: refused 8 Unreachable: zone1-0000000101 cut
EmergencyReparentShard commerce/0: promoted zone1-0000000102 in term 3
write: committed 00000000-0000-4000-8000-000000000102:2 on zone1-0000000102 in term 3
write: unknown 00000000-0000-4000-8000-000000000101:2 on zone1-0000000101 in term 2
show zone1-0000000101: stopped, position MySQL56/00000000-0000-4000-8000-000000000100:1-2,00000000-0000-4000-8000-000000000101:1-2
",
            status: 1,
        },
        // The first one is told by the topology.
        Row {
            script: &[
                THREE_ACKERS,
                REPARENT,
                "settle
start e EmergencyReparentShard commerce/0
turn e 11
lapse
EmergencyReparentShard commerce/0
finish e
",
            ],
            printed: "PlannedReparentShard commerce/0: promoted zone1-0000000100 in term 1
EmergencyReparentShard commerce/0: promoted zone1-0000000100 in term 3
[e] EmergencyReparentShard commerce/0: refused 2 LockLost: topology is at term 3
",
            status: 1,
        },
        // It is told by a tablet.
        Row {
            script: &[
                THREE_ACKERS,
                REPARENT,
                "settle
start e EmergencyReparentShard commerce/0
turn e 2
lapse
EmergencyReparentShard commerce/0
finish e
",
            ],
            printed: "PlannedReparentShard commerce/0: promoted zone1-0000000100 in term 1
EmergencyReparentShard commerce/0: promoted zone1-0000000100 in term 3
[e] EmergencyReparentShard commerce/0: refused 11 StaleTerm: zone1-0000000100 has seen term 3
",
            status: 1,
        },
    ];
    plays(&rt, rt.alloc(), &rows)
}
