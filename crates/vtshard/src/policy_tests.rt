//! Whole runs under the five durability policies: which acknowledgements a write waits for, and what waits in vain.

use crate::tests::{REPARENT, Row, THREE_REPLICAS, plays};
use std::test::Fail;

/// Two replicas under the policy `semi_sync`.
const TWO_REPLICAS: &str = "shard commerce/0 semi_sync
tablet zone1-100 replica 00000000-0000-4000-8000-000000000100
tablet zone1-101 replica 00000000-0000-4000-8000-000000000101
";

/// Replicas and a read-only tablet in two cells.
const FOUR_TABLETS: &str = "tablet zone1-100 replica 00000000-0000-4000-8000-000000000100
tablet zone1-101 replica 00000000-0000-4000-8000-000000000101
tablet zone2-200 replica 00000000-0000-4000-8000-000000000200
tablet zone2-201 rdonly 00000000-0000-4000-8000-000000000201
";

/// A spare tablet in the other cell: it replicates, and its acknowledgement counts under no policy.
const SPARE: &str = "tablet zone2-202 spare 00000000-0000-4000-8000-000000000202\n";

/// The primary loses its ackers one by one: first those of its cell, and the read-only one last.
const READ_ONLY_LAST: &str = "settle
cut zone1-100 zone1-101
write 1
cut zone1-100 zone2-200
write 1
cut zone1-100 zone2-201
write 1
";

/// The other way round.
const READ_ONLY_FIRST: &str = "settle
cut zone1-100 zone2-201
write 1
cut zone1-100 zone2-200
write 1
cut zone1-100 zone1-101
write 1
";

const NO_WRITE: &str = "PlannedReparentShard commerce/0: promoted zone1-0000000100 in term 1
blocked: main
";

const ONE_WRITE: &str = "PlannedReparentShard commerce/0: promoted zone1-0000000100 in term 1
write: committed 00000000-0000-4000-8000-000000000100:2 on zone1-0000000100 in term 1
blocked: main
";

const TWO_WRITES: &str = "PlannedReparentShard commerce/0: promoted zone1-0000000100 in term 1
write: committed 00000000-0000-4000-8000-000000000100:2 on zone1-0000000100 in term 1
write: committed 00000000-0000-4000-8000-000000000100:3 on zone1-0000000100 in term 1
blocked: main
";

const THREE_WRITES: &str = "PlannedReparentShard commerce/0: promoted zone1-0000000100 in term 1
write: committed 00000000-0000-4000-8000-000000000100:2 on zone1-0000000100 in term 1
write: committed 00000000-0000-4000-8000-000000000100:3 on zone1-0000000100 in term 1
write: committed 00000000-0000-4000-8000-000000000100:4 on zone1-0000000100 in term 1
";

/// What the five tablets print under the policy of this line, as the primary loses its ackers in either order.
#[derive(Clone, Copy)]
struct Losses<'a> {
    shard: &'a str,
    read_only_last: &'a str,
    read_only_first: &'a str,
    status: u8,
}

/// Without a policy nobody has to acknowledge. Each of the others waits for one that counts, and misses the last of them.
const LOSSES: [Losses<'static>; 5] = [
    Losses {
        shard: "shard commerce/0 none\n",
        read_only_last: THREE_WRITES,
        read_only_first: THREE_WRITES,
        status: 0,
    },
    Losses {
        shard: "shard commerce/0 semi_sync\n",
        read_only_last: ONE_WRITE,
        read_only_first: TWO_WRITES,
        status: 7,
    },
    Losses {
        shard: "shard commerce/0 cross_cell\n",
        read_only_last: ONE_WRITE,
        read_only_first: ONE_WRITE,
        status: 7,
    },
    Losses {
        shard: "shard commerce/0 semi_sync_with_rdonly_ack\n",
        read_only_last: TWO_WRITES,
        read_only_first: TWO_WRITES,
        status: 7,
    },
    Losses {
        shard: "shard commerce/0 cross_cell_with_rdonly_ack\n",
        read_only_last: TWO_WRITES,
        read_only_first: ONE_WRITE,
        status: 7,
    },
];

#[test]
fn each_policy_has_its_ackers(rt: HostRuntime) -> Result<(), Fail> {
    for losses in LOSSES {
        let rows = [
            Row {
                script: &[losses.shard, FOUR_TABLETS, SPARE, REPARENT, READ_ONLY_LAST],
                printed: losses.read_only_last,
                status: losses.status,
            },
            Row {
                script: &[losses.shard, FOUR_TABLETS, SPARE, REPARENT, READ_ONLY_FIRST],
                printed: losses.read_only_first,
                status: losses.status,
            },
        ];
        plays(&rt, rt.alloc(), &rows)?;
    }
    Ok(())
}

#[test]
fn an_acker_that_is_down_is_missed(rt: HostRuntime) -> Result<(), Fail> {
    let crash = "crash zone2-200 keep 0\nwrite 1\n";
    let rows = [
        Row {
            script: &[
                "shard commerce/0 cross_cell\n",
                FOUR_TABLETS,
                REPARENT,
                crash,
            ],
            printed: NO_WRITE,
            status: 7,
        },
        Row {
            script: &[
                "shard commerce/0 cross_cell_with_rdonly_ack\n",
                FOUR_TABLETS,
                REPARENT,
                crash,
            ],
            printed: "PlannedReparentShard commerce/0: promoted zone1-0000000100 in term 1
write: committed 00000000-0000-4000-8000-000000000100:2 on zone1-0000000100 in term 1
",
            status: 0,
        },
    ];
    plays(&rt, rt.alloc(), &rows)
}

#[test]
fn a_reparent_waits_for_acknowledgements(rt: HostRuntime) -> Result<(), Fail> {
    let rows = [
        // Once its time is over the tablet says that the promotion was not acknowledged.
        Row {
            script: &[
                TWO_REPLICAS,
                "cut zone1-100 zone1-101
start p PlannedReparentShard commerce/0 --new-primary zone1-100
turn p 50
tick 16s
finish p
",
            ],
            printed: "[p] PlannedReparentShard commerce/0: refused 17 NotAcknowledged: zone1-0000000100 since 2024-01-01T00:00:00.000Z at 2024-01-01T00:00:16.000Z
",
            status: 1,
        },
        // Where no time goes by it is blocked.
        Row {
            script: &[
                TWO_REPLICAS,
                "cut zone1-100 zone1-101\n",
                REPARENT,
                "write 1\n",
            ],
            printed: "blocked: main\n",
            status: 7,
        },
    ];
    plays(&rt, rt.alloc(), &rows)
}

#[test]
fn a_link_mended_in_time_brings_the_acknowledgement(rt: HostRuntime) -> Result<(), Fail> {
    let rows = [Row {
        script: &[
            TWO_REPLICAS,
            "cut zone1-100 zone1-101
start p PlannedReparentShard commerce/0 --new-primary zone1-100
turn p 50
tick 14999ms
turn p 50
mend zone1-100 zone1-101
finish p
",
        ],
        printed: "[p] PlannedReparentShard commerce/0: promoted zone1-0000000100 in term 1\n",
        status: 0,
    }];
    plays(&rt, rt.alloc(), &rows)
}

#[test]
fn a_call_times_out_at_its_moment(rt: HostRuntime) -> Result<(), Fail> {
    let rows = [
        Row {
            script: &[
                THREE_REPLICAS,
                "start p PlannedReparentShard commerce/0 --new-primary zone1-100
turn p 4
tick 15s
finish p
",
            ],
            printed: "[p] PlannedReparentShard commerce/0: refused 8 Unreachable: zone1-0000000100 timed out since 2024-01-01T00:00:00.000Z at 2024-01-01T00:00:15.000Z
",
            status: 1,
        },
        Row {
            script: &[
                THREE_REPLICAS,
                "start p PlannedReparentShard commerce/0 --new-primary zone1-100
turn p 4
tick 14999ms
finish p
",
            ],
            printed: "[p] PlannedReparentShard commerce/0: promoted zone1-0000000100 in term 1\n",
            status: 0,
        },
    ];
    plays(&rt, rt.alloc(), &rows)
}

#[test]
fn a_write_waits_for_an_acknowledgement(rt: HostRuntime) -> Result<(), Fail> {
    let rows = [
        // Whoever is finished in vain is named.
        Row {
            script: &[
                TWO_REPLICAS,
                REPARENT,
                "cut zone1-100 zone1-101
start w write 1
turn w 50
finish w
show zone1-100
",
            ],
            printed: "PlannedReparentShard commerce/0: promoted zone1-0000000100 in term 1
blocked: w
",
            status: 7,
        },
        Row {
            script: &[
                TWO_REPLICAS,
                REPARENT,
                "cut zone1-100 zone1-101
start w write 1
turn w 50
mend zone1-100 zone1-101
finish w
",
            ],
            printed: "PlannedReparentShard commerce/0: promoted zone1-0000000100 in term 1
[w] write: committed 00000000-0000-4000-8000-000000000100:2 on zone1-0000000100 in term 1
",
            status: 0,
        },
    ];
    plays(&rt, rt.alloc(), &rows)
}

/// The acknowledgement is message 10.
#[test]
fn the_next_acknowledgement_stands_for_a_lost_one(rt: HostRuntime) -> Result<(), Fail> {
    let rows = [
        Row {
            script: &[
                TWO_REPLICAS,
                REPARENT,
                "start w write 1
turn w 3
lose 10
turn w 50
write 1
finish w
",
            ],
            printed: "PlannedReparentShard commerce/0: promoted zone1-0000000100 in term 1
write: committed 00000000-0000-4000-8000-000000000100:3 on zone1-0000000100 in term 1
[w] write: committed 00000000-0000-4000-8000-000000000100:2 on zone1-0000000100 in term 1
",
            status: 0,
        },
        Row {
            script: &[
                TWO_REPLICAS,
                REPARENT,
                "start w write 1
turn w 3
lose 10
finish w
",
            ],
            printed: "PlannedReparentShard commerce/0: promoted zone1-0000000100 in term 1
blocked: w
",
            status: 7,
        },
    ];
    plays(&rt, rt.alloc(), &rows)
}

#[test]
fn a_primary_that_came_up_again_tells_nobody(rt: HostRuntime) -> Result<(), Fail> {
    let rows = [Row {
        script: &[
            TWO_REPLICAS,
            REPARENT,
            "cut zone1-100 zone1-101
start w write 1
turn w 50
crash zone1-100 keep 0
restart zone1-100
mend zone1-100 zone1-101
finish w
",
        ],
        printed: "PlannedReparentShard commerce/0: promoted zone1-0000000100 in term 1
[w] write: unknown 00000000-0000-4000-8000-000000000100:2 on zone1-0000000100 in term 1
",
        status: 1,
    }];
    plays(&rt, rt.alloc(), &rows)
}

#[test]
fn a_read_only_tablet_is_not_promoted(rt: HostRuntime) -> Result<(), Fail> {
    let rows = [Row {
        script: &[
            "shard commerce/0 cross_cell_with_rdonly_ack\n",
            FOUR_TABLETS,
            "PlannedReparentShard commerce/0 --new-primary zone2-201\n",
        ],
        printed: "PlannedReparentShard commerce/0: refused 4 NotEligible: zone2-0000000201 must_not\n",
        status: 1,
    }];
    plays(&rt, rt.alloc(), &rows)
}
