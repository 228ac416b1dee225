//! Whole runs over streams in memory: what no clause says is that a call succeeds, and that the definitions mean what the
//! language's manual says.

use shard_top::{MemorySink, MemorySource, vtshard_words};
use std::alloc::Global;
use std::process::Abort;
use std::test::Fail;

/// Three replicas under the policy `none`.
pub(crate) const THREE_REPLICAS: &str = "shard commerce/0 none
tablet zone1-100 replica 00000000-0000-4000-8000-000000000100
tablet zone1-101 replica 00000000-0000-4000-8000-000000000101
tablet zone1-102 replica 00000000-0000-4000-8000-000000000102
";

/// Three replicas under the policy `semi_sync`.
pub(crate) const THREE_ACKERS: &str = "shard commerce/0 semi_sync
tablet zone1-100 replica 00000000-0000-4000-8000-000000000100
tablet zone1-101 replica 00000000-0000-4000-8000-000000000101
tablet zone1-102 replica 00000000-0000-4000-8000-000000000102
";

/// The first tablet becomes the primary.
pub(crate) const REPARENT: &str = "PlannedReparentShard commerce/0 --new-primary zone1-100\n";

/// A first run over three replicas.
pub(crate) const FIRST_RUN: &str = "PlannedReparentShard commerce/0 --new-primary zone1-100
write 3
";

pub(crate) const FIRST_ANSWERS: &str =
    "PlannedReparentShard commerce/0: promoted zone1-0000000100 in term 1
write: committed 00000000-0000-4000-8000-000000000100:2 on zone1-0000000100 in term 1
write: committed 00000000-0000-4000-8000-000000000100:3 on zone1-0000000100 in term 1
write: committed 00000000-0000-4000-8000-000000000100:4 on zone1-0000000100 in term 1
";

/// A run over these streams: its status, and what was written.
#[derive(Drop)]
pub(crate) struct Ran {
    pub(crate) status: u8,
    pub(crate) written: Vec<u8>,
}

/// Pieces of at most `piece` bytes a call, and the calls that fail.
#[derive(Clone, Copy)]
pub(crate) struct Streams<'a> {
    piece: u64,
    source_fails: &'a [u64],
    sink_fails: &'a [u64],
}

/// Whole pieces, and no call that fails.
pub(crate) const WHOLE: Streams<'static> = Streams {
    piece: 65536,
    source_fails: &[],
    sink_fails: &[],
};

pub(crate) fn run(
    alloc: Global,
    program_words: &[&str],
    script: &[&str],
    streams: &Streams,
) -> Result<Ran, Fail> {
    let mut words = Vec::new(alloc);
    for word in program_words {
        words.push(Vec::from_slice(alloc, word.as_bytes())?)?;
    }
    let mut text = Vec::new(alloc);
    for part in script {
        text.extend_from_slice(part.as_bytes())?;
    }
    let piece = streams.piece.max(1);
    let mut source = MemorySource::new(text, piece, Vec::from_slice(alloc, streams.source_fails)?);
    let fails = Vec::from_slice(alloc, streams.sink_fails)?;
    let mut sink = MemorySink::new(alloc, 65536, piece, fails)
        .ok()
        .ok_or("no memory")?;
    let outcome = vtshard_words(alloc, &words, &mut source, &mut sink);
    Ok(Ran {
        status: outcome.status,
        written: Vec::from_slice(alloc, sink.taken())?,
    })
}

/// A script, what it prints, and its status.
#[derive(Clone, Copy)]
pub(crate) struct Row<'a> {
    pub(crate) script: &'a [&'a str],
    pub(crate) printed: &'a str,
    pub(crate) status: u8,
}

pub(crate) fn plays(rt: &impl Abort, alloc: Global, rows: &[Row]) -> Result<(), Fail> {
    for row in rows {
        let ran = run(alloc, &["step"], row.script, &WHOLE)?;
        assert_eq!(rt; ran.written.as_slice(), row.printed.as_bytes());
        assert_eq!(rt; ran.status, row.status);
    }
    Ok(())
}

#[test]
fn scripts_are_played(rt: HostRuntime) -> Result<(), Fail> {
    let rows = [
        Row {
            script: &[THREE_REPLICAS, FIRST_RUN],
            printed: FIRST_ANSWERS,
            status: 0,
        },
        Row {
            script: &[],
            printed: "",
            status: 0,
        },
        Row {
            script: &[THREE_REPLICAS, "write 1\n"],
            printed: "write: no primary recorded\n",
            status: 1,
        },
    ];
    plays(&rt, rt.alloc(), &rows)
}

#[test]
fn reparents_are_refused(rt: HostRuntime) -> Result<(), Fail> {
    let rows = [
        Row {
            script: &[
                THREE_REPLICAS,
                "PlannedReparentShard commerce/0 --new-primary zone9-1\nwrite 1",
            ],
            printed: "PlannedReparentShard commerce/0: refused 3 NoSuchTablet: zone9-0000000001
write: no primary recorded
",
            status: 1,
        },
        Row {
            script: &[
                THREE_REPLICAS,
                "tablet zone1-103 spare 00000000-0000-4000-8000-000000000103
PlannedReparentShard commerce/0 --new-primary zone1-103\n",
            ],
            printed: "PlannedReparentShard commerce/0: refused 4 NotEligible: zone1-0000000103 must_not\n",
            status: 1,
        },
    ];
    plays(&rt, rt.alloc(), &rows)
}

#[test]
fn reparents_compete_for_the_lock(rt: HostRuntime) -> Result<(), Fail> {
    let rows = [
        // The lock is taken, then lapses. The next term finds an intent that it cannot finish, and the first one comes too late.
        Row {
            script: &[
                THREE_REPLICAS,
                "start p PlannedReparentShard commerce/0 --new-primary zone1-100
turn p 1
PlannedReparentShard commerce/0 --new-primary zone1-101
turn p 2
lapse
PlannedReparentShard commerce/0 --new-primary zone1-101
finish p
write 1
",
            ],
            printed: "PlannedReparentShard commerce/0: refused 1 LockTaken: term 1 by p
PlannedReparentShard commerce/0: refused 7 ReparentPending: zone1-0000000100 in term 1
[p] PlannedReparentShard commerce/0: refused 11 StaleTerm: zone1-0000000100 has seen term 2
write: no primary recorded
",
            status: 1,
        },
        // A lock that lapses, with nobody who takes it.
        Row {
            script: &[
                THREE_REPLICAS,
                "start p PlannedReparentShard commerce/0 --new-primary zone1-100
turn p 2
lapse
finish p
",
            ],
            printed: "[p] PlannedReparentShard commerce/0: refused 2 LockLost: topology is at term 1\n",
            status: 1,
        },
        // By its second event it has not intended yet, so the next term finds nothing in its way.
        Row {
            script: &[
                THREE_REPLICAS,
                "start p PlannedReparentShard commerce/0 --new-primary zone1-100
turn p 2
lapse
PlannedReparentShard commerce/0 --new-primary zone1-101
finish p
",
            ],
            printed: "PlannedReparentShard commerce/0: promoted zone1-0000000101 in term 2
[p] PlannedReparentShard commerce/0: refused 2 LockLost: topology is at term 2
",
            status: 1,
        },
    ];
    plays(&rt, rt.alloc(), &rows)
}

#[test]
fn clients_write_as_they_come(rt: HostRuntime) -> Result<(), Fail> {
    let rows = [
        // Two clients write: the one who writes first has the first number.
        Row {
            script: &[
                THREE_REPLICAS,
                "PlannedReparentShard commerce/0 --new-primary zone1-100
start p write 1
write 1
finish p
",
            ],
            printed: "PlannedReparentShard commerce/0: promoted zone1-0000000100 in term 1
write: committed 00000000-0000-4000-8000-000000000100:2 on zone1-0000000100 in term 1
[p] write: committed 00000000-0000-4000-8000-000000000100:3 on zone1-0000000100 in term 1
",
            status: 0,
        },
        // A write reads the record when it begins.
        Row {
            script: &[
                THREE_REPLICAS,
                "start p write 1
PlannedReparentShard commerce/0 --new-primary zone1-100
finish p
",
            ],
            printed: "PlannedReparentShard commerce/0: promoted zone1-0000000100 in term 1
[p] write: no primary recorded
",
            status: 1,
        },
    ];
    plays(&rt, rt.alloc(), &rows)
}

#[test]
fn turns_stop_at_the_end(rt: HostRuntime) -> Result<(), Fail> {
    let rows = [
        // A command that has ended goes on no more.
        Row {
            script: &[
                THREE_REPLICAS,
                "start p write 1
finish p
turn p 5
finish p
",
            ],
            printed: "[p] write: no primary recorded\n",
            status: 1,
        },
        // One that is never finished answers nothing.
        Row {
            script: &[
                THREE_REPLICAS,
                "start p PlannedReparentShard commerce/0 --new-primary zone1-100
turn p 3
",
            ],
            printed: "",
            status: 0,
        },
        // Turns stop where the command has ended, and the clock goes on in between.
        Row {
            script: &[
                THREE_REPLICAS,
                "start p PlannedReparentShard commerce/0 --new-primary zone1-100
turn p 3
tick 16s
turn p 1000000
write 1
",
            ],
            printed: "[p] PlannedReparentShard commerce/0: promoted zone1-0000000100 in term 1
write: committed 00000000-0000-4000-8000-000000000100:2 on zone1-0000000100 in term 1
",
            status: 0,
        },
    ];
    plays(&rt, rt.alloc(), &rows)
}

#[test]
fn tablets_crash_and_come_up(rt: HostRuntime) -> Result<(), Fail> {
    let rows = [
        // What a tablet that is down or up refuses is noted, each line in its place.
        Row {
            script: &[
                THREE_REPLICAS,
                "local zone1-101
crash zone1-101 keep 0
local zone1-101
show zone1-101
restart zone1-101
restart zone1-101
show zone1-101
",
            ],
            printed: "local: zone1-0000000101 is down
show zone1-0000000101: down, position MySQL56/00000000-0000-4000-8000-000000000101:1
restart: zone1-0000000101 is up
show zone1-0000000101: stopped, position MySQL56/00000000-0000-4000-8000-000000000101:1
",
            status: 1,
        },
        // Nobody can say any more whether what it wrote counts as committed.
        Row {
            script: &[
                THREE_REPLICAS,
                "PlannedReparentShard commerce/0 --new-primary zone1-100
start p write 1
turn p 1
crash zone1-100 keep 0
finish p
write 1
",
            ],
            printed: "PlannedReparentShard commerce/0: promoted zone1-0000000100 in term 1
[p] write: unknown 00000000-0000-4000-8000-000000000100:2 on zone1-0000000100 in term 1
write: not primary: zone1-0000000100 is down
",
            status: 1,
        },
    ];
    plays(&rt, rt.alloc(), &rows)
}

#[test]
fn links_are_cut_and_mended(rt: HostRuntime) -> Result<(), Fail> {
    let rows = [
        Row {
            script: &[
                THREE_REPLICAS,
                "cut control zone1-100
PlannedReparentShard commerce/0 --new-primary zone1-100
",
            ],
            printed: "PlannedReparentShard commerce/0: refused 8 Unreachable: zone1-0000000100 cut\n",
            status: 1,
        },
        Row {
            script: &[
                THREE_REPLICAS,
                "cut control zone1-100
start p PlannedReparentShard commerce/0 --new-primary zone1-100
turn p 4
mend zone1-100 control
finish p
",
            ],
            printed: "[p] PlannedReparentShard commerce/0: promoted zone1-0000000100 in term 1\n",
            status: 0,
        },
        // Who cannot be asked, or has an entry of its own, does not join.
        Row {
            script: &[
                THREE_REPLICAS,
                "cut control zone1-101
local zone1-102
PlannedReparentShard commerce/0 --new-primary zone1-100
",
            ],
            printed: "PlannedReparentShard commerce/0: promoted zone1-0000000100 in term 1
  not joined zone1-0000000101: cut
  not joined zone1-0000000102: errant 00000000-0000-4000-8000-000000000102:1
",
            status: 0,
        },
    ];
    plays(&rt, rt.alloc(), &rows)
}

#[test]
fn replicas_follow_their_source(rt: HostRuntime) -> Result<(), Fail> {
    let rows = [Row {
        script: &[
            THREE_REPLICAS,
            "PlannedReparentShard commerce/0 --new-primary zone1-100
settle
local zone1-101
cut zone1-100 zone1-101
write 1
settle
show zone1-101
show zone1-102
",
        ],
        printed: "PlannedReparentShard commerce/0: promoted zone1-0000000100 in term 1
write: committed 00000000-0000-4000-8000-000000000100:2 on zone1-0000000100 in term 1
show zone1-0000000101: replica of zone1-0000000100 in term 1, position MySQL56/00000000-0000-4000-8000-000000000100:1,00000000-0000-4000-8000-000000000101:1
show zone1-0000000102: replica of zone1-0000000100 in term 1, position MySQL56/00000000-0000-4000-8000-000000000100:1-2
",
        status: 0,
    }];
    plays(&rt, rt.alloc(), &rows)
}

#[test]
fn messages_are_lost_and_repeated(rt: HostRuntime) -> Result<(), Fail> {
    let rows = [
        Row {
            script: &[
                THREE_REPLICAS,
                "lose 7
repeat 1
start p PlannedReparentShard commerce/0 --new-primary zone1-100
turn p 4
lose 1
finish p
",
            ],
            printed: "lose: no message 7
repeat: message 1 cannot be delivered
[p] PlannedReparentShard commerce/0: refused 8 Unreachable: zone1-0000000100 lost
",
            status: 1,
        },
        // Who waits too long gives up.
        Row {
            script: &[
                THREE_REPLICAS,
                "start p PlannedReparentShard commerce/0 --new-primary zone1-100
turn p 4
tick 16s
finish p
",
            ],
            printed: "[p] PlannedReparentShard commerce/0: refused 8 Unreachable: zone1-0000000100 timed out since 2024-01-01T00:00:00.000Z at 2024-01-01T00:00:16.000Z
",
            status: 1,
        },
        // A call that comes once more promotes once.
        Row {
            script: &[
                THREE_REPLICAS,
                "PlannedReparentShard commerce/0 --new-primary zone1-100
repeat 1
settle
show zone1-100
",
            ],
            printed: "PlannedReparentShard commerce/0: promoted zone1-0000000100 in term 1
show zone1-0000000100: primary of term 1, position MySQL56/00000000-0000-4000-8000-000000000100:1
",
            status: 0,
        },
    ];
    plays(&rt, rt.alloc(), &rows)
}

#[test]
fn writes_go_to_the_tablet_that_they_name(rt: HostRuntime) -> Result<(), Fail> {
    let rows = [
        Row {
            script: &[
                THREE_REPLICAS,
                "write 1
write 1 to zone1-101
restart zone1-100
",
            ],
            printed: "write: no primary recorded
write: not primary: zone1-0000000101 is stopped
restart: zone1-0000000100 is up
",
            status: 1,
        },
        Row {
            script: &[
                THREE_REPLICAS,
                "PlannedReparentShard commerce/0 --new-primary zone1-100
write 2 to zone1-100
write 1 to zone1-101
",
            ],
            printed: "PlannedReparentShard commerce/0: promoted zone1-0000000100 in term 1
write: committed 00000000-0000-4000-8000-000000000100:2 on zone1-0000000100 in term 1
write: committed 00000000-0000-4000-8000-000000000100:3 on zone1-0000000100 in term 1
write: not primary: zone1-0000000101 is replica of zone1-0000000100 in term 1
",
            status: 1,
        },
    ];
    plays(&rt, rt.alloc(), &rows)
}

#[test]
fn other_lines_are_faults(rt: HostRuntime) -> Result<(), Fail> {
    let rows = [
        Row {
            script: &["jump\n"],
            printed: "script fault: line 1 code 1\n",
            status: 3,
        },
        Row {
            script: &[THREE_REPLICAS, FIRST_RUN, "write 10001"],
            printed: "script fault: line 7 code 8\n",
            status: 3,
        },
        Row {
            script: &[THREE_REPLICAS, FIRST_RUN, THREE_REPLICAS],
            printed: "script fault: line 7 code 10\n",
            status: 3,
        },
    ];
    plays(&rt, rt.alloc(), &rows)
}

#[test]
fn words_without_a_reading_are_faults(rt: HostRuntime) -> Result<(), Fail> {
    let rows: [(&[&str], &str); 3] = [
        (&[], "usage fault: incomplete\n"),
        (&["stepp"], "usage fault: stepp\n"),
        (&["step", "now"], "usage fault: now\n"),
    ];
    for (words, printed) in rows {
        let ran = run(rt.alloc(), words, &[THREE_REPLICAS], &WHOLE)?;
        assert_eq!(rt; ran.written.as_slice(), printed.as_bytes());
        assert_eq!(rt; ran.status, 2);
    }
    Ok(())
}

#[test]
fn streams_byte_by_byte_change_nothing(rt: HostRuntime) -> Result<(), Fail> {
    let streams = Streams {
        piece: 1,
        source_fails: &[],
        sink_fails: &[],
    };
    let ran = run(
        rt.alloc(),
        &["step"],
        &[THREE_REPLICAS, FIRST_RUN],
        &streams,
    )?;
    assert_eq!(rt; ran.written.as_slice(), FIRST_ANSWERS.as_bytes());
    assert_eq!(rt; ran.status, 0);
    Ok(())
}

#[test]
fn a_failing_call_is_told(rt: HostRuntime) -> Result<(), Fail> {
    for number in 1..11 {
        let source = Streams {
            piece: 1,
            source_fails: &[number],
            sink_fails: &[],
        };
        let ran = run(rt.alloc(), &["step"], &[THREE_REPLICAS, FIRST_RUN], &source)?;
        assert_eq!(rt; ran.written.as_slice(), b"read fault\n".as_slice());
        assert_eq!(rt; ran.status, 4);
        let sink = Streams {
            piece: 1,
            source_fails: &[],
            sink_fails: &[number],
        };
        let ran = run(rt.alloc(), &["step"], &[THREE_REPLICAS, FIRST_RUN], &sink)?;
        let taken = FIRST_ANSWERS.as_bytes().get(..number as usize - 1);
        assert_eq!(rt; Some(ran.written.as_slice()), taken);
        assert_eq!(rt; ran.status, 5);
    }
    Ok(())
}
