//! Histories that are printed, and the words that ask for them.

use crate::tests::{THREE_REPLICAS, WHOLE, run};
use std::test::Fail;

/// One tablet, a comment, and the first reparent.
const ONE_TABLET: &str = "# A story.
shard commerce/0 none
tablet zone1-100 replica 00000000-0000-4000-8000-000000000100

PlannedReparentShard commerce/0
";

const ITS_HISTORY: &str = "shard commerce/0 none
tablet zone1-0000000100 replica 00000000-0000-4000-8000-000000000100
clock 2024-01-01T00:00:00.000Z
history
begin main PlannedReparentShard commerce/0 = command 1
take 1 = term 1
read 1 = record - intent - drained -
intend 1 zone1-0000000100 = ok
send 1 zone1-0000000100 promote - = message 1
deliver 1 = message 2
deliver 2 = ok
record 1 zone1-0000000100 = ok
send 1 zone1-0000000100 waittold 2024-01-01T00:00:15.000Z = message 3
deliver 3 = message 4
deliver 4 = ok
release 1 = ok
end 1 = PlannedReparentShard commerce/0: promoted zone1-0000000100 in term 1
";

#[test]
fn a_history_is_printed(rt: HostRuntime) -> Result<(), Fail> {
    let rows: [(&[&str], &str, &str); 4] = [
        (&["step", "--history"], ONE_TABLET, ITS_HISTORY),
        (&["step", "--history", "--"], ONE_TABLET, ITS_HISTORY),
        (&["step", "--history"], "", "history\n"),
        (
            &["step", "--history"],
            "shard a/b none\nclock 2024-02-29T12:00:00Z\nlapse",
            "shard a/b none
clock 2024-02-29T12:00:00.000Z
history
lapse = ok
",
        ),
    ];
    for (words, script, printed) in rows {
        let ran = run(rt.alloc(), words, &[script], &WHOLE)?;
        assert_eq!(rt; ran.written.as_slice(), printed.as_bytes());
        assert_eq!(rt; ran.status, 0);
    }
    Ok(())
}

#[test]
fn a_history_is_asked_for_once(rt: HostRuntime) -> Result<(), Fail> {
    let rows: [(&[&str], &str); 4] = [
        (
            &["step", "--history", "--history"],
            "usage fault: --history\n",
        ),
        (&["step", "--", "--history"], "usage fault: --history\n"),
        (&["step", "--history=yes"], "usage fault: --history=yes\n"),
        (&["gen", "3", "--history"], "usage fault: --history\n"),
    ];
    for (words, printed) in rows {
        let ran = run(rt.alloc(), words, &[THREE_REPLICAS], &WHOLE)?;
        assert_eq!(rt; ran.written.as_slice(), printed.as_bytes());
        assert_eq!(rt; ran.status, 2);
    }
    Ok(())
}
