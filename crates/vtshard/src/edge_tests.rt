//! Scripts at the edges of what there may be, words that are no text, and streams of the system that fail.

use crate::streams::Counted;
use crate::tests::{Row, THREE_REPLICAS, plays};
use crate::words::read_words;
use shard_top::{Sink, Source};
use std::alloc::Global;
use std::env::{Env, FillError};
use std::io::{self, ErrorKind, Read, Write};
use std::test::Fail;

/// The same line so many times.
fn repeated(alloc: Global, line: &str, count: usize) -> Result<String, Fail> {
    let mut text = String::new(alloc);
    for _time in 0..count {
        text.push_str(line)?;
    }
    Ok(text)
}

#[test]
fn messages_without_a_number_are_noted(rt: HostRuntime) -> Result<(), Fail> {
    let rows = [Row {
        script: &[THREE_REPLICAS, "lose 0\nrepeat 0\n"],
        printed: "lose: no message 0\nrepeat: message 0 cannot be delivered\n",
        status: 1,
    }];
    plays(&rt, rt.alloc(), &rows)
}

#[test]
fn two_tablets_may_be_cut_off(rt: HostRuntime) -> Result<(), Fail> {
    let rows = [Row {
        script: &[
            "shard commerce/0 none
tablet zone1-100 replica 00000000-0000-4000-8000-000000000100
tablet zone1-101 replica 00000000-0000-4000-8000-000000000101
cut control zone1-100
PlannedReparentShard commerce/0 --new-primary zone1-100
",
        ],
        printed: "PlannedReparentShard commerce/0: refused 8 Unreachable: zone1-0000000100 cut\n",
        status: 1,
    }];
    plays(&rt, rt.alloc(), &rows)
}

#[test]
fn a_fault_is_on_its_line(rt: HostRuntime) -> Result<(), Fail> {
    let rows = [Row {
        script: &["shard commerce/0 none\njump\n"],
        printed: "script fault: line 2 code 1\n",
        status: 3,
    }];
    plays(&rt, rt.alloc(), &rows)
}

#[test]
fn comments_are_passed_over(rt: HostRuntime) -> Result<(), Fail> {
    let rows = [
        // Comments, tabs and carriage returns change nothing.
        Row {
            script: &[
                "# A first run.\r\n\r\n",
                THREE_REPLICAS,
                "\t# One is promoted.\r
\tPlannedReparentShard  commerce/0\t--new-primary zone1-100\t\r
 \t
write\t2\r
#write 1
# The end.",
            ],
            printed: "PlannedReparentShard commerce/0: promoted zone1-0000000100 in term 1
write: committed 00000000-0000-4000-8000-000000000100:2 on zone1-0000000100 in term 1
write: committed 00000000-0000-4000-8000-000000000100:3 on zone1-0000000100 in term 1
",
            status: 0,
        },
        // They are counted.
        Row {
            script: &["# A story.\n\n", THREE_REPLICAS, "write 1 # twice\n"],
            printed: "script fault: line 7 code 1\n",
            status: 3,
        },
        // Nothing stands in a comment that may not stand in a script.
        Row {
            script: &["# café\n"],
            printed: "script fault: line 1 code 1\n",
            status: 3,
        },
    ];
    plays(&rt, rt.alloc(), &rows)
}

#[test]
fn a_position_has_many_transactions(rt: HostRuntime) -> Result<(), Fail> {
    let rows = [Row {
        script: &[
            THREE_REPLICAS,
            "PlannedReparentShard commerce/0 --new-primary zone1-100
write 3
settle
local zone1-101
local zone1-101
local zone1-101
show zone1-100
show zone1-101
",
        ],
        printed: "PlannedReparentShard commerce/0: promoted zone1-0000000100 in term 1
write: committed 00000000-0000-4000-8000-000000000100:2 on zone1-0000000100 in term 1
write: committed 00000000-0000-4000-8000-000000000100:3 on zone1-0000000100 in term 1
write: committed 00000000-0000-4000-8000-000000000100:4 on zone1-0000000100 in term 1
show zone1-0000000100: primary of term 1, position MySQL56/00000000-0000-4000-8000-000000000100:1-4
show zone1-0000000101: replica of zone1-0000000100 in term 1, position MySQL56/00000000-0000-4000-8000-000000000100:1-4,00000000-0000-4000-8000-000000000101:1-3
",
        status: 0,
    }];
    plays(&rt, rt.alloc(), &rows)
}

#[test]
fn a_command_takes_the_third_term(rt: HostRuntime) -> Result<(), Fail> {
    let rows = [Row {
        script: &[
            THREE_REPLICAS,
            "start p PlannedReparentShard commerce/0 --new-primary zone1-100
turn p 1
lapse
start q PlannedReparentShard commerce/0 --new-primary zone1-101
turn q 1
lapse
PlannedReparentShard commerce/0 --new-primary zone1-102
finish p
finish q
write 1
",
        ],
        printed: "PlannedReparentShard commerce/0: promoted zone1-0000000102 in term 3
[p] PlannedReparentShard commerce/0: refused 2 LockLost: topology is at term 3
[q] PlannedReparentShard commerce/0: refused 2 LockLost: topology is at term 3
write: committed 00000000-0000-4000-8000-000000000102:2 on zone1-0000000102 in term 3
",
        status: 1,
    }];
    plays(&rt, rt.alloc(), &rows)
}

/// What a write answers before the first reparent.
const NO_PRIMARY: &str = "write: no primary recorded\n";

#[test]
fn seventeen_commands_answer(rt: HostRuntime) -> Result<(), Fail> {
    let printed = repeated(rt.alloc(), NO_PRIMARY, 17)?;
    let rows = [Row {
        script: &[THREE_REPLICAS, "write 17\n"],
        printed: printed.as_str(),
        status: 1,
    }];
    plays(&rt, rt.alloc(), &rows)
}

#[test]
fn a_history_has_more_than_a_thousand_steps(rt: HostRuntime) -> Result<(), Fail> {
    let printed = repeated(rt.alloc(), NO_PRIMARY, 501)?;
    let script = repeated(rt.alloc(), "write 100\n", 5)?;
    let rows = [Row {
        script: &[THREE_REPLICAS, script.as_str(), "write 1\n"],
        printed: printed.as_str(),
        status: 1,
    }];
    plays(&rt, rt.alloc(), &rows)
}

#[test]
fn a_script_has_twenty_thousand_lines(rt: HostRuntime) -> Result<(), Fail> {
    let lines = repeated(rt.alloc(), "settle\n", 19_999)?;
    let rows = [
        Row {
            script: &["shard commerce/0 none\n", lines.as_str()],
            printed: "",
            status: 0,
        },
        Row {
            script: &["shard commerce/0 none\n", lines.as_str(), "settle\n"],
            printed: "script fault: line 20001 code 8\n",
            status: 3,
        },
    ];
    plays(&rt, rt.alloc(), &rows)
}

/// A shard of one tablet with a long alias: 118 bytes.
const LONG_ALIAS: &str = "shard commerce/0 none
tablet cccccccccccccccccccccccccccccccc-4294967295 replica 00000000-0000-4000-8000-000000000100
";

/// A line of 76 bytes.
const LONG_LINE: &str =
    "crash cccccccccccccccccccccccccccccccc-4294967295 keep 18446744073709551615\n";

/// A line of 57 bytes.
const SHORT_LINE: &str = "crash cccccccccccccccccccccccccccccccc-4294967295 keep 1\n";

#[test]
fn a_script_has_1048576_bytes(rt: HostRuntime) -> Result<(), Fail> {
    let lines = repeated(rt.alloc(), LONG_LINE, 13_794)?;
    let rows = [
        Row {
            script: &[LONG_ALIAS, lines.as_str(), SHORT_LINE, SHORT_LINE],
            printed: "",
            status: 0,
        },
        Row {
            script: &[
                LONG_ALIAS,
                lines.as_str(),
                SHORT_LINE,
                "crash cccccccccccccccccccccccccccccccc-4294967295 keep 10\n",
            ],
            printed: "script fault: line 13798 code 8\n",
            status: 3,
        },
    ];
    plays(&rt, rt.alloc(), &rows)
}

/// The words of a program, of which the first is its name.
#[derive(Drop)]
struct Words<'a> {
    words: &'a [&'a [u8]],
}

impl Env for Words<'_> {
    fn arg(&self, i: usize, buf: &mut [u8]) -> Result<usize, FillError> {
        let Some(word) = self.words.get(i) else {
            return Err(FillError::NotPresent);
        };
        if word.len() > buf.len() {
            return Err(FillError::TooLong);
        }
        buf[..word.len()].copy_from_slice(word);
        Ok(word.len())
    }

    fn var(&self, _name: &str, _buf: &mut [u8]) -> Result<usize, FillError> {
        Err(FillError::NotPresent)
    }

    fn var_at(&self, _i: usize, _buf: &mut [u8]) -> Result<usize, FillError> {
        Err(FillError::NotPresent)
    }
}

#[test]
fn a_word_that_is_no_text_is_a_question_mark(rt: HostRuntime) -> Result<(), Fail> {
    let long = [b'w'; 300];
    let env = Words {
        words: &[b"vtshard", b"x", b"\xff\xfe", &long],
    };
    let words = read_words(&env, rt.alloc())?;
    assert_eq!(rt; words.len(), 3);
    assert_eq!(rt; words[0].as_slice(), b"x".as_slice());
    assert_eq!(rt; words[1].as_slice(), b"?".as_slice());
    assert_eq!(rt; words[2].as_slice(), long.as_slice());
    Ok(())
}

/// A stream of the system, of which the second call fails. A write takes nothing from the third call on.
#[derive(Drop)]
struct Faulty {
    calls: u64,
}

impl Faulty {
    fn call(&mut self) -> io::Result<()> {
        self.calls = self.calls.saturating_add(1);
        if self.calls == 2 {
            return Err(io::Error::from(ErrorKind::Other));
        }
        Ok(())
    }
}

impl Read for Faulty {
    fn read(&mut self, buf: &mut [u8]) -> io::Result<usize> {
        self.call()?;
        Ok(buf.len().min(1))
    }
}

impl Write for Faulty {
    fn write(&mut self, buf: &[u8]) -> io::Result<usize> {
        self.call()?;
        if self.calls > 2 {
            return Ok(0);
        }
        Ok(buf.len().min(1))
    }

    fn flush(&mut self) -> io::Result<()> {
        Ok(())
    }
}

#[test]
fn faults_of_the_system_are_passed_on(rt: HostRuntime) -> Result<(), Fail> {
    let mut input = Counted::new(Faulty { calls: 0 });
    let mut room = [0u8; 4];
    assert_eq!(rt; input.take(&mut room).ok(), Some(1));
    assert_eq!(rt; input.take(&mut room).ok(), None);
    assert_eq!(rt; input.take(&mut room).ok(), Some(1));
    let mut output = Counted::new(Faulty { calls: 0 });
    assert_eq!(rt; output.put(b"ab").ok(), Some(1));
    assert_eq!(rt; output.put(b"ab").ok(), None);
    assert_eq!(rt; output.put(b"ab").ok(), None);
    assert_eq!(rt; output.put(b"").ok(), Some(0));
    Ok(())
}
