//! Rehearsals from a number, and the words that ask for them.

use crate::tests::{FIRST_ANSWERS, FIRST_RUN, THREE_REPLICAS, WHOLE, run};
use std::test::Fail;

#[test]
fn a_rehearsal_is_summed_up(rt: HostRuntime) -> Result<(), Fail> {
    let rows: [&[&str]; 4] = [
        &["gen", "3"],
        &["gen", "--", "3"],
        &["gen", "3", "--"],
        &["gen", "003"],
    ];
    let printed = b"gen 3: 8 commands, 0 refused, 1 term, 5 committed\n".as_slice();
    for words in rows {
        let ran = run(rt.alloc(), words, &[THREE_REPLICAS], &WHOLE)?;
        assert_eq!(rt; ran.written.as_slice(), printed);
        assert_eq!(rt; ran.status, 0);
    }
    Ok(())
}

#[test]
fn a_rehearsal_has_one_number_of_rounds(rt: HostRuntime) -> Result<(), Fail> {
    let rows: [(&[&str], &str); 9] = [
        (&["gen"], "usage fault: incomplete\n"),
        (&["gen", "--"], "usage fault: incomplete\n"),
        (&["gen", "0"], "usage fault: 0\n"),
        (&["gen", "1001"], "usage fault: 1001\n"),
        (&["gen", "3s"], "usage fault: 3s\n"),
        (&["gen", "3", "4"], "usage fault: 4\n"),
        (&["gen", "--", "3", "--"], "usage fault: --\n"),
        (&["--", "gen", "3"], "usage fault: --\n"),
        (&["step", "--", "3"], "usage fault: 3\n"),
    ];
    for (words, printed) in rows {
        let ran = run(rt.alloc(), words, &[THREE_REPLICAS], &WHOLE)?;
        assert_eq!(rt; ran.written.as_slice(), printed.as_bytes());
        assert_eq!(rt; ran.status, 2);
    }
    Ok(())
}

#[test]
fn dashes_behind_the_first_word_say_nothing(rt: HostRuntime) -> Result<(), Fail> {
    let ran = run(
        rt.alloc(),
        &["step", "--"],
        &[THREE_REPLICAS, FIRST_RUN],
        &WHOLE,
    )?;
    assert_eq!(rt; ran.written.as_slice(), FIRST_ANSWERS.as_bytes());
    assert_eq!(rt; ran.status, 0);
    Ok(())
}
