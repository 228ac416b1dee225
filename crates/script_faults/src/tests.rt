use crate::{Fault, line_fault};
use std::test::Fail;

#[test]
fn answers_the_first_fault_in_order(rt: HostRuntime) -> Result<(), Fail> {
    let none = [b"write".as_slice(), b"3", b"to", b"zone1-100"];
    assert_eq!(rt; line_fault(&none), None);
    let limit = [b"tick".as_slice(), b"1441m", b"more"];
    assert_eq!(rt; line_fault(&limit).map(Fault::code), Some(8));
    let word = [b"crash".as_slice(), b"zone", b"kept", b"-1"];
    assert_eq!(rt; line_fault(&word).map(Fault::code), Some(1));
    let number = [b"crash".as_slice(), b"zone", b"keep", b"-1"];
    assert_eq!(rt; line_fault(&number).map(Fault::code), Some(7));
    Ok(())
}
