use crate::{is_cut, link_between, link_to};
use shard_names::Alias;
use std::process::Abort;
use std::test::Fail;

fn alias(rt: &impl Abort, text: &[u8]) -> Alias {
    Alias::read(text).ok().expect(rt, "an alias")
}

#[test]
fn a_link_has_no_direction(rt: HostRuntime) -> Result<(), Fail> {
    let a = alias(&rt, b"zone1-100");
    let b = alias(&rt, b"zone1-101");
    assert!(rt; is_cut(&[link_between(&a, &b)], &link_between(&b, &a)));
    Ok(())
}

#[test]
fn commands_have_links_of_their_own(rt: HostRuntime) -> Result<(), Fail> {
    let a = alias(&rt, b"zone1-100");
    let b = alias(&rt, b"zone1-101");
    assert!(rt; !is_cut(&[link_between(&a, &b)], &link_to(&a)));
    assert!(rt; is_cut(&[link_between(&a, &b), link_to(&a)], &link_to(&a)));
    Ok(())
}
