ghost use Rattle.std.specs.Prelude.{◌≡◌};
ghost use Rattle.shard_calls.specs.Messages.{side_eq, link_eq, is_cut, link_to, link_between, link_of};

use shard_calls::{Content, Link, Side};
use shard_names::Alias;

fn side_eq(x: &Side, y: &Side) -> bool
    ensures { result ≡ side_eq x.now y.now }
{
    match x {
        Side::Control => match y {
            Side::Control => true,
            Side::Tablet { .. } => false,
        },
        Side::Tablet { alias } => match y {
            Side::Control => false,
            Side::Tablet { alias: other } => *alias == *other,
        },
    }
}

/// Whether two links are one, in either direction.
pub fn link_eq(k: &Link, l: &Link) -> bool
    ensures { result ≡ link_eq k.now l.now }
{
    (side_eq(&k.x, &l.x) && side_eq(&k.y, &l.y)) || (side_eq(&k.x, &l.y) && side_eq(&k.y, &l.x))
}

/// Whether the link is among those that are cut. It costs the steps to it.
pub fn is_cut(cuts: &[Link], link: &Link) -> bool
    ensures { result ≡ is_cut cuts.now link.now }
{
    cuts.iter().any(|each| link_eq(link, each))
}

/// The link over which commands call this tablet.
pub fn link_to(alias: &Alias) -> Link
    ensures { result ≡ link_to alias.now }
{
    Link {
        x: Side::Control,
        y: Side::Tablet { alias: *alias },
    }
}

/// The link between two tablets.
pub fn link_between(a: &Alias, b: &Alias) -> Link
    ensures { result ≡ link_between a.now b.now }
{
    Link {
        x: Side::Tablet { alias: *a },
        y: Side::Tablet { alias: *b },
    }
}

/// The link that a message takes.
pub fn link_of(content: &Content) -> Link
    ensures { result ≡ link_of content.now }
{
    match content {
        Content::Asks { to, .. } => link_to(to),
        Content::Answers { from, .. } => link_to(from),
        Content::Feeds { from, to, .. } => link_between(from, to),
        Content::Acks { from, to, .. } => link_between(from, to),
    }
}
