//! Of tablets that stopped, which one is ahead of all, and which two are apart.

ghost use Rattle.std.specs.Prelude.{◌≡◌, ◌==◌, filter};
ghost use Rattle.std.specs.List.{find};
ghost use Rattle.std.specs.Option.{option_copied};
ghost use Rattle.gtid_sets.specs.Position.{covers, greatest};
ghost use Rattle.gtid_sets.specs.Winner.{newest_of, covers_all, leading, winner, is_apart, first_apart};
ghost use Rattle.errant.specs.Split.{pair_of, apart_if};

use gtid_sets::{Held, covers};

/// The term of the newest row of all these logs, or 0. It takes no memory.
pub fn newest(helds: &[Held]) -> u64
    ensures { result ≡ newest_of helds.now }
{
    let mut newest = 0;
    let mut left = helds;
    while let Some((held, more)) = left.split_first() {
        newest = newest.max(held.newest);
        left = more;
    }
    newest
}

/// Whether the tablet has all that those have whose newest row is of this term.
fn covers_all(helds: &[Held], newest: u64, held: &Held) -> bool
    ensures { result ≡ covers_all (filter (λ h. h.newest == newest) helds.now) held.now }
{
    helds
        .iter()
        .filter(|other| other.newest == newest)
        .all(|other| covers(&held.position, &other.position))
}

/// The tablet that is ahead of all: of those with the newest row of all, the first that has all that they have. It takes no
/// memory.
pub fn find_winner(helds: &[Held]) -> Option<&Held>
    ensures { option_copied result ≡ winner helds.now }
{
    let newest = newest(helds);
    helds
        .iter()
        .filter(|held| held.newest == newest)
        .find(|held| covers_all(helds, newest, held))
}

fn is_apart(a: &Held, b: &Held) -> bool
    ensures { result ≡ is_apart a.now b.now }
{
    !covers(&a.position, &b.position) && !covers(&b.position, &a.position)
}

/// The first of those with a newest row of this term that is apart from the tablet.
fn find_apart<'a>(newest: u64, held: &Held, helds: &'a [Held]) -> Option<&'a Held>
    ensures { option_copied result ≡ find (is_apart held.now) (filter (λ h. h.newest == newest) helds.now) }
{
    helds
        .iter()
        .filter(|other| other.newest == newest)
        .find(|other| is_apart(held, other))
}

/// The same for the tablet itself, if its newest row is of this term.
fn apart_from<'a>(newest: u64, held: &'a Held, helds: &'a [Held]) -> Option<(&'a Held, &'a Held)>
    ensures { pair_of result ≡ apart_if newest held.now helds.now }
{
    if held.newest != newest {
        return None;
    }
    let other = find_apart(newest, held, helds)?;
    Some((held, other))
}

/// Of those with the newest row of all the first two of which neither has all that the other has. It takes no memory.
pub fn first_apart(helds: &[Held]) -> Option<(&Held, &Held)>
    ensures { pair_of result ≡ first_apart (leading helds.now) }
{
    let newest = newest(helds);
    let mut left = helds;
    while let Some((held, more)) = left.split_first() {
        if let Some(two) = apart_from(newest, held, more) {
            return Some(two);
        }
        left = more;
    }
    None
}
