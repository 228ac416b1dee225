ghost use Rattle.std.specs.Prelude.{◌≡◌, ◌<◌, ◌≤◌, ◌⊎◌, true, false, length, vec_len, vec_capacity};
ghost use Rattle.std.specs.List.{prefix_len, insert};
ghost use Rattle.std.specs.Ordering.{is_gt};
ghost use Rattle.shard_names.specs.Tablets.{alias_eq, alias_cmp, is_among};
ghost use Rattle.topo_lock.specs.Topology.{marked};
ghost use Rattle.topo_lock.specs.Laws.{MarksRise};

use shard_names::Alias;

fn same_alias(a: &Alias, b: &Alias) -> bool
    ensures { result ≡ alias_eq a.now b.now }
{
    a == b
}

fn is_behind(a: &Alias, b: &Alias) -> bool
    ensures { result ≡ is_gt (alias_cmp a.now b.now) }
{
    a.cmp(b).is_gt()
}

/// Whether a tablet has its mark.
fn is_marked(marks: &[Alias], alias: &Alias) -> bool
    ensures { result ≡ is_among marks.now alias.now }
{
    marks.iter().any(|mark| same_alias(alias, mark))
}

/// How many marks a tablet is behind, up to the first that it is not behind.
fn count_before(marks: &[Alias], alias: &Alias) -> usize
    ensures { result ≡ prefix_len (λ mark. is_gt (alias_cmp alias.now mark)) marks.now }
{
    marks
        .iter()
        .take_while(|mark| is_behind(alias, mark))
        .count()
}

/// The place of a new mark: before the first that it is not behind, or at the end.
fn place_of(marks: &[Alias], alias: &Alias) -> usize
    requires new { is_among marks.now alias.now ≡ false }
    ensures within { result ≤ length marks.now }
    ensures place { insert marks.now result alias.now ≡ marked marks.now alias.now }
{
    count_before(marks, alias)
}

/// Puts a new mark in its place.
fn insert_mark(marks: &mut Vec<Alias>, alias: &Alias)
    requires new { is_among marks.old.items alias.now ≡ false }
    requires room { vec_len marks.old < vec_capacity marks.old }
    ensures items { marks.new.items ≡ marked marks.old.items alias.now }
    ensures capacity { vec_capacity marks.old ≤ vec_capacity marks.new }
{
    let place = place_of(marks.as_slice(), alias);
    match marks.insert(place, *alias) {
        Ok(()) => {}
        Err(_) => unreachable!(),
    }
}

/// Marks a tablet, among marks in alias order. It takes no memory: a mark that is there already stays the only one, and a new one
/// takes one of the reserved places.
#[tactic(auto, using(crate::proofs::MarkLemmas::marked_same, crate::proofs::MarkLemmas::marked_rises))]
pub(crate) fn put_mark(marks: &mut Vec<Alias>, alias: &Alias)
    requires in_order { MarksRise marks.old.items }
    requires room { (is_among marks.old.items alias.now ≡ true) ⊎ (vec_len marks.old < vec_capacity marks.old) }
    ensures items { marks.new.items ≡ marked marks.old.items alias.now }
    ensures in_order { MarksRise marks.new.items }
    ensures capacity { vec_capacity marks.old ≤ vec_capacity marks.new }
{
    if is_marked(marks.as_slice(), alias) {
        return;
    }
    insert_mark(marks, alias);
}
