//! What courses promise. The functions do nothing: each one's contract is a law.

ghost use Rattle.courses.specs.Examples.{FirstReparent, UndoneReparent, WaitsForPromotion, NotUndone, StraysOff, AsksWhoFollows, UndoIsNotTold, ExternalRecords, ExternalIsRefused, WriteIsCommitted, WriteFindsNoPrimary};
ghost use Rattle.courses.specs.EmergencyExamples.{PrimaryIsReplaced, WinnerFeeds, WaitsForStops, RefusesUnrevoked, RefusesSplit, RefusesStale};
ghost use Rattle.courses.specs.CourseLaws.{PlannedIsStable, PlannedIsSound, EmergencyIsStable, EmergencyIsSound, ExternalIsStable, ExternalIsSound, WriteIsStable, WriteIsSound, ShowIsStable, ShowIsSound};

/// Once a `PlannedReparentShard` does not wait, what comes of its calls later changes nothing of what it is to do. Each Promote that it
/// sends has its evidence in what it did, and each of its answers has its cause there.
pub fn planned_is_lawful()
    ensures stable { PlannedIsStable }
    ensures sound { PlannedIsSound }
{}

/// The same of an `EmergencyReparentShard`: what it asks a tablet to cover is what the winner has of those that stopped, and those keep every
/// older primary from committing.
pub fn emergency_is_lawful()
    ensures stable { EmergencyIsStable }
    ensures sound { EmergencyIsSound }
{}

/// The same of a `TabletExternallyReparented`, which sends no Promote.
pub fn external_is_lawful()
    ensures stable { ExternalIsStable }
    ensures sound { ExternalIsSound }
{}

/// The same of a write, which is never refused.
pub fn write_is_lawful()
    ensures stable { WriteIsStable }
    ensures sound { WriteIsSound }
{}

/// The same of a show, which does nothing and shows what stood.
pub fn show_is_lawful()
    ensures stable { ShowIsStable }
    ensures sound { ShowIsSound }
{}

/// What is demanded along courses that were played by hand.
pub fn examples_are_played()
    ensures first_reparent { FirstReparent }
    ensures undone_reparent { UndoneReparent }
    ensures waits_for_promotion { WaitsForPromotion }
    ensures not_undone { NotUndone }
    ensures strays_off { StraysOff }
    ensures asks_who_follows { AsksWhoFollows }
    ensures undo_is_not_told { UndoIsNotTold }
    ensures external_records { ExternalRecords }
    ensures external_is_refused { ExternalIsRefused }
    ensures write_is_committed { WriteIsCommitted }
    ensures write_finds_no_primary { WriteFindsNoPrimary }
{}

/// What an `EmergencyReparentShard` demands.
pub fn emergencies_are_played()
    ensures primary_is_replaced { PrimaryIsReplaced }
    ensures winner_feeds { WinnerFeeds }
    ensures waits_for_stops { WaitsForStops }
    ensures refuses_unrevoked { RefusesUnrevoked }
    ensures refuses_split { RefusesSplit }
    ensures refuses_stale { RefusesStale }
{}
