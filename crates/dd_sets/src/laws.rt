//! What is true of all sets, for callers to cite. Each function does nothing, and its contract is
//! the law.
ghost use Rattle.dd_sets.specs.Laws.{TightIsMonotone, SetsDependOnFluents, OneSetPerSlot};
ghost use Rattle.dd_sets.specs.Laws.{FullIsTight, FullIsNoRoom, PieceIsNoRoom, NoRoomWithin};
ghost use Rattle.dd_sets.specs.Laws.{NoRoomOfFewer, NoRoomAfterRelease, NoRoomIsTight};
ghost use Rattle.dd_sets.specs.Laws.{NoRoomIsSmall, NoRoomBefore, EverySetIsSmall};
ghost use Rattle.dd_sets.specs.Laws.{ConstantsAreSmall, VariablesAreSmall, ComplementsAreSmall};
ghost use Rattle.dd_sets.specs.Laws.{CofactorsAreSmall, SmallIsRough, ComplementsAreRough};
ghost use Rattle.dd_sets.specs.Laws.{CofactorsAreRough, MeetsAreRough, JoinsAreRough};
ghost use Rattle.dd_sets.specs.Laws.{DifferencesAreRough, AgreeingSets, SubstIsSmall};
ghost use Rattle.dd_sets.specs.Laws.{KeepsItself, KeepsInTurn, KeepsPastEnd};
ghost use Rattle.dd_sets.specs.Laws.{OwnsInTurn, OwnsPastEnd, OwnSlotsAreLive, OwnSlotIsAdded};
ghost use Rattle.dd_sets.specs.Laws.{AnswerKeeps};

/// A limit that is tight for so many nodes is tight for more.
pub fn tight_is_monotone()
    ensures { TightIsMonotone }
{}

/// Whether a list of truth values is in a slot's set depends on the values of the fluents alone.
pub fn sets_depend_on_fluents()
    ensures { SetsDependOnFluents }
{}

/// There are as many live sets as live slots.
pub fn one_set_per_slot()
    ensures { OneSetPerSlot }
{}

/// Where a call with one piece finds no room, the limit is tight for the sets that were live before
/// it, by their slots.
pub fn full_is_tight()
    ensures { FullIsTight }
{}

/// An operation that found no room had no slot of its own.
pub fn full_is_no_room()
    ensures { FullIsNoRoom }
{}

/// The same of an operation with one piece.
pub fn piece_is_no_room()
    ensures { PieceIsNoRoom }
{}

/// Where a call found no room, so did its caller, with the slots that it had besides.
pub fn no_room_within()
    ensures { NoRoomWithin }
{}

/// A call that had so many slots at most had no more than a greater number.
pub fn no_room_of_fewer()
    ensures { NoRoomOfFewer }
{}

/// The end of a slot makes no room.
pub fn no_room_after_release()
    ensures { NoRoomAfterRelease }
{}

/// Where a call found no room, the limit is tight by slots.
pub fn no_room_is_tight()
    ensures { NoRoomIsTight }
{}

/// Where a call found no room, the limit is less than the nodes of the live sets and those of the
/// call's own, by their sizes.
pub fn no_room_is_small()
    ensures { NoRoomIsSmall }
{}

/// Where a call found no room, so did its caller, which kept every live slot.
pub fn no_room_before()
    ensures { NoRoomBefore }
{}

/// Each set has fewer nodes than there are lists of truth values.
pub fn every_set_is_small()
    ensures { EverySetIsSmall }
{}

/// Sets that are small.
pub fn small_sets()
    ensures constants { ConstantsAreSmall }
    ensures variables { VariablesAreSmall }
    ensures complements { ComplementsAreSmall }
    ensures cofactors { CofactorsAreSmall }
{}

/// Sets that are rough.
pub fn rough_sets()
    ensures small { SmallIsRough }
    ensures complements { ComplementsAreRough }
    ensures cofactors { CofactorsAreRough }
    ensures meets { MeetsAreRough }
    ensures joins { JoinsAreRough }
    ensures differences { DifferencesAreRough }
{}

/// Sets that have the same vectors have the same nodes.
pub fn agreeing_sets()
    ensures { AgreeingSets }
{}

/// A substitution in a small set, each of whose subfunctions becomes a small set, has rough pieces.
pub fn subst_is_small()
    ensures { SubstIsSmall }
{}

/// What keeps the live slots with their sets.
pub fn live_slots_are_kept()
    ensures itself { KeepsItself }
    ensures in_turn { KeepsInTurn }
    ensures past_end { KeepsPastEnd }
{}

/// What becomes of a caller's slots.
pub fn own_slots_follow_calls()
    ensures in_turn { OwnsInTurn }
    ensures past_end { OwnsPastEnd }
    ensures live { OwnSlotsAreLive }
    ensures added { OwnSlotIsAdded }
    ensures answer { AnswerKeeps }
{}
