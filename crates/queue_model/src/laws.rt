//! Laws of histories, on which every crate above rests. Each is the contract of a function with no body.
ghost use Rattle.queue_model.specs.Laws.{AfterAppend, LegalAppend, LegalFront, LegalRest, OwnAppend, OwnMine, OwnOther, PrefixSelf, PrefixMore, PrefixTrans, PrefixShorter, PrefixWhole, PrefixLength, LegalPrefix, OwnBetween, SeenAll, RowAlter, RowAlterOther, RowSum, RowAppend, RowPush, RowPushOther, RowNumber, RowHere, RowElsewhere, ReservedAlter, ReservedAlterOther, ReservedPush, ReservedPushOther, ReservedSum, DepthReserve, DepthGiveBack, DepthKept, DepthLow, SoundOpening, SoundStep, SoundAfter, RowStep, RowStays, NewStep, NewStays, ListStep, ListStays, PlaceStep, PlaceStays, HeldRowStep, HeldRowStays, HeldStep, HeldStays, ReservedStep, ReservedStays, DeletedStep, DeletedStays, GoneStep, GoneStays, BellStep, BellStays, OwnAcquired, OwnLocked, OwnStolen, OwnUnlocked, OwnReleased, OwnDequeued, OwnDeleted, ReservedHolder, OwnReserve, OwnDequeue, OwnGiveBack, OwnEnqueue, OwnEnqueued, OwnEnqueuedLast, BellRung, BellTaken, LockStays, Gains, PrecedesTotal, PrecedesNot, PrecedesTrans, OlderTotal, OlderNot, OlderTrans, ArrivalSame, PlaceSame};

/// Histories one after the other.
pub fn histories()
    ensures after_append { AfterAppend }
    ensures legal_append { LegalAppend }
    ensures legal_front { LegalFront }
    ensures legal_rest { LegalRest }
    ensures own_append { OwnAppend }
    ensures own_mine { OwnMine }
    ensures own_other { OwnOther }
{}

/// Prefixes of histories.
pub fn prefixes()
    ensures itself { PrefixSelf }
    ensures more { PrefixMore }
    ensures trans { PrefixTrans }
    ensures shorter { PrefixShorter }
    ensures whole { PrefixWhole }
    ensures long { PrefixLength }
    ensures legal { LegalPrefix }
    ensures own_between { OwnBetween }
    ensures seen_all { SeenAll }
{}

/// Rows and reservations are found by their keys.
pub fn keyed()
    ensures row_alter { RowAlter }
    ensures row_alter_other { RowAlterOther }
    ensures row_sum { RowSum }
    ensures row_append { RowAppend }
    ensures row_push { RowPush }
    ensures row_push_other { RowPushOther }
    ensures row_number { RowNumber }
    ensures row_here { RowHere }
    ensures row_elsewhere { RowElsewhere }
    ensures reserved_alter { ReservedAlter }
    ensures reserved_alter_other { ReservedAlterOther }
    ensures reserved_push { ReservedPush }
    ensures reserved_push_other { ReservedPushOther }
    ensures reserved_sum { ReservedSum }
{}

/// What each act does to the depth.
pub fn depths()
    ensures reserve { DepthReserve }
    ensures give_back { DepthGiveBack }
    ensures kept { DepthKept }
    ensures low { DepthLow }
{}

/// What an opening leads to stays sound.
pub fn soundness()
    ensures opening { SoundOpening }
    ensures step { SoundStep }
    ensures after { SoundAfter }
{}

/// What steps leave as it is.
pub fn stays()
    ensures row_step { RowStep }
    ensures row_stays { RowStays }
    ensures new_step { NewStep }
    ensures new_stays { NewStays }
    ensures list_step { ListStep }
    ensures list_stays { ListStays }
    ensures place_step { PlaceStep }
    ensures place_stays { PlaceStays }
    ensures held_row_step { HeldRowStep }
    ensures held_row_stays { HeldRowStays }
    ensures held_step { HeldStep }
    ensures held_stays { HeldStays }
    ensures reserved_step { ReservedStep }
    ensures reserved_stays { ReservedStays }
    ensures deleted_step { DeletedStep }
    ensures deleted_stays { DeletedStays }
    ensures gone_step { GoneStep }
    ensures gone_stays { GoneStays }
    ensures bell_step { BellStep }
    ensures bell_stays { BellStays }
{}

/// What a caller's own acts do.
pub fn own_acts()
    ensures acquired { OwnAcquired }
    ensures locked { OwnLocked }
    ensures stolen { OwnStolen }
    ensures unlocked { OwnUnlocked }
    ensures released { OwnReleased }
    ensures dequeued { OwnDequeued }
    ensures deleted { OwnDeleted }
    ensures holder { ReservedHolder }
    ensures reserve { OwnReserve }
    ensures dequeue { OwnDequeue }
    ensures give_back { OwnGiveBack }
    ensures enqueue { OwnEnqueue }
    ensures enqueued { OwnEnqueued }
    ensures last { OwnEnqueuedLast }
    ensures rung { BellRung }
    ensures taken { BellTaken }
{}

/// Which rows a caller holds after a call of its own, whatever others do.
pub fn locks()
    ensures stays { LockStays }
    ensures gains { Gains }
{}

/// Queue order and oldest order: of any two rows of a queue one comes first.
pub fn order()
    ensures total { PrecedesTotal }
    ensures itself { PrecedesNot }
    ensures trans { PrecedesTrans }
    ensures older_total { OlderTotal }
    ensures older_itself { OlderNot }
    ensures older_trans { OlderTrans }
    ensures arrival { ArrivalSame }
    ensures place { PlaceSame }
{}
