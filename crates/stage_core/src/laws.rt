//! Laws on staged lines. No program needs to call them: each has its law as its contract.
ghost use Rattle.stage_core.specs.Laws.{AcksCounted, BodiesGiven, BodyStands, FitsEach, GoneFits, PutsCounted};
ghost use Rattle.stage_core.specs.Laws.{RoomBegins, RoomComesBack, RoomForNext, RoomGoesOn, SpendsBegins};
ghost use Rattle.stage_core.specs.Laws.{SpendsComesBack, SpendsGoesOn, StagedBodies, StagesAppend};

/// The body of a message that entered stands at its place in the transaction, whatever came behind it.
pub fn body_stands()
    ensures { BodyStands }
{}

/// What lines make of a transaction stands behind what the lines before them made.
pub fn stages_append()
    ensures { StagesAppend }
{}

/// A transaction with room for what lines may add has room for the next of them.
pub fn room_for_next()
    ensures { RoomForNext }
{}

/// And keeps room for those behind it.
pub fn room_goes_on()
    ensures { RoomGoesOn }
{}

/// An empty transaction that has the room which is taken for lines keeps room for them.
pub fn room_begins()
    ensures { RoomBegins }
{}

/// And so does one that is emptied with all of its room.
pub fn room_comes_back()
    ensures { RoomComesBack }
{}

/// What a put may add counts what it adds.
pub fn puts_counted()
    ensures { PutsCounted }
{}

/// And so of an acknowledgement.
pub fn acks_counted()
    ensures { AcksCounted }
{}

/// There is room for the item that says that an entry is gone, of whatever queue.
pub fn gone_fits()
    ensures { GoneFits }
{}

/// Before the lines nothing is spent of what they may add.
pub fn spends_begins()
    ensures { SpendsBegins }
{}

/// Each line spends no more than it may add.
pub fn spends_goes_on()
    ensures { SpendsGoesOn }
{}

/// A transaction that is emptied has spent nothing.
pub fn spends_comes_back()
    ensures { SpendsComesBack }
{}

/// So a transaction has no more bytes than a table has to be made for.
pub fn fits_each()
    ensures { FitsEach }
{}

/// The body of each persistent put that is staged stands at its place in the transaction.
pub fn staged_bodies()
    ensures { StagedBodies }
{}

/// And where a read gives the transaction from a place on, it gives the body so far behind.
pub fn bodies_given()
    ensures { BodiesGiven }
{}
