//! Laws about survivors. Each function does nothing; its contract is the law.
ghost use Rattle.cs_rows.specs.PutLaws.{RoomIsEmpty, ImagesArePut, JoinsArePut};

/// New survivors have a slot for each name of the catalog, and every slot is empty.
pub fn room_is_empty()
    ensures { RoomIsEmpty }
{}

/// Putting an image fills its segment's slot; nothing else changes.
pub fn images_are_put()
    ensures { ImagesArePut }
{}

/// Putting a join index fills the slot of its segment and target; nothing else changes.
pub fn joins_are_put()
    ensures { JoinsArePut }
{}
