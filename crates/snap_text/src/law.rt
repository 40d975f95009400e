//! Laws of fields.
ghost use Rattle.snap_text.specs.Laws.{FieldsAreOneEvents, FieldsReadBack, RecordsAreSpelled};

/// No two events have the same four fields.
pub fn fields_are_one_events()
    ensures { FieldsAreOneEvents }
{}

/// Every event whose parts fit their types is read from its four fields.
pub fn fields_read_back()
    ensures { FieldsReadBack }
{}

/// A record is read as an event only if it has the event's four fields.
pub fn records_are_spelled()
    ensures { RecordsAreSpelled }
{}
