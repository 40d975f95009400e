//! Laws of texts.
ghost use Rattle.snap_format.specs.Laws.{HeadersDiffer, NarrowTextsAreShort, RecordsSpellEvents, StampedTextsReadBack, TextsAreDecided, TextsAreHistories, TextsAreShort, TextsHaveNoFault, TextsHaveOneFault, TextsHaveOneReading, TextsReadBack};

/// The text of a history has no fault and is that of this history, within every limit of events and its limit of bytes.
pub fn texts_read_back()
    ensures { TextsReadBack }
{}

/// Within each limit, a text that is one of a history has no fault.
pub fn texts_have_no_fault()
    ensures { TextsHaveNoFault }
{}

/// The text of every history of at most a quarter of the events of a limit is within its limit of bytes.
pub fn texts_are_short()
    ensures { TextsAreShort }
{}

/// The text of every history within a limit whose views list at most 36 entries each is within its limit of bytes.
pub fn narrow_texts_are_short()
    ensures { NarrowTextsAreShort }
{}

/// Within each limit, a text is one of a history, or it has a first fault.
pub fn texts_are_decided()
    ensures { TextsAreDecided }
{}

/// Within a limit that may be chosen, the events of a text are a history.
pub fn texts_are_histories()
    ensures { TextsAreHistories }
{}

/// Within a limit, a text is one of at most one history.
pub fn texts_have_one_reading()
    ensures { TextsHaveOneReading }
{}

/// Within a limit, a text has at most one first fault.
pub fn texts_have_one_fault()
    ensures { TextsHaveOneFault }
{}

/// No record is the header of both kinds of text.
pub fn headers_differ()
    ensures { HeadersDiffer }
{}

/// The text of a history with strictly rising stamps has no fault and is that of this history. This holds within every limit of
/// events and its limit of bytes.
pub fn stamped_texts_read_back()
    ensures { StampedTextsReadBack }
{}

/// If a text is one of a history with these records, it has as many of them as events, and no two are the same. The record of
/// each event's number has that event's four fields, after a stamp if the text has stamps.
pub fn records_spell_events()
    ensures { RecordsSpellEvents }
{}
