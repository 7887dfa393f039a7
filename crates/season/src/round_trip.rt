//! What reading a canonical text gives.

ghost use Rattle.season.specs.RoundTrip.{ReadsBack};

/// The canonical text of a book, read as the text of a season, gives a book alike: its first line is the
/// number of events, and all of its sheets are accepted. A lemma: this function does nothing.
pub(crate) fn canonical_text_reads_back()
    ensures { ReadsBack }
{}
