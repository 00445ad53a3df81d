//! What the format comes to. The functions take nothing and do nothing: their contracts are the laws.

ghost use Rattle.os_object.specs.Object.{OneReading};
ghost use Rattle.os_object.specs.RoundTrip.{ReadsWhatIsWritten, WritesWhatIsRead, CodesRun};

/// Bytes spell the parts of at most one code.
pub fn one_reading()
    ensures { OneReading }
{}

/// What `encode` gives of a code is read by `decode` as that code, unless memory is wanting; and where `decode` gives a code, the
/// bytes are what `encode` gives of it. Their clauses are the premises.
pub fn round_trip()
    ensures back { ReadsWhatIsWritten }
    ensures same { WritesWhatIsRead }
{}

/// A code that was read runs without being stuck, as each code does: it is valid.
pub fn codes_run()
    ensures { CodesRun }
{}
