ghost use Rattle.std.specs.Prelude.{◌≡◌, find};
ghost use Rattle.osview_sentences.specs.Names.{covers, slice};

/// A stream or an array of streams, and where its name stands in the text of the program.
#[derive(Clone, Copy, Debug, PartialEq, Eq)]
pub struct StreamName {
    /// The number of the stream, or of the first one of the array.
    pub first: u32,
    /// How many streams the array has; 1 where it is none.
    pub count: u32,
    /// How many bytes of the text stand before the name.
    pub start: u32,
    /// How many bytes stand before what is behind it.
    pub end: u32,
}

impl StreamName {
    /// Whether a stream is the one with this name, or one of the array.
    fn covers(self, stream: u32) -> bool
        ensures { result ≡ covers stream self }
    {
        self.first <= stream && stream - self.first < self.count
    }

    /// The bytes of the name.
    pub fn bytes(self, text: &[u8]) -> &[u8]
        ensures { result.now ≡ slice text.now self.start self.end }
    {
        let start = (self.start as usize).min(text.len());
        let rest = &text[start..];
        let length = self.end.saturating_sub(self.start) as usize;
        &rest[..length.min(rest.len())]
    }
}

/// The first name that covers a stream.
pub fn name_of(names: &[StreamName], stream: u32) -> Option<StreamName>
    ensures { result ≡ find (covers stream) names.now }
{
    for name in names {
        if name.covers(stream) {
            return Some(*name);
        }
    }
    None
}
