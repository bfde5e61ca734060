//! Stretches of a text.
ghost use Rattle.std.specs.Prelude.{◌≡◌, map, take};
ghost use Rattle.texts.specs.Spans.{look_up, stretch};

/// The bytes of a text from `start` up to `end`. Two places and no slice: a `ControlFile` owns its text, and cannot lend
/// itself slices of it.
#[derive(Clone, Copy, PartialEq, Eq, Hash, Debug)]
pub struct Span {
    pub start: usize,
    pub end: usize,
}

impl Span {
    /// Its bytes in the text, as far as the text goes.
    pub fn of(self, text: &[u8]) -> &[u8]
        ensures { result.now ≡ stretch text.now self }
    {
        let end = self.end.min(text.len());
        &text[self.start.min(end)..end]
    }
}

/// The text up to `end`.
pub fn front(text: &[u8], end: usize) -> &[u8]
    ensures { result.now ≡ take end text.now }
{
    &text[..end.min(text.len())]
}

/// The number of the first of the spans that has this name.
pub fn find(text: &[u8], spans: &[Span], name: &[u8]) -> Option<usize>
    ensures { result ≡ look_up 0 (map (stretch text.now) spans.now) name.now }
{
    spans.iter().position(|span| span.of(text) == name)
}
