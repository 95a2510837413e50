// A reader's place and right edge in its bytes, and the guard that keeps the edge while it is nearer.
ghost use Rattle.std.specs.Prelude.{◌≡◌, ◌≤◌, length};

// The bytes, where reading goes on in them, and the right edge that it may not pass.
#[derive(Drop)]
pub(crate) struct Reader<'b> {
    pub(crate) bytes: &'b [u8],
    pub(crate) at: usize,
    pub(crate) end: usize,
    ghost order: { at ≤ end },
    ghost within: { end ≤ length bytes.now },
}

// While this lives the edge may be nearer, at a component's end; dropped, whichever way, it puts the old edge back.
pub(crate) struct Within<'r, 'b> {
    pub(crate) reader: &'r mut Reader<'b>,
    pub(crate) edge: usize,
}

// The guard of a reader whose edge is moved to `stop`.
// It is no function: of a `&mut` to what holds a slice, given back in a struct, a caller learns nothing after the drop.
macro_rules! narrowed {
    ($reader:ident, $stop:expr) => {{
        let inner = $crate::edge::Within {
            edge: $reader.end,
            reader: $reader,
        };
        inner.reader.end = $stop;
        inner
    }};
}

pub(crate) use narrowed;

// What the drop requires is no ghost field of the guard: with one, nothing is known of the caller's reader after a `while` over the guard's.
impl Drop for Within<'_, '_> {
    fn drop(self)
        requires nearer { self.reader.now.end ≤ self.edge }
        requires room { self.edge ≤ length self.reader.now.bytes.now }
        ensures end { self.exit.0.now.end ≡ self.entry.edge }
        ensures at { self.exit.0.now.at ≡ self.entry.reader.now.at }
        ensures bytes { self.exit.0.now.bytes.now ≡ self.entry.reader.now.bytes.now }
    {
        let Within { reader, edge } = self;
        reader.end = edge;
    }
}
