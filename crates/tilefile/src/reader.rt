// A reader that stands over a file's bytes. After a fault its place is free, and nothing more is read.
mod sections;

ghost use Rattle.std.specs.Prelude.{◌≡◌, ◌+◌, ◌<◌, ◌≤◌, length, take, drop, MatchOption};

#[derive(Drop)]
pub(crate) struct Reader<'a> {
    // The whole file.
    bytes: &'a [u8],
    // How many of its bytes are read.
    place: usize,
    ghost within: { place ≤ length bytes.now },
}

impl<'a> Reader<'a> {
    // At the file's first byte.
    pub(crate) fn new(bytes: &'a [u8]) -> Reader<'a>
        ensures bytes { result.bytes.now ≡ bytes.now }
        ensures place { result.place ≡ 0 }
    {
        Reader { bytes, place: 0 }
    }

    // The next bytes, so many of them; none, and the place stays, where fewer are left.
    pub(crate) fn take<const N: usize>(&mut self) -> Option<[u8; N]>
        ensures bytes { self.new.bytes ≡ self.old.bytes }
        ensures taken { MatchOption result
            ((length self.old.bytes.now < self.old.place + N) × (self.new.place ≡ self.old.place))
            (λ taken. (self.old.place + N ≤ length self.old.bytes.now) × (self.new.place ≡ self.old.place + N)
            × (taken ≡ take N (drop self.old.place self.old.bytes.now))) }
    {
        let next = *self.bytes[self.place..].first_chunk::<N>()?;
        self.place += N;
        Some(next)
    }

    // What is left to read, as that same part of the file.
    pub(crate) fn rest(&self) -> &'a [u8]
        ensures { result.now ≡ drop self.now.place self.now.bytes.now }
    {
        &self.bytes[self.place..]
    }
}
