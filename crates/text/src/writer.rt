// Writing bytes and numbers one after the other into a lent buffer. A buffer that is too short for its text has the
// text's front.
ghost use Rattle.std.specs.Prelude.{◌≡◌, ◌≤◌, [], ◌∷◌, length, take, decimal};

/// A buffer that is written from its front. What has no room is left out, so that no write fails: by `fmt::Write` each call
/// would have a result to drop.
// The buffer is lent by the caller (no heap), so what is written is counted beside it.
#[derive(Drop)]
pub struct Writer<'a> {
    buffer: &'a mut [u8],
    at: usize,
    ghost within: { at ≤ length buffer.now },
}

impl<'a> Writer<'a> {
    ghost use Rattle.std.specs.List.{flat_map};
    ghost use Rattle.text.specs.Spaced.{spaced};
    ghost use Rattle.text.specs.Texts.{Wrote};

    /// A writer that has written nothing yet.
    pub fn new(buffer: &'a mut [u8]) -> Writer<'a>
        ensures at { result.at ≡ 0 }
        ensures buffer { result.buffer.now ≡ buffer.old }
        ensures lent { result.buffer.ghost_name ≡ buffer.entry.ghost_name }
    {
        Writer { buffer, at: 0 }
    }

    /// How many bytes are written.
    pub fn len(&self) -> usize
        ensures { result ≡ length (take self.now.at self.now.buffer.now) }
    {
        self.at
    }

    pub fn put(&mut self, b: u8)
        ensures { Wrote self.old self.new (b ∷ []) }
    {
        let Writer { buffer, at } = self;
        if *at < buffer.len() {
            buffer[*at] = b;
            *at += 1;
        }
    }

    pub fn put_bytes(&mut self, bytes: &[u8])
        ensures { Wrote self.old self.new bytes.now }
    {
        for b in bytes {
            self.put(*b);
        }
    }

    /// The number in decimal. By hand: what `Display` writes is told only where it answers `Ok`, and this is always written.
    pub fn put_number(&mut self, n: u32)
        ensures { Wrote self.old self.new (decimal n) }
    {
        // A number of one digit is not divided (measured).
        if n < 10 {
            self.put(b'0' + n as u8);
            return;
        }
        self.put_number(n / 10);
        self.put(b'0' + (n % 10) as u8);
    }
    // Each number with a space before it.
    fn put_further(&mut self, numbers: &[u32])
        ensures { Wrote self.old self.new (flat_map (λ n. 32 ∷ decimal n) numbers.now) }
    {
        for n in numbers {
            self.put(b' ');
            self.put_number(*n);
        }
    }

    /// The numbers in decimal, with single spaces between.
    pub fn put_numbers(&mut self, numbers: &[u32])
        ensures { Wrote self.old self.new (spaced numbers.now) }
    {
        if let Some((first, more)) = numbers.split_first() {
            self.put_number(*first);
            self.put_further(more);
        }
    }
}
