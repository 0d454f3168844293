// The parts of a text between separators. Lines, fields and words are all parted by it.
ghost use Rattle.std.specs.Prelude.{◌≡◌, ℕ, ◌∷◌, length};
ghost use Rattle.text.specs.Pieces.{pieces, parted, rest, length_of, Shorter};

/// The bytes before the first separator, and those past it if there is one.
pub fn split_first<'a>(bytes: &'a [u8], sep: u8) -> (&'a [u8], Option<&'a [u8]>)
    ensures pieces { pieces sep bytes.now ≡ result.0.now ∷ rest sep result.1 }
    ensures shorter { Shorter bytes.now result.0.now result.1 }
{
    match bytes.iter().position(|b| *b == sep) {
        Some(at) => (&bytes[..at], Some(&bytes[at + 1..])),
        None => (bytes, None),
    }
}

// The bytes, if there are any: an empty text has no part.
pub(crate) fn unless_empty(bytes: &[u8]) -> Option<&[u8]>
    ensures pieces { (sep : ℕ) → rest sep result ≡ parted sep bytes.now }
    ensures len { length_of result ≡ length bytes.now }
{
    if bytes.is_empty() { None } else { Some(bytes) }
}

/// The parts of a text between separators that are yet to come. An empty text has none.
#[derive(Clone, Copy)]
pub struct Parts<'a> {
    left: Option<&'a [u8]>,
    sep: u8,
}

impl<'a> Parts<'a> {
    ghost use Rattle.text.specs.Parts.{parts_left};

    pub fn new(text: &'a [u8], sep: u8) -> Parts<'a>
        ensures { parts_left result ≡ parted sep text.now }
    {
        Parts {
            left: unless_empty(text),
            sep,
        }
    }
}

impl<'a> Iterator for Parts<'a> {
    ghost use Rattle.std.specs.Iterator.{YieldsFirstRef, item_count};
    ghost use Rattle.text.specs.Parts.{parts_left};

    type Item = &'a [u8];

    ghost next_gives = { YieldsFirstRef parts_left };

    ghost remaining = { item_count parts_left };

    fn next(&mut self) -> Option<&'a [u8]> {
        let (part, left) = split_first(self.left?, self.sep);
        self.left = left;
        Some(part)
    }
}
