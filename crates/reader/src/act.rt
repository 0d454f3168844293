// The calls that a sheet can make, and their letters.
ghost use Rattle.std.specs.Prelude.{◌≡◌};
ghost use Rattle.reader.specs.Letters.{letter, Lettered, only_byte};

#[derive(Clone, Copy, PartialEq, Eq, Debug)]
pub enum Act {
    Offer,
    Seal,
    Plan,
    Deletions,
    Release,
    Abandon,
}

/// The letter of a field that is one byte.
pub(crate) fn only_char(field: &[u8]) -> Option<char>
    ensures { result ≡ only_byte field.now }
{
    match field {
        [byte] => Some(char::from(*byte)),
        _ => None,
    }
}

/// The call whose letter the field is.
pub(crate) fn act_of(field: &[u8]) -> Option<Act>
    ensures value { result ≡ letter field.now }
    ensures exact { Lettered field.now result }
{
    match only_char(field)? {
        'o' => Some(Act::Offer),
        's' => Some(Act::Seal),
        'p' => Some(Act::Plan),
        'd' => Some(Act::Deletions),
        'r' => Some(Act::Release),
        'a' => Some(Act::Abandon),
        _ => None,
    }
}
