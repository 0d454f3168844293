// A number as a sheet writes it: in decimal, with no needless zero in front.
ghost use Rattle.std.specs.Prelude.{◌≡◌};
ghost use Rattle.text.specs.Numbers.{number_in, Numbered};

/// The number whose decimal text the bytes are, if it is at most `limit`.
pub fn number(bytes: &[u8], limit: u32) -> Option<u32>
    ensures value { result ≡ number_in limit bytes.now }
    ensures exact { Numbered limit bytes.now result }
{
    if *bytes.first()? == b'0' && bytes.len() > 1 {
        return None;
    }
    let mut value: u32 = 0;
    for b in bytes {
        let digit = char::from(*b).to_digit(10)?;
        value = value.checked_mul(10)?.checked_add(digit)?;
    }
    (value <= limit).then_some(value)
}
