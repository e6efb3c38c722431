//! Numbers of two bytes, the low one first.
ghost use Rattle.std.specs.Prelude.{◌≡◌, ◌+◌, ◌*◌};
ghost use Rattle.usb_desc.specs.Spell.{low, high};

/// Two bytes as a number.
pub fn word(low: u8, high: u8) -> u16
    ensures { result ≡ low + 256 * high }
{
    low as u16 + 256 * high as u16
}

/// The low byte.
pub fn low(n: u16) -> u8
    ensures { result ≡ low n }
{
    (n % 256) as u8
}

/// The high byte.
pub fn high(n: u16) -> u8
    ensures { result ≡ high n }
{
    (n / 256) as u8
}
