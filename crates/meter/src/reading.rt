//! A reading, as a line says it and as it is kept.
ghost use Rattle.std.specs.Prelude.{◌≡◌, Some};
ghost use Rattle.meter.specs.Kept.{reading_in};

use byteorder::{BigEndian, ByteOrder};

/// What a meter showed on a day.
#[derive(Clone, Copy)]
pub struct Reading {
    pub day: u32,
    pub watt_hours: u32,
}

/// The meter and the reading that a line says, if it says one.
pub fn parse(line: &str) -> Option<(&str, Reading)> {
    let (meter, rest) = line.split_once(' ')?;
    let (day, watt_hours) = rest.split_once(' ')?;
    let day = day.parse().ok()?;
    let watt_hours = watt_hours.parse().ok()?;
    Some((meter, Reading { day, watt_hours }))
}

impl Reading {
    /// The eight bytes that it is kept in.
    pub fn bytes(self) -> [u8; 8]
        ensures { reading_in result ≡ Some self }
    {
        let mut bytes = [0; 8];
        BigEndian::write_u32(&mut bytes, self.day);
        BigEndian::write_u32(&mut bytes[4..], self.watt_hours);
        bytes
    }

    /// The reading that is kept in these bytes, if one is.
    pub fn of(bytes: &[u8]) -> Option<Reading>
        ensures { result ≡ reading_in bytes.now }
    {
        if bytes.len() != 8 {
            return None;
        }
        let day = BigEndian::read_u32(bytes);
        let watt_hours = BigEndian::read_u32(&bytes[4..]);
        Some(Reading { day, watt_hours })
    }
}
