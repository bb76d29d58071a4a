//! Dummy entries.
ghost use Rattle.std.specs.Prelude.{◌≡◌};
ghost use Rattle.pdo_stations.specs.Dummies.{dummy_type};

/// The data type of the dummy of so many bits (CiA 301): BOOLEAN and UNSIGNED8, 16 and 32 have one.
pub fn dummy_type(bits: u8) -> Option<u16>
    ensures { result ≡ dummy_type bits }
{
    match bits {
        1 => Some(0x0001),
        8 => Some(0x0005),
        16 => Some(0x0006),
        32 => Some(0x0007),
        _ => None,
    }
}
