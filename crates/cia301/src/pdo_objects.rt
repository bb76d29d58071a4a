//! The objects of PDOs (CiA 301): 1400h to 1BFFh.

ghost use Rattle.std.specs.Prelude.{◌≡◌, ◌≤◌};
ghost use Rattle.cia301.specs.PdoObjects.{is_communication_object, is_mapping_object, is_of_pdos, is_of_rpdos, is_of_tpdos};
ghost use Rattle.cia301.specs.PdoObjects.{mapping_object, number_of_object, rpdo_object, tpdo_object};

/// The number of the last PDO.
pub const LAST_PDO: u16 = 512;

/// The communication object of a TPDO, 1 to 512: 1800h for TPDO 1.
pub fn tpdo_object(number: u16) -> u16
    requires { number ≤ 512 }
    ensures { result ≡ tpdo_object number }
{
    0x17FF + number
}

/// The communication object of an RPDO, 1 to 512: 1400h for RPDO 1.
pub fn rpdo_object(number: u16) -> u16
    requires { number ≤ 512 }
    ensures { result ≡ rpdo_object number }
{
    0x13FF + number
}

/// The mapping object of the PDO with a communication object: it stands 200h above.
pub fn mapping_object(object: u16) -> u16
    requires { object ≤ 0xFDFF }
    ensures { result ≡ mapping_object object }
{
    object + 0x200
}

/// Whether an object is the communication or mapping object of a PDO: 1400h to 1BFFh. Messages alone
/// configure these.
pub fn is_of_pdos(index: u16) -> bool
    ensures { result ≡ is_of_pdos index }
{
    (0x1400..=0x1BFF).contains(&index)
}

/// Whether an object is one of 1400h to 17FFh, the objects of RPDOs.
pub fn is_of_rpdos(index: u16) -> bool
    ensures { result ≡ is_of_rpdos index }
{
    matches!(index, 0x1400..=0x17FF)
}

/// Whether an object is one of 1800h to 1BFFh, the objects of TPDOs.
pub fn is_of_tpdos(index: u16) -> bool
    ensures { result ≡ is_of_tpdos index }
{
    matches!(index, 0x1800..=0x1BFF)
}

/// Whether an object is the communication object of a PDO: 1400h to 15FFh and 1800h to 19FFh.
pub fn is_communication_object(index: u16) -> bool
    ensures { result ≡ is_communication_object index }
{
    matches!(index, 0x1400..=0x15FF | 0x1800..=0x19FF)
}

/// Whether an object is the mapping object of a PDO: 1600h to 17FFh and 1A00h to 1BFFh.
pub fn is_mapping_object(index: u16) -> bool
    ensures { result ≡ is_mapping_object index }
{
    matches!(index, 0x1600..=0x17FF | 0x1A00..=0x1BFF)
}

/// The number of the PDO, 1 to 512, that an object of PDOs is of.
pub fn number_of_object(index: u16) -> u16
    ensures number { result ≡ number_of_object index }
    ensures bound { result ≤ 512 }
{
    index % 0x200 + 1
}
