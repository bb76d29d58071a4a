//! INI texts, and values as texts spell them: `ini_text`, `co_values`.

ghost use Rattle.co_values.specs.Values.{Fits};

use co_values::{
    DataType, Value, from_le, hex_text, read_formula, read_number, to_le, value_of, width_bits,
};
use ini_text::{Ini, IniFault, Section};
use std::alloc::{AllocError, Global};

/// An INI text is read.
pub fn read_ini(alloc: Global, text: &[u8]) -> Result<Ini, IniFault> {
    Ini::read(alloc, text)
}

/// The value of a key in a section.
pub fn get<'a>(ini: &'a Ini, section: &[u8], key: &[u8]) -> Option<&'a [u8]> {
    ini.get(section, key)
}

/// The sections, in order of first appearance.
pub fn sections(ini: &Ini) -> &[Section] {
    ini.sections()
}

/// The numbers of the lines that are warned of.
pub fn warnings(ini: &Ini) -> &[u32] {
    ini.warnings()
}

/// A key of a section gets a value.
pub fn set(ini: &mut Ini, section: &[u8], key: &[u8], value: &[u8]) -> Result<(), AllocError> {
    ini.set(section, key, value)
}

/// The text of the content.
pub fn print(ini: &Ini) -> Result<Vec<u8>, AllocError> {
    ini.print()
}

/// Why a text isn't read, by number.
pub fn ini_fault(fault: IniFault) -> u8 {
    match fault {
        IniFault::Memory => 1,
        IniFault::Range => 3,
        IniFault::BadByte => 8,
    }
}

/// The number that a text is.
pub fn number(text: &[u8]) -> Option<i128> {
    read_number(text)
}

/// The number that a formula gives at a node.
pub fn formula(text: &[u8], node: u8) -> Option<i128> {
    read_formula(text, node)
}

/// The value of a type that a text gives at a node.
pub fn value(
    alloc: Global,
    kind: DataType,
    text: &[u8],
    node: u8,
) -> Result<Option<Value>, AllocError> {
    value_of(alloc, kind, text, node)
}

/// The bits of a type.
pub fn width(kind: DataType) -> Option<u32> {
    width_bits(kind)
}

/// A number as eight bytes, the lowest first.
pub fn to_bytes(number: u64) -> [u8; 8] {
    to_le(number)
}

/// The number of eight bytes, the lowest first.
pub fn from_bytes(bytes: [u8; 8]) -> u64 {
    from_le(bytes)
}

/// The text of a value.
pub fn text_of(alloc: Global, value: &Value) -> Result<Vec<u8>, AllocError>
    requires { Fits value.now.kind value.now.bytes }
{
    hex_text(alloc, value)
}

/// A value is its type and its bytes.
pub fn parts(value: &Value) -> (DataType, &[u8]) {
    (value.kind, value.bytes.as_slice())
}
