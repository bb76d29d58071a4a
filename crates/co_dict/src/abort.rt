//! Why a device refuses an access.

ghost use Rattle.std.specs.Prelude.{◌≡◌};

/// An SDO abort code (CiA 301): why a device refuses to take or give a value. The constants are those
/// that cobench uses; any number can come in a frame.
#[derive(Clone, Copy, Debug, PartialEq, Eq)]
pub struct Abort(pub u32);

impl Abort {
    /// The toggle bit did not alternate.
    pub const TOGGLE_NOT_ALTERNATED: Abort = Abort(0x0503_0000);
    /// The SDO protocol timed out.
    pub const TIMED_OUT: Abort = Abort(0x0504_0000);
    /// The command specifier is not valid or unknown.
    pub const UNKNOWN_COMMAND: Abort = Abort(0x0504_0001);
    /// The access to the object is not supported.
    pub const UNSUPPORTED_ACCESS: Abort = Abort(0x0601_0000);
    /// A write only object was to be read.
    pub const WRITE_ONLY: Abort = Abort(0x0601_0001);
    /// A read only object was to be written.
    pub const READ_ONLY: Abort = Abort(0x0601_0002);
    /// The object does not exist in the object dictionary.
    pub const NO_OBJECT: Abort = Abort(0x0602_0000);
    /// The object cannot be mapped to the PDO.
    pub const CANNOT_BE_MAPPED: Abort = Abort(0x0604_0041);
    /// The number and length of the objects to be mapped would exceed the PDO length.
    pub const PDO_LENGTH_EXCEEDED: Abort = Abort(0x0604_0042);
    /// The data type does not match: the length of the value does not.
    pub const LENGTH_DOES_NOT_MATCH: Abort = Abort(0x0607_0010);
    /// The data type does not match: the length of the value is too high.
    pub const LENGTH_TOO_HIGH: Abort = Abort(0x0607_0012);
    /// The sub-index does not exist.
    pub const NO_SUB_INDEX: Abort = Abort(0x0609_0011);
    /// The value is not valid for the parameter.
    pub const INVALID_VALUE: Abort = Abort(0x0609_0030);
    /// The value written is too high.
    pub const VALUE_TOO_HIGH: Abort = Abort(0x0609_0031);
    /// The value written is too low.
    pub const VALUE_TOO_LOW: Abort = Abort(0x0609_0032);

    /// The code, as the abort transfer carries it.
    pub fn code(self) -> u32
        ensures { result ≡ self.0 }
    {
        self.0
    }
}
