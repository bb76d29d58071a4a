//! The two formats, and the fields of their bits.

ghost use Rattle.std.specs.Prelude.{◌≡◌, ◌<◌, ◌≤◌, ◌^◌, nat_lt};
ghost use Rattle.std.specs.Float.Ieee.{hid, ones, low, top};
ghost use Rattle.real_texts.specs.Reals.{format_of, octets as octets_of, is_negative as is_negative_in};
ghost use Rattle.real_texts.specs.Reals.{exponent_field as exponent_field_in, significand as significand_in};
ghost use Rattle.real_texts.specs.Reals.{doublings as doublings_of, places as places_of};

/// The types of CiA 301 that are floating point numbers of IEEE 754.
#[derive(Clone, Copy, Debug, PartialEq, Eq)]
pub enum Real {
    /// REAL32: binary32.
    Real32,
    /// REAL64: binary64.
    Real64,
}

impl Real {
    /// The bytes of a value: 4 or 8.
    pub fn octets(self) -> usize
        ensures value { result ≡ octets_of (format_of self) }
        ensures some { 0 < result }
        ensures few { result ≤ 8 }
    {
        match self {
            Real::Real32 => 4,
            Real::Real64 => 8,
        }
    }

    /// The weight of the sign's bit.
    fn sign(self) -> u64
        ensures value { result ≡ top (format_of self) }
        ensures some { 0 < result }
    {
        match self {
            Real::Real32 => 1 << 31,
            Real::Real64 => 1 << 63,
        }
    }

    /// The weight of the exponent's field, which is also that of the 1 above the fraction.
    fn hidden(self) -> u64
        ensures value { result ≡ hid (format_of self) }
        ensures some { 0 < result }
        ensures few { result < 2 ^ 53 }
    {
        match self {
            Real::Real32 => 1 << 23,
            Real::Real64 => 1 << 52,
        }
    }

    /// The exponent's field of an infinity: 255 or 2047.
    fn ones(self) -> u64
        ensures { result ≡ ones (format_of self) }
    {
        match self {
            Real::Real32 => 255,
            Real::Real64 => 2047,
        }
    }

    /// The least number above 0 is 1 / 2^149 or 1 / 2^1074.
    fn low(self) -> u32
        ensures value { result ≡ low (format_of self) }
        ensures few { result < 1075 }
    {
        match self {
            Real::Real32 => 149,
            Real::Real64 => 1074,
        }
    }

    /// Whether the sign of bits is set.
    pub(crate) fn is_negative(self, bits: u64) -> bool
        ensures { result ≡ is_negative_in (format_of self) bits }
    {
        self.sign() <= bits
    }

    /// The exponent's field of bits.
    fn exponent_field(self, bits: u64) -> u64
        ensures value { result ≡ exponent_field_in (format_of self) bits }
        ensures few { result < 2048 }
    {
        bits % self.sign() / self.hidden()
    }

    /// Whether bits are those of a number, and not of an infinity or a NaN.
    pub fn is_finite(self, bits: u64) -> bool
        ensures { result ≡ nat_lt (exponent_field_in (format_of self) bits) (ones (format_of self)) }
    {
        self.exponent_field(bits) < self.ones()
    }

    /// The significand of the number that bits are.
    pub(crate) fn significand(self, bits: u64) -> u64
        ensures { result ≡ significand_in (format_of self) bits }
    {
        let fraction = bits % self.hidden();
        if self.exponent_field(bits) == 0 {
            fraction
        } else {
            fraction + self.hidden()
        }
    }

    /// How often the significand is doubled.
    pub(crate) fn doublings(self, bits: u64) -> u32
        ensures { result ≡ doublings_of (format_of self) bits }
    {
        let scale = self.exponent_field(bits).saturating_sub(1) as u32;
        scale.saturating_sub(self.low())
    }

    /// How often the significand is halved: so many places has its fraction at most.
    pub(crate) fn places(self, bits: u64) -> u32
        ensures value { result ≡ places_of (format_of self) bits }
        ensures few { result < 1075 }
    {
        let scale = self.exponent_field(bits).saturating_sub(1) as u32;
        self.low().saturating_sub(scale)
    }
}
