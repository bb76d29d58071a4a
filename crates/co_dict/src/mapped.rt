//! What a mapping entry says (CiA 301): the index, the sub-index and the length in bits of what it
//! maps, as 20020010h.

ghost use Rattle.std.specs.Prelude.{◌≡◌};
ghost use Rattle.co_dict.specs.Mappings.{mapped_length as length_mapped, mapped_place as place_mapped};

/// The index and the sub-index of what a mapping entry maps.
pub fn mapped_place(entry: u32) -> (u16, u8)
    ensures { result ≡ place_mapped entry }
{
    ((entry >> 16) as u16, (entry >> 8 & 0xFF) as u8)
}

/// The bits that it takes in a frame, from 0 to 255.
pub fn mapped_length(entry: u32) -> u32
    ensures { result ≡ length_mapped entry }
{
    entry & 0xFF
}
