//! Lines of an INI text, written at the end of an output.
ghost use Rattle.std.specs.Prelude.{◌≡◌, ◌++◌, [], OnOk};
ghost use Rattle.std.specs.List.{flat_map};
ghost use Rattle.ini_text.specs.Change.{pair_text, section_text};
ghost use Rattle.eds_dcf.specs.Pairs.{without, is_key as is_key_of};

use crate::setting::Setting;
use ini_text::{Pair, Section};
use std::alloc::AllocError;

/// Whether two keys or names are equal without ASCII case.
#[tactic(auto, using(ini_text::proofs::KeyedLemmas::same_is))]
pub(crate) fn is_key(a: &[u8], b: &[u8]) -> bool
    ensures { result ≡ is_key_of a.now b.now }
{
    a.eq_ignore_ascii_case(b)
}

/// Writes `[name]`.
pub(crate) fn put_name(out: &mut Vec<u8>, name: &[u8]) -> Result<(), AllocError>
    ensures { OnOk result (out.new.items ≡ out.old.items ++ section_text (record { name = name.now; pairs = [] })) }
{
    out.push(b'[')?;
    out.extend_from_slice(name)?;
    out.extend_from_slice(b"]\n")?;
    Ok(())
}

/// Writes `key=value`.
pub(crate) fn put_line(out: &mut Vec<u8>, key: &[u8], value: &[u8]) -> Result<(), AllocError>
    ensures { OnOk result (out.new.items ≡ out.old.items ++ pair_text (record { key = key.now; value = value.now })) }
{
    out.extend_from_slice(key)?;
    out.push(b'=')?;
    out.extend_from_slice(value)?;
    out.push(b'\n')?;
    Ok(())
}

/// Writes pairs.
pub(crate) fn put_pairs(out: &mut Vec<u8>, pairs: &[Pair]) -> Result<(), AllocError>
    ensures { OnOk result (out.new.items ≡ out.old.items ++ flat_map pair_text pairs.now) }
{
    for pair in pairs {
        pair.print(out)?;
    }
    Ok(())
}

/// Writes the pairs whose key is another one.
pub(crate) fn put_pairs_without(
    out: &mut Vec<u8>,
    pairs: &[Pair],
    key: &[u8],
) -> Result<(), AllocError>
    ensures { OnOk result (out.new.items ≡ out.old.items ++ flat_map pair_text (without key.now pairs.now)) }
{
    for pair in pairs {
        if !is_key(key, pair.key()) {
            pair.print(out)?;
        }
    }
    Ok(())
}

/// Writes settings.
pub(crate) fn put_settings(out: &mut Vec<u8>, settings: &[Setting]) -> Result<(), AllocError>
    ensures { OnOk result (out.new.items ≡ out.old.items ++ flat_map pair_text settings.now) }
{
    for setting in settings {
        put_line(out, setting.key(), setting.value())?;
    }
    Ok(())
}

/// Writes a section as it stands.
pub(crate) fn put_section(out: &mut Vec<u8>, section: &Section) -> Result<(), AllocError>
    ensures { OnOk result (out.new.items ≡ out.old.items ++ section_text section.now) }
{
    put_name(out, section.name())?;
    put_pairs(out, section.pairs())?;
    Ok(())
}
