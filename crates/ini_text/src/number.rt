//! Whether a text spells the number 0.
ghost use Rattle.std.specs.Prelude.{◌≡◌, ◌==◌};
ghost use Rattle.std.specs.List.{list_all};
ghost use Rattle.std.specs.Str.{byte};
ghost use Rattle.ini_text.specs.CompactPdo.{are_zeros, after_0x, is_zero_unsigned, is_zero};

fn are_all_zeros(bytes: &[u8]) -> bool
    ensures { result ≡ list_all (λ c. c == byte "0") bytes.now }
{
    bytes.iter().all(|b| *b == b'0')
}

fn are_zeros(bytes: &[u8]) -> bool
    ensures { result ≡ are_zeros bytes.now }
{
    !bytes.is_empty() && are_all_zeros(bytes)
}

/// What follows `0x` or `0X`, or nothing.
fn after_0x(bytes: &[u8]) -> &[u8]
    ensures { result.now ≡ after_0x bytes.now }
{
    if let Some((first, rest)) = bytes.split_first()
        && let Some((mark, digits)) = rest.split_first()
        && *first == b'0'
        && (*mark == b'x' || *mark == b'X')
    {
        return digits;
    }
    &[]
}

fn is_zero_unsigned(bytes: &[u8]) -> bool
    ensures { result ≡ is_zero_unsigned bytes.now }
{
    are_zeros(bytes) || are_zeros(after_0x(bytes))
}

/// Whether the text is a spelling of the number 0.
#[tactic(auto, unfolding(crate::specs::CompactPdo::is_zero))]
pub(crate) fn is_zero(bytes: &[u8]) -> bool
    ensures { result ≡ is_zero bytes.now }
{
    match bytes.split_first() {
        Some((first, rest)) => is_zero_unsigned(bytes)
            || (*first == b'-' && is_zero_unsigned(rest)),
        None => false,
    }
}
