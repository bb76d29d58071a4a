//! How the names of a text are hashed: from a number that the whole text makes.
ghost use Rattle.std.specs.Prelude.{◌≡◌, fold};
ghost use Rattle.std.specs.Hash as fed;
ghost use Rattle.std.specs.Hash.FoldHasher as folding;
ghost use Rattle.ini_text.specs.Seed.{seed_of};

use std::hash::{BuildHasher, DefaultHasher, FoldHasher, Hasher};

/// What a text starts its hashes from: SipHash of all its bytes.
#[tactic(auto, unfolding(crate::specs::Seed::seed_of))]
fn seed_of(text: &[u8]) -> u64
    ensures { result ≡ seed_of text.now }
{
    let mut hasher = DefaultHasher::new();
    hasher.write(text);
    hasher.finish()
}

/// Hashes the names of one text. Each hash starts from a number that all bytes of the text make: who
/// chooses names to have one hash changes by each of them what all are hashed from.
#[derive(Clone, Copy)]
pub(crate) struct TextHash {
    start: FoldHasher,
}

impl TextHash {
    /// The hashing of the names of this text. Takes time linear in the text, and no memory.
    pub(crate) fn of(text: &[u8]) -> TextHash
        ensures { result.start ≡ fold folding.write folding.initial (fed.u64 (seed_of text.now)) }
    {
        let mut start = FoldHasher::default();
        start.write_u64(seed_of(text));
        TextHash { start }
    }
}

impl BuildHasher for TextHash {
    type Hasher = FoldHasher;

    ghost build_hasher = { λ h. h.start };

    fn build_hasher(&self) -> FoldHasher {
        self.start
    }
}
