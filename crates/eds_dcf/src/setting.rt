//! A key and a value that a DCF sets.
ghost use Rattle.std.specs.Prelude.{◌≡◌, IfOk, OnOk, OnErr, position};
ghost use Rattle.ini_text.specs.Content.{same};
ghost use Rattle.ini_text.specs.Change.{put_value};

use crate::printing::is_key;
use ini_text::Pair;
use std::alloc::{AllocError, Global};
use std::marker::Model;

/// A key and a value that a DCF sets.
#[derive(Drop)]
pub(crate) struct Setting {
    key: Vec<u8>,
    value: Vec<u8>,
}

impl Model for Setting {
    ghost use Rattle.ini_text.specs.Content.{Pair as Entry};

    ghost Value = { Entry };

    ghost view = { λ setting. record { key = setting.key.items; value = setting.value.items } };
}

impl Setting {
    pub(crate) fn new(key: Vec<u8>, value: Vec<u8>) -> Self
        ensures { result ≡ record { key = key.items; value = value.items } }
    {
        Setting { key, value }
    }

    /// A copy of a pair.
    pub(crate) fn of(alloc: Global, pair: &Pair) -> Result<Self, AllocError>
        ensures { IfOk result (λ setting. setting ≡ pair.now) }
    {
        Ok(Setting {
            key: Vec::from_slice(alloc, pair.key())?,
            value: Vec::from_slice(alloc, pair.value())?,
        })
    }

    pub(crate) fn key(&self) -> &[u8]
        ensures { result.now ≡ self.now.key }
    {
        self.key.as_slice()
    }

    pub(crate) fn value(&self) -> &[u8]
        ensures { result.now ≡ self.now.value }
    {
        self.value.as_slice()
    }

    pub(crate) fn into_parts(self) -> (Vec<u8>, Vec<u8>)
        ensures { record { key = result.0.items; value = result.1.items } ≡ self }
    {
        (self.key, self.value)
    }

    fn set_value(&mut self, value: Vec<u8>)
        ensures { self.new ≡ record { key = self.old.key; value = value.items } }
    {
        self.value = value;
    }
}

/// The position of the first setting of a key.
fn position_of(settings: &[Setting], key: &[u8]) -> Option<usize>
    ensures { result ≡ position (λ p. same key.now p.key) settings.now }
{
    settings
        .iter()
        .position(|setting| is_key(key, setting.key()))
}

/// Sets the value of a key where it stands, or adds the key last.
pub(crate) fn put(
    settings: &mut Vec<Setting>,
    key: Vec<u8>,
    value: Vec<u8>,
) -> Result<(), AllocError>
    ensures { OnOk result (settings.new.items ≡ put_value settings.old.items key.items value.items) }
{
    match position_of(settings.as_slice(), key.as_slice()) {
        Some(position) => settings[position].set_value(value),
        None => settings.push(Setting { key, value })?,
    }
    Ok(())
}
