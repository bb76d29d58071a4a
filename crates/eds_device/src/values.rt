//! All entries of a device at a node, and the values that they begin with.
ghost use Rattle.std.specs.Prelude.{◌≡◌, IfOk, OnOk};
ghost use Rattle.std.specs.Option.{option_map_or};
ghost use Rattle.std.specs.FinMap as map;
ghost use Rattle.co_dict.specs.Places.{place_cmp};
ghost use Rattle.eds_device.specs.Common.{AreAlike, with_defaults};
ghost use Rattle.eds_device.specs.Entries.{entry_at, default_at, dummies_of, shape_of, defaults_of};

use crate::common::Alike;
use crate::data_sheet::DataSheet;
use co_dict::{Dict, Shape};
use std::alloc::AllocError;

/// The number of entries for each of which one default may be another at another node, if nodes share the values
/// below: a device copies those above what is shared as it first writes, and looks there first as it reads.
const ENTRIES_FOR_ANOTHER: usize = 128;

impl DataSheet {
    /// Sets an entry of a shape, where the device has it.
    fn add_entry(&self, shape: &mut Shape, node: u8, index: u16, sub: u8) -> Result<(), AllocError>
        ensures { OnOk result (shape.new
            ≡ record shape.old {
              entries = option_map_or (map.insert shape.old.entries (index, sub))
                  (entry_at self.now node index sub) shape.old.entries;
            }) }
    {
        match self.entry(node, index, sub) {
            Some(entry) => shape.insert(index, sub, entry),
            None => Ok(()),
        }
    }

    /// Sets the default of an entry at a node in a dictionary, where the entry is there and of a modelled
    /// type.
    pub fn add_default(
        &self,
        dict: &mut Dict,
        node: u8,
        index: u16,
        sub: u8,
    ) -> Result<(), AllocError>
        ensures { OnOk result (dict.new ≡ option_map_or (map.insert dict.old (index, sub))
            (default_at self.now node index sub) dict.old) }
    {
        match self.default(node, index, sub)? {
            Some(bytes) => dict.write(index, sub, bytes.as_slice()),
            None => Ok(()),
        }
    }

    /// Sets the defaults of the entries at places.
    #[tactic(auto, unfolding(crate::specs::Common::with_defaults))]
    fn add_defaults(
        &self,
        dict: &mut Dict,
        node: u8,
        places: &[(u16, u8)],
    ) -> Result<(), AllocError>
        ensures { OnOk result (dict.new ≡ with_defaults self.now node places.now dict.old) }
    {
        for place in places {
            self.add_default(dict, node, place.0, place.1)?;
        }
        Ok(())
    }

    /// For each of the types 0001h to 0007h whether its dummy is allowed.
    pub(crate) fn dummies(&self) -> [bool; 7]
        ensures { result ≡ dummies_of self.now.sections }
    {
        [
            self.dummy_allowed(1),
            self.dummy_allowed(2),
            self.dummy_allowed(3),
            self.dummy_allowed(4),
            self.dummy_allowed(5),
            self.dummy_allowed(6),
            self.dummy_allowed(7),
        ]
    }

    /// All entries at a node, and the allowed dummies. Takes time by the number of entries, at most
    /// 4,096, and the logarithm of it.
    #[tactic(auto, unfolding(crate::specs::Entries::shape_of))]
    pub fn shape(&self, node: u8) -> Result<Shape, AllocError>
        ensures { IfOk result (λ shape. shape ≡ shape_of self.now node) }
    {
        let mut shape = Shape::new(self.allocator(), self.dummies());
        for place in self.pairs() {
            self.add_entry(&mut shape, node, place.0, place.1)?;
        }
        Ok(shape)
    }

    /// The values that are the same at each node, which the nodes share where few others go above them.
    fn values_below(&self, alike: &Alike) -> Result<Dict, AllocError>
        ensures { IfOk result (λ dict. dict ≡ alike.now.values) }
    {
        if alike.others.len() <= self.pairs().len() / ENTRIES_FOR_ANOTHER {
            alike.values.copy()
        } else {
            alike.values.duplicate()
        }
    }

    /// All defaults over those that are the same at each node.
    fn defaults_over(&self, alike: &Alike, node: u8) -> Result<Dict, AllocError>
        requires { AreAlike self.now alike.now }
        ensures { IfOk result (λ dict. dict ≡ defaults_of self.now node) }
    {
        let mut dict = self.values_below(alike)?;
        self.add_defaults(&mut dict, node, &alike.others)?;
        Ok(dict)
    }

    /// All defaults, each by itself.
    fn defaults_of_all(&self, node: u8) -> Result<Dict, AllocError>
        ensures { IfOk result (λ dict. dict ≡ defaults_of self.now node) }
    {
        let mut dict = Dict::new(self.allocator());
        self.add_defaults(&mut dict, node, self.pairs())?;
        Ok(dict)
    }

    /// The defaults of all entries of a modelled type at a node. Takes time by the number of entries, at most
    /// 4,096, and the logarithm of it, and memory by their number. Where `with_common` found those that are the
    /// same at each node, these are copied, and shared where there is at most one other for 128 entries: then it
    /// takes time and memory by the number of the others.
    pub fn defaults(&self, node: u8) -> Result<Dict, AllocError>
        ensures { IfOk result (λ dict. dict ≡ defaults_of self.now node) }
    {
        match self.kept_defaults() {
            Some(alike) => self.defaults_over(alike, node),
            None => self.defaults_of_all(node),
        }
    }
}
