//! What a device has alike at every node, found once for all of them.
ghost use Rattle.std.specs.Prelude.{◌≡◌, ℕ, IfOk, IfSome, IsTrue, OnOk, option_map};
ghost use Rattle.std.specs.Bool.{IsFalse};
ghost use Rattle.std.specs.Arc.{arc_value};
ghost use Rattle.std.specs.FinMap as map;
ghost use Rattle.std.specs.Option.{option_map_or};
ghost use Rattle.co_dict.specs.Places.{place_cmp};
ghost use Rattle.eds_device.specs.Common.{AreAlike, IsCommon, IsOfAll, with_default, with_defaults};
ghost use Rattle.eds_device.specs.Entries.{default_at, default_by, entry_at, entry_by, limit_at, shape_of};
ghost use Rattle.eds_entries.specs.Shown.{description_shown};

use crate::data_sheet::DataSheet;
use crate::entries::entry_of;
use base::Octets;
use co_dict::{Dict, Shape};
use co_values::{DataType, Spelling};
use eds_entries::{DefaultText, Described};
use std::alloc::AllocError;
use std::sync::Arc;

/// What a device has alike at every node.
#[derive(Drop)]
pub(crate) struct Common {
    /// Its shape, if that is known to be the same at each.
    pub shape: Option<Shape>,
    /// Its defaults.
    pub alike: Alike,
}

/// The defaults that a device has alike at every node.
#[derive(Drop)]
pub(crate) struct Alike {
    /// Those that are known to be the same at each.
    pub values: Dict,
    /// The index and sub-index of each entry with another default.
    pub others: Vec<(u16, u8)>,
}

/// Whether the limit that a text is for values of a type is known to be the same at every node. Takes constant
/// time.
#[tactic(auto, using(crate::proofs::CommonLemmas::limit_of_no_integer, crate::proofs::CommonLemmas::limit_of_value))]
fn is_fixed_limit(kind: DataType, text: &Spelling<'_>) -> bool
    ensures { IsTrue result → (node other : ℕ) → limit_at kind text.now node ≡ limit_at kind text.now other }
{
    !kind.is_integer() || !text.may_vary(kind)
}

/// Whether the entry that is described is known to be the same at every node.
fn is_fixed(described: &Described<'_>) -> bool
    ensures { IsTrue result → (node other : ℕ) →
        entry_by node (description_shown described.now) ≡ entry_by other (description_shown described.now) }
{
    is_fixed_limit(described.kind, &described.low)
        && is_fixed_limit(described.kind, &described.high)
}

/// Whether the default that is described may differ from node to node.
fn may_vary(described: &Described<'_>) -> bool
    ensures { IsFalse result → (node other : ℕ) →
        default_by node (description_shown described.now) ≡ default_by other (description_shown described.now) }
{
    match &described.default {
        DefaultText::Written(text) => text.may_vary(described.kind),
        DefaultText::Count(_count) => false,
    }
}

/// Another handle on a text that is kept.
fn share_text(text: &Option<Arc<Octets>>) -> Result<Option<Arc<Octets>>, AllocError>
    ensures { IfOk result (λ t. option_map arc_value t ≡ option_map arc_value text.now) }
{
    match text {
        Some(text) => {
            let text = Arc::try_clone(text)?;
            Ok(Some(text))
        }
        None => Ok(None),
    }
}

/// A shape, or the other where that is equal.
fn or_equal(shape: Shape, other: &Shape) -> Result<Shape, AllocError>
    ensures { IfOk result (λ s. s ≡ shape) }
{
    if other.same(&shape) {
        other.share()
    } else {
        Ok(shape)
    }
}

impl DataSheet {
    /// Sets an entry of a shape, where the device has it. `false` where it may differ from node to node.
    #[tactic(auto, unfolding(crate::specs::Entries::entry_at))]
    fn add_fixed(&self, shape: &mut Shape, index: u16, sub: u8) -> Result<bool, AllocError>
        ensures { IfOk result (λ fixed. IsTrue fixed → (node : ℕ) → shape.new
            ≡ record shape.old {
              entries = option_map_or (map.insert shape.old.entries (index, sub))
                  (entry_at self.now node index sub) shape.old.entries;
            }) }
    {
        let Some(described) = self.described(index, sub) else {
            return Ok(true);
        };
        if !is_fixed(&described) {
            return Ok(false);
        }
        shape.insert(index, sub, entry_of(&described, 0))?;
        Ok(true)
    }

    /// The shape at every node, where no entry may differ from node to node.
    #[tactic(auto, unfolding(crate::specs::Entries::shape_of))]
    fn common_shape(&self) -> Result<Option<Shape>, AllocError>
        ensures { IfOk result (λ common. IsCommon self.now common) }
    {
        let mut shape = Shape::new(self.allocator(), self.dummies());
        for place in self.pairs() {
            let fixed = self.add_fixed(&mut shape, place.0, place.1)?;
            if !fixed {
                return Ok(None);
            }
        }
        let shape = shape.into_shared(self.allocator())?;
        Ok(Some(shape))
    }

    /// The same, which is that of a device before where that is equal.
    fn common_shape_or(&self, before: Option<&Shape>) -> Result<Option<Shape>, AllocError>
        ensures { IfOk result (λ common. IsCommon self.now common) }
    {
        match (self.common_shape()?, before) {
            (Some(shape), Some(before)) => {
                let shape = or_equal(shape, before)?;
                Ok(Some(shape))
            }
            (shape, _) => Ok(shape),
        }
    }

    /// Whether the default of an entry may differ from node to node.
    #[tactic(auto, using(crate::proofs::DefaultLemmas::default_alike))]
    fn may_differ(&self, index: u16, sub: u8) -> bool
        ensures { IsFalse result → (node other : ℕ)
            → default_at self.now node index sub ≡ default_at self.now other index sub }
    {
        match self.described(index, sub) {
            Some(described) => may_vary(&described),
            None => false,
        }
    }

    /// Sets the default of an entry, where it is the same at each node, and else adds the entry to the others.
    fn add_alike(
        &self,
        values: &mut Dict,
        others: &mut Vec<(u16, u8)>,
        index: u16,
        sub: u8,
    ) -> Result<(), AllocError>
        ensures { OnOk result ((node : ℕ) → with_defaults self.now node others.new.items values.new
            ≡ with_default self.now node (index, sub)
            (with_defaults self.now node others.old.items values.old)) }
    {
        if self.may_differ(index, sub) {
            others.push((index, sub))?;
            Ok(())
        } else {
            self.add_default(values, 0, index, sub)?;
            Ok(())
        }
    }

    /// The defaults that are the same at each node, and the entries with others. Takes time by the number of
    /// entries and its logarithm.
    fn alike_defaults(&self) -> Result<Alike, AllocError>
        ensures { IfOk result (AreAlike self.now) }
    {
        let mut values = Dict::new(self.allocator());
        let mut others = Vec::new(self.allocator());
        for place in self.pairs() {
            self.add_alike(&mut values, &mut others, place.0, place.1)?;
        }
        Ok(Alike { values, others })
    }

    /// What it has alike at every node.
    fn common_part(&self, before: Option<&Shape>) -> Result<Common, AllocError>
        ensures { IfOk result (λ common. IsOfAll self.now common) }
    {
        let shape = self.common_shape_or(before)?;
        let alike = self.alike_defaults()?;
        Ok(Common { shape, alike })
    }

    /// The same device, which shares what was read of the text, and holds what is the same at every node: its
    /// shape, where no limit of an integer is a formula of `$NODEID`; and the defaults that are no such formulas.
    /// So `shared_shape` of it is found at once, and `defaults` with these alone described. A shape `before` that
    /// is equal is shared: so devices of texts that come one after another have one. Takes time and memory
    /// by the number of entries, and time by its logarithm; want of memory is the only error.
    pub fn with_common(&self, before: Option<&Shape>) -> Result<DataSheet, AllocError>
        ensures { IfOk result (λ device. device ≡ self.now) }
    {
        let common = self.common_part(before)?;
        let reading = Arc::try_clone(&self.reading)?;
        let text = share_text(&self.text)?;
        Ok(DataSheet {
            reading,
            is_three: self.is_three,
            text,
            common: Some(common),
        })
    }

    /// The shape that is kept for all nodes, where `with_common` found it.
    pub fn kept_shape(&self) -> Option<&Shape>
        ensures { IfSome result (λ shape. (node : ℕ) → shape.now ≡ shape_of self.now node) }
    {
        match &self.common {
            Some(common) => common.shape.as_ref(),
            None => None,
        }
    }

    /// What `shape` answers. Takes constant time and no memory where `with_common` found it, and the time
    /// and the memory of `shape` else.
    pub fn shared_shape(&self, node: u8) -> Result<Shape, AllocError>
        ensures { IfOk result (λ shape. shape ≡ shape_of self.now node) }
    {
        match self.kept_shape() {
            Some(shape) => shape.share(),
            None => self.shape(node),
        }
    }
}
