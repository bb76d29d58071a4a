//! The entries of the node.

use crate::row::Row;
use base::Octets;
use co_dict::{Access, Dict, Entry, Shape};
use co_values::DataType;
use std::alloc::{AllocError, Global};

/// The entries that the node has at first, each with its default.
const ENTRIES: [(u16, u8, DataType, Access, &[u8]); 6] = [
    (
        0x1000,
        0,
        DataType::Unsigned32,
        Access::Constant,
        b"\x91\x01\x00\x00",
    ),
    (
        0x1017,
        0,
        DataType::Unsigned16,
        Access::ReadWrite,
        b"\x00\x00",
    ),
    (0x1FFF, 0, DataType::Unsigned8, Access::ReadWrite, b"\x01"),
    (0x2000, 0, DataType::Unsigned8, Access::ReadWrite, b"\x02"),
    (
        0x2001,
        0,
        DataType::VisibleString,
        Access::ReadWrite,
        b"cobench",
    ),
    (0x2001, 1, DataType::VisibleString, Access::ReadWrite, b""),
];

/// The entries of the node and their defaults, and the dummies that its RPDOs may map.
#[derive(Drop)]
pub struct Entries {
    alloc: Global,
    rows: Vec<Row>,
    dummies: [bool; 7],
}

/// An entry that no PDO carries, of all numbers of its type.
fn plain(kind: DataType, access: Access) -> Entry {
    Entry {
        kind,
        access,
        low: None,
        high: None,
        mappable: false,
    }
}

impl Entries {
    /// Those that the node has at first.
    pub fn new(alloc: Global) -> Result<Entries, AllocError> {
        let mut entries = Entries {
            alloc,
            rows: Vec::new(alloc),
            dummies: [false; 7],
        };
        entries.begin()?;
        Ok(entries)
    }

    /// Makes them those that the node has at first.
    pub fn begin(&mut self) -> Result<(), AllocError> {
        self.rows.clear();
        self.dummies = [false; 7];
        for row in &ENTRIES {
            self.put(row.0, row.1, plain(row.2, row.3), row.4)?;
        }
        Ok(())
    }

    /// Adds an entry, or takes it for the one that was there.
    pub fn put(
        &mut self,
        index: u16,
        sub: u8,
        entry: Entry,
        default: &[u8],
    ) -> Result<(), AllocError> {
        let default = Octets::from_slice(self.alloc, default)?;
        self.rows.push(Row {
            index,
            sub,
            entry,
            default,
        })?;
        Ok(())
    }

    /// Adds an entry by the number of its data type (CiA 301).
    pub fn add(
        &mut self,
        access: Access,
        kind: u64,
        place: (u16, u8),
        default: &[u8],
    ) -> Result<(), AllocError> {
        let kind = DataType::of_code(i128::from(kind));
        self.put(place.0, place.1, plain(kind, access), default)
    }

    /// Changes the last entry: `maps` lets PDOs carry it, `low` and `high` set a limit.
    pub fn change(&mut self, word: &str, limit: u64) -> Result<(), AllocError> {
        if let Some(mut row) = self.rows.pop() {
            match word {
                "low" => row.entry.low = Some(i128::from(limit)),
                "high" => row.entry.high = Some(i128::from(limit)),
                _ => row.entry.mappable = true,
            }
            self.rows.push(row)?;
        }
        Ok(())
    }

    /// Lets RPDOs map the dummy of a data type's number, 1 to 7.
    pub fn allow(&mut self, kind: u64) {
        if matches!(kind, 1..=7) {
            self.dummies[kind as usize - 1] = true;
        }
    }

    /// Their shape.
    pub fn shape(&self) -> Result<Shape, AllocError> {
        let mut shape = Shape::new(self.alloc, self.dummies);
        for row in &self.rows {
            shape.insert(row.index, row.sub, row.entry)?;
        }
        Ok(shape)
    }

    /// Their defaults.
    pub fn defaults(&self) -> Result<Dict, AllocError> {
        let mut dict = Dict::new(self.alloc);
        for row in &self.rows {
            if row.default.len() <= 512 {
                dict.write(row.index, row.sub, row.default.as_slice())?;
            }
        }
        Ok(dict)
    }
}
