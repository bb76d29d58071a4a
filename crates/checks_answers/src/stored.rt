//! A store of segments of traces beside the workbench.

ghost use Rattle.co_depend.specs.Supply.{seen_of};
ghost use Rattle.image_parts.specs.Images.{IsImage};

use anyhow::Result;
use can_bus::{Line, Parts, text};
use checks_layout::parts_of;
use co_depend::RecordingParts;
use co_project::Project;
use co_segments::Store;
use image_parts::END;
use kept_values::Meter;
use std::alloc::{AllocError, Global};
use std::io::Write;

/// A store, and the count of the segments that were run for it.
#[derive(Drop)]
pub struct Stored {
    alloc: Global,
    store: Store,
    meter: Meter,
}

/// The number that a text has, 0 where it has none.
fn decimal(text: &str) -> u64 {
    text.parse::<u64>().unwrap_or(0)
}

/// Shows a count: that it is at most a number, or how far it is above.
fn show_count<W: Write>(out: &mut W, what: &str, count: u64, most: u64) -> Result<()> {
    if count <= most {
        writeln!(out, "{what} at most {most}")?;
    } else {
        writeln!(out, "{what} {count}")?;
    }
    Ok(())
}

/// What a store traces of a network whose parts are handed out.
fn trace_parts(
    alloc: Global,
    store: &mut Store,
    parts: &mut RecordingParts,
    horizon: u32,
    meter: &mut Meter,
) -> Result<Vec<Line>, AllocError>
    requires { IsImage (seen_of parts.now).image }
{
    if u64::from(horizon) >= END {
        return Ok(Vec::new(alloc));
    }
    store.trace(parts, horizon, meter)
}

impl Stored {
    /// A store that holds at most so many segments.
    pub fn new(alloc: Global, capacity: &str) -> Result<Stored> {
        let capacity = usize::try_from(decimal(capacity)).unwrap_or(0);
        let store = Store::new(alloc, capacity)?;
        Ok(Stored {
            alloc,
            store,
            meter: Meter::new(),
        })
    }

    /// The trace of a project's network over the store, and the number of calls that asked for parts.
    fn trace(&mut self, project: &Project) -> Result<(Vec<Line>, u64), AllocError> {
        let mut parts = parts_of(self.alloc, project)?;
        let lines = trace_parts(
            self.alloc,
            &mut self.store,
            &mut parts,
            project.horizon(),
            &mut self.meter,
        )?;
        Ok((lines, parts.asks()))
    }

    /// Shows the trace of a project's network over the store, and that it asked for parts and ran segments at most
    /// so many times as two numbers of the text say.
    pub fn show<W: Write>(&mut self, out: &mut W, project: &Project, most: &str) -> Result<()> {
        let (asks, runs) = most.split_once(' ').unwrap_or((most, ""));
        let before = self.meter.segments();
        let (lines, asked) = self.trace(project)?;
        let told = text(self.alloc, &lines)?;
        out.write_all(told.as_slice())?;
        let ran = self.meter.segments().saturating_sub(before);
        show_count(out, "asked", asked, decimal(asks))?;
        show_count(out, "ran", ran, decimal(runs))
    }
}
