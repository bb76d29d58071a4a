//! The workbench that is asked.

use crate::stored::Stored;
use anyhow::{Result, bail};
use checks_layout::Layout;
use co_project::{EditFault, Project};
use script_commands::{Query, Request};
use std::alloc::Global;
use std::io::Write;
use workbench::{Answer, Work, Workbench, answer};

/// A workbench, what takes the lines of its edits, and a store if there is one.
#[derive(Drop)]
pub struct Desk {
    alloc: Global,
    workbench: Workbench,
    layout: Layout,
    stored: Option<Stored>,
}

/// The query of a line.
fn query_of(alloc: Global, line: &str) -> Result<Query> {
    match Request::read(alloc, line.as_bytes())? {
        Request::Query(query) => Ok(query),
        _ => bail!("no query"),
    }
}

/// The answer to a query.
fn answered(alloc: Global, workbench: &mut Workbench, query: Query) -> Result<Answer, EditFault> {
    answer(alloc, workbench, query)
}

/// The answer to a query, if there is memory for it.
fn answered_if_fits(
    alloc: Global,
    workbench: &mut Workbench,
    query: Query,
) -> Result<Option<Answer>> {
    match answered(alloc, workbench, query) {
        Ok(given) => Ok(Some(given)),
        Err(EditFault::Memory) => Ok(None),
        Err(fault) => Err(fault.into()),
    }
}

impl Desk {
    /// The first project, and no store.
    pub fn new(alloc: Global) -> Result<Desk> {
        let workbench = Workbench::new(alloc)?;
        Ok(Desk {
            alloc,
            workbench,
            layout: Layout::new(alloc),
            stored: None,
        })
    }

    /// The first project again. The store stays.
    pub fn clear(&mut self) -> Result<()> {
        self.workbench = Workbench::new(self.alloc)?;
        self.layout = Layout::new(self.alloc);
        Ok(())
    }

    /// The project as it is now.
    pub fn project(&self) -> &Project {
        self.workbench.project()
    }

    /// Whether the next line is one of a data sheet.
    pub fn takes_sheet(&self) -> bool {
        self.layout.takes_sheet()
    }

    /// Takes a line of an edit, and makes the edit that it completes.
    pub fn take_line(&mut self, line: &str) -> Result<()> {
        if let Some(edit) = self.layout.take_line(line.as_bytes())? {
            self.workbench.edit(edit)?;
        }
        Ok(())
    }

    /// Asks a query, and gives how much work all of them so far took.
    pub fn ask(&mut self, line: &str) -> Result<Work> {
        let query = query_of(self.alloc, line)?;
        answered(self.alloc, &mut self.workbench, query)?;
        Ok(self.workbench.work())
    }

    /// The answer to a query; none where there was no memory for it, after which all can be asked again.
    pub fn answer(&mut self, line: &str) -> Result<Option<Answer>> {
        let query = query_of(self.alloc, line)?;
        answered_if_fits(self.alloc, &mut self.workbench, query)
    }

    /// Has a store beside the workbench that holds at most so many segments.
    pub fn open_store(&mut self, capacity: &str) -> Result<()> {
        self.stored = Some(Stored::new(self.alloc, capacity)?);
        Ok(())
    }

    /// Shows the trace of the project's network over that store.
    pub fn show_stored<W: Write>(&mut self, out: &mut W, most: &str) -> Result<()> {
        match &mut self.stored {
            Some(stored) => stored.show(out, self.workbench.project(), most),
            None => bail!("no store"),
        }
    }
}
