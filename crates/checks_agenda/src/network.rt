//! The network that the input lays out.

use crate::marks::Marks;
use anyhow::Result;
use checks_layout::Layout;
use co_project::Project;
use std::alloc::Global;

/// A project, what takes the lines of its edits, and the marks of its entries.
#[derive(Drop)]
pub struct Network {
    project: Project,
    layout: Layout,
    marks: Marks,
}

impl Network {
    /// The first project.
    pub fn new(alloc: Global) -> Network {
        Network {
            project: Project::new(alloc),
            layout: Layout::new(alloc),
            marks: Marks::none(alloc),
        }
    }

    /// The project as it is now.
    pub fn project(&self) -> &Project {
        &self.project
    }

    /// The marks so far.
    pub fn marks(&self) -> &Marks {
        &self.marks
    }

    /// Takes a mark.
    pub fn take_mark(&mut self, text: &str) -> Result<()> {
        self.marks.take(text)?;
        Ok(())
    }

    /// Whether the next line is one of a data sheet.
    pub fn takes_sheet(&self) -> bool {
        self.layout.takes_sheet()
    }

    /// Takes a line of an edit, and makes the edit that it completes.
    pub fn take_line(&mut self, line: &str) -> Result<()> {
        if let Some(edit) = self.layout.take_line(line.as_bytes())? {
            self.project.accept(edit)?;
        }
        Ok(())
    }
}
