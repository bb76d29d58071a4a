//! The workbench.
ghost use Rattle.std.specs.Prelude.{◌≡◌, ◌↔◌, IfOk, IsErrOf, IsTrue, None, OnOk};
ghost use Rattle.base.specs.Gives.{Gives};
ghost use Rattle.co_diag.specs.Found.{diagnostics_of};
ghost use Rattle.project_edits.specs.Accepts.{Accepts};
ghost use Rattle.project_edits.specs.Faults.{is_memory};
ghost use Rattle.co_project.specs.Project.{accept, adds, first};
ghost use Rattle.project_script.specs.Script.{script};
ghost use Rattle.co_project.specs.Sound.{IsSound};
ghost use Rattle.co_project.specs.Tables.{node_at};
ghost use Rattle.can_bus.specs.Lines.{lines_text};
ghost use Rattle.kept_values.specs.Work.{idle, Rises};
ghost use Rattle.kept_parts.specs.Kept.{kept_inputs};
ghost use Rattle.kept_parts.specs.Marks.{Marks};
ghost use Rattle.project_parts.specs.Reached.{parts_for};
ghost use Rattle.project_parts.specs.Touched.{is_touched};
ghost use Rattle.workbench.specs.Bench.{no_segments, Brings, BenchTraces};
ghost use Rattle.workbench.specs.Queries.{or_unknown, dcf_of, concise_of, trace_of};

use crate::files::{concise, dcf};
use crate::tracing::traced;
use crate::work::Work;
use crate::wrong::diagnostics;
use base::{ListedBytes, ListedText, Shared};
use can_bus::Line;
use co_project::{Command, EditFault, Project};
use co_segments::Store;
use kept_parts::KeptParts;
use kept_values::Meter;
use project_parts::{Diagnostics, Part};
use project_script::script_text;
use std::alloc::{AllocError, Global};
use std::marker::Model;
use trace_spans::TraceText;

/// The segments of traces that are kept at most.
const CAPACITY: usize = 2048;

/// A workbench: a project, and what is kept of it. Contracts see it as a record with its project.
///
/// Each answer is that of the project of now. Kept are the devices of EDS, the plan of the messages, of each
/// node its writes and its files, what a simulation reads: the roster, of each node its values, entries
/// and identity, and the events by windows; the diagnostics; and the segments of traces, with the text of their
/// lines; each with what it was built from or read. An edit marks what it may
/// leave with other inputs; a query looks at what it is built from, in its order, and makes anew what has
/// other inputs than it was built from, and no more. A file that is kept as it is now is shared, or copied.
#[derive(Drop)]
pub struct Workbench {
    alloc: Global,
    project: Project,
    parts: KeptParts,
    store: Store,
    meter: Meter,
}

impl Model for Workbench {
    ghost use Rattle.co_project.specs.contracts.project.Project as held;
    ghost use Rattle.workbench.specs.Bench.{Bench, bench_code};
    ghost use Rattle.kept_values.specs.contracts.meter.Meter as counted;
    ghost use Rattle.workbench.specs.Bench.{IsKeptOf};
    ghost use Rattle.co_segments.specs.contracts.store.Store as traces;
    ghost use Rattle.kept_parts.specs.contracts.kept_parts.KeptParts as kept;

    ghost Value = { Bench };

    ghost coded = { bench_code held.the_row.coded kept.the_row.coded traces.the_row.coded counted.the_row.coded };

    ghost view = { λ w. record {
      project = w.project;
      parts = w.parts;
      store = w.store;
      work = w.meter;
    } };

    ghost invariant = { λ w. IsKeptOf w.project w.parts w.store };
}

impl Workbench {
    /// A workbench with the first project, of which nothing is kept. Want of memory is the only error.
    pub fn new(alloc: Global) -> Result<Workbench, AllocError>
        ensures project { IfOk result (λ w. w.project ≡ first) }
        ensures store { IfOk result (λ w. w.store ≡ no_segments) }
        ensures work { IfOk result (λ w. w.work ≡ idle) }
    {
        let store = Store::new(alloc, CAPACITY)?;
        Ok(Workbench {
            alloc,
            project: Project::new(alloc),
            parts: KeptParts::new(alloc),
            store,
            meter: Meter::new(),
        })
    }

    /// Takes an edit, or refuses it with the first fault that applies and changes nothing. Memory
    /// can come in place of each where the edit adds something, and changes nothing either. What the
    /// edit may leave with other inputs is marked, whether it is taken or refused: that takes no memory.
    pub fn edit(&mut self, command: Command) -> Result<(), EditFault>
        ensures accepts { Accepts self.old.project self.new.project result (accept self.old.project command) }

        // What is made from inputs that the edit may change has a mark afterwards, and what had one; nothing else has.
        ensures marks { Marks (is_touched self.old.project command) self.old.parts self.new.parts }

        // Nothing that is kept changes, and nothing is counted.
        ensures held { (q : Part) → kept_inputs self.new.parts q ≡ kept_inputs self.old.parts q }
        ensures store { self.new.store ≡ self.old.store }
        ensures work { self.new.work ≡ self.old.work }

        // Memory comes only of edits that add something.
        ensures memory { IsErrOf result EditFault.Memory → IsTrue (adds self.old.project command) }
    {
        self.parts.touch(command.edit(), &self.project);
        self.project.accept(command)?;
        Ok(())
    }

    /// The project as it is now.
    pub fn project(&self) -> &Project
        ensures { result.now ≡ self.now.project }
    {
        &self.project
    }

    /// What each project keeps to, this one too.
    pub fn keeps_to_rules(&self)
        ensures { IsSound self.now.project }
    {
        self.project.keeps_to_rules();
    }

    /// The device configuration file (CiA 306) of a node, of the project as it is now, with the reply that
    /// shows it. It is shared with what is kept: where no edit came since, that takes no memory, and no
    /// time by its length.
    ///
    /// Unknown: the number isn't a node's. Memory can come in place of the file.
    #[tactic(auto, unfolding(crate::specs::Queries::dcf_of, project_plan::specs::Network::member_at))]
    pub fn listed_dcf(&mut self, node: u8) -> Result<Shared<ListedText>, EditFault>
        ensures file { Gives is_memory (λ text. text) result (or_unknown (dcf_of self.old.project node)) }
        ensures brings { OnOk result (Brings (parts_for self.old.project (Part.Dcf node))
            self.old self.new) }
        ensures unknown { IsErrOf result EditFault.Unknown ↔ (node_at self.old.project.nodes node ≡ None) }

        // Then nothing is looked at.
        ensures unlooked { IsErrOf result EditFault.Unknown → self.new ≡ self.old }
        ensures same { self.new.project ≡ self.old.project }
        ensures rises { Rises self.old.work self.new.work }
    {
        if self.project.node(node).is_none() {
            return Err(EditFault::Unknown);
        }
        let text = dcf(&self.project, &mut self.parts, &mut self.meter, node)?;
        Ok(text)
    }

    /// The device configuration file (CiA 306) of a node, of the project as it is now: a copy.
    ///
    /// Unknown: the number isn't a node's. Memory can come in place of the file.
    pub fn dcf(&mut self, node: u8) -> Result<Vec<u8>, EditFault>
        ensures file { Gives is_memory (λ v. v.items) result (or_unknown (dcf_of self.old.project node)) }
        ensures brings { OnOk result (Brings (parts_for self.old.project (Part.Dcf node))
            self.old self.new) }
        ensures unknown { IsErrOf result EditFault.Unknown ↔ (node_at self.old.project.nodes node ≡ None) }

        // Then nothing is looked at.
        ensures unlooked { IsErrOf result EditFault.Unknown → self.new ≡ self.old }
        ensures same { self.new.project ≡ self.old.project }
        ensures rises { Rises self.old.work self.new.work }
    {
        let file = self.listed_dcf(node)?;
        let text = Vec::from_slice(self.alloc, file.get().text())?;
        Ok(text)
    }

    /// The bytes of the concise device configuration file (CiA 302) of a node, of the project as it is now,
    /// with the reply that shows them. They are shared with what is kept: where no edit came since, that
    /// takes no memory, and no time by their number.
    ///
    /// Unknown: the number isn't a node's. Memory can come in place of the file.
    #[tactic(auto, unfolding(crate::specs::Queries::concise_of, project_plan::specs::Network::member_at))]
    pub fn listed_concise(&mut self, node: u8) -> Result<Shared<ListedBytes>, EditFault>
        ensures file { Gives is_memory (λ bytes. bytes) result (or_unknown (concise_of self.old.project node)) }
        ensures brings { OnOk result (Brings (parts_for self.old.project (Part.Concise node))
            self.old self.new) }
        ensures unknown { IsErrOf result EditFault.Unknown ↔ (node_at self.old.project.nodes node ≡ None) }

        // Then nothing is looked at.
        ensures unlooked { IsErrOf result EditFault.Unknown → self.new ≡ self.old }
        ensures same { self.new.project ≡ self.old.project }
        ensures rises { Rises self.old.work self.new.work }
    {
        if self.project.node(node).is_none() {
            return Err(EditFault::Unknown);
        }
        let bytes = concise(&self.project, &mut self.parts, &mut self.meter, node)?;
        Ok(bytes)
    }

    /// The bytes of the concise device configuration file (CiA 302) of a node, of the project as it
    /// is now: a copy.
    ///
    /// Unknown: the number isn't a node's. Memory can come in place of the file.
    pub fn concise(&mut self, node: u8) -> Result<Vec<u8>, EditFault>
        ensures file { Gives is_memory (λ v. v.items) result (or_unknown (concise_of self.old.project node)) }
        ensures brings { OnOk result (Brings (parts_for self.old.project (Part.Concise node))
            self.old self.new) }
        ensures unknown { IsErrOf result EditFault.Unknown ↔ (node_at self.old.project.nodes node ≡ None) }

        // Then nothing is looked at.
        ensures unlooked { IsErrOf result EditFault.Unknown → self.new ≡ self.old }
        ensures same { self.new.project ≡ self.old.project }
        ensures rises { Rises self.old.work self.new.work }
    {
        let file = self.listed_concise(node)?;
        let bytes = Vec::from_slice(self.alloc, file.get().bytes())?;
        Ok(bytes)
    }

    /// All that is wrong with the project as it is now, each once, in order, with its lines.
    ///
    /// Takes constant time where no edit came since. Else brings the plan up to date, and compares the project
    /// with the one that the diagnostics which are kept are of, its texts last; makes them anew, where it is
    /// another one, in the time of `co_diag::diagnostics_by`, over the devices and the plan that are kept. A
    /// text that no node is made from is read again then.
    pub fn diagnostics(&mut self) -> Result<Shared<Diagnostics>, AllocError>
        ensures list { IfOk result (λ list. list ≡ diagnostics_of self.old.project) }
        ensures brings { OnOk result (Brings (parts_for self.old.project Part.Diagnostics) self.old self.new) }
        ensures same { self.new.project ≡ self.old.project }
        ensures rises { Rises self.old.work self.new.work }
    {
        let found = diagnostics(&self.project, &mut self.parts, &mut self.meter)?;
        Ok(found)
    }

    /// The trace of the network of the project as it is now, with its text. Takes time and memory as `trace` does,
    /// but for the copy of the lines.
    fn told(&mut self) -> Result<TraceText, AllocError>
        ensures lines { IfOk result (λ told. told ≡ trace_of self.old.project) }
        ensures traces { OnOk result (BenchTraces self.old self.new) }
        ensures same { self.new.project ≡ self.old.project }
        ensures rises { Rises self.old.work self.new.work }
    {
        self.parts.refresh_all(&self.project, &mut self.meter)?;
        let network = self.parts.network(&self.project)?;
        let told = traced(
            self.alloc,
            &self.project,
            network,
            &mut self.store,
            &mut self.meter,
        )?;
        Ok(told)
    }

    /// The trace of the network of the project as it is now: from the power-on, an instant at each
    /// microsecond up to the horizon.
    ///
    /// Brings what the simulation reads up to date: the plan, the roster, of each node its values, entries,
    /// identity and writes, and the 1,001 windows of events; what has no mark is passed over. Then it goes from
    /// window to window, of 10 milliseconds each. A segment that is held of a window, begins with the bus that
    /// was reached and has read nothing that is another now is used: in time by what it read. Each other
    /// window is run, at the microseconds at which something is due: in time at each by what is due or changes
    /// there, by the nodes that have to run, and by an eighth of all. It is kept, at most 2,048 of them: memory
    /// by its lines and their text, what it read and what changed in it.
    pub fn trace(&mut self) -> Result<Vec<Line>, AllocError>
        ensures lines { IfOk result (λ lines. lines.items ≡ trace_of self.old.project) }
        ensures traces { OnOk result (BenchTraces self.old self.new) }
        ensures same { self.new.project ≡ self.old.project }
        ensures rises { Rises self.old.work self.new.work }
    {
        let told = self.told()?;
        let lines = told.lines()?;
        Ok(lines)
    }

    /// The text of the trace, each line ended by LF, with the reply that shows it. Takes the time of `trace`; the
    /// text of each window is kept with it, and copied once.
    pub(crate) fn trace_text(&mut self) -> Result<ListedText, AllocError>
        ensures text { IfOk result (λ text. text ≡ lines_text (trace_of self.old.project)) }
        ensures traces { OnOk result (BenchTraces self.old self.new) }
        ensures same { self.new.project ≡ self.old.project }
        ensures rises { Rises self.old.work self.new.work }
    {
        let shown = self.told()?;
        let text = shown.listed()?;
        Ok(text)
    }

    /// How much work the answers took so far: the segments of traces that were run, and the parts that were
    /// made anew, each up to 2^64 - 1.
    pub fn work(&self) -> Work
        ensures parts { result.parts ≡ self.now.work.parts }
        ensures segments { result.segments ≡ self.now.work.segments }
    {
        Work {
            segments: self.meter.segments(),
            parts: self.meter.parts(),
        }
    }

    /// The commands that make this project of the first one, as text.
    pub fn script(&self) -> Result<Vec<u8>, AllocError>
        ensures text { IfOk result (λ text. text.items ≡ script self.now.project) }

        // So these commands make it again.
        ensures sound { IsSound self.now.project }
    {
        script_text(self.alloc, &self.project)
    }
}
