//! When the manager starts nodes.

ghost use Rattle.std.specs.Prelude.{◌≡◌, ◌↔◌, true, IfOk, IsTrue};
ghost use Rattle.nmt_boot.specs.Startup as rules;

use base::Octets;
use image_parts::{Roster, StartMode};
use manager_nodes::NodeTable;
use std::alloc::{AllocError, Global};
use std::marker::Model;
use std::rc::Rc;

/// When the manager starts nodes, which of them are mandatory, and whether it has started the network
/// (CiA 302). Copies share the numbers of the mandatory nodes.
#[derive(Drop)]
pub(crate) struct Startup {
    mode: StartMode,
    mandatory: Option<Rc<Octets>>,
    is_started: bool,
}

impl Model for Startup {
    ghost use Rattle.nmt_boot.specs.Mandatory.{numbers_behind};
    ghost use Rattle.nmt_boot.specs.Startup.{Startup as State};

    ghost Value = { State };

    ghost view = { λ startup. record {
      mode = startup.mode;
      mandatory = numbers_behind startup.mandatory;
      is_started = startup.is_started;
    } };
}

impl Startup {
    /// Each node by itself. Takes no memory.
    pub(crate) fn none() -> Startup
        ensures { result ≡ rules.no_startup }
    {
        Startup {
            mode: StartMode::EachNode,
            mandatory: None,
            is_started: false,
        }
    }

    /// When the nodes of a network are started, of which none is yet.
    pub(crate) fn of(alloc: Global, roster: &Roster) -> Result<Startup, AllocError>
        ensures { IfOk result (λ startup. startup ≡ rules.startup_of roster.now) }
    {
        let mandatory = Octets::from_slice(alloc, roster.mandatory.as_slice())?;
        let mandatory = Rc::new(alloc, mandatory)?;
        Ok(Startup {
            mode: roster.start_mode,
            mandatory: Some(mandatory),
            is_started: false,
        })
    }

    /// An equal one, which shares the numbers. Takes no memory.
    pub(crate) fn copy(&self) -> Result<Startup, AllocError>
        ensures { IfOk result (λ startup. startup ≡ self.now) }
    {
        let mandatory = match &self.mandatory {
            None => None,
            Some(numbers) => Some(numbers.clone()?),
        };
        Ok(Startup {
            mode: self.mode,
            mandatory,
            is_started: self.is_started,
        })
    }

    /// The numbers of the mandatory nodes.
    fn mandatory(&self) -> &[u8]
        ensures { result.now ≡ self.now.mandatory }
    {
        match &self.mandatory {
            None => &[],
            Some(numbers) => numbers.as_slice(),
        }
    }

    /// Whether two are equal.
    pub(crate) fn same(&self, other: &Startup) -> bool
        ensures { IsTrue result ↔ (self.now ≡ other.now) }
    {
        self.mode == other.mode
            && self.is_started == other.is_started
            && self.mandatory() == other.mandatory()
    }

    /// When it starts nodes.
    pub(crate) fn mode(&self) -> StartMode
        ensures { result ≡ self.now.mode }
    {
        self.mode
    }

    /// Whether the manager has started the network.
    pub(crate) fn is_started(&self) -> bool
        ensures { result ≡ self.now.is_started }
    {
        self.is_started
    }

    /// Whether each node that is configured is started by itself.
    pub(crate) fn starts_each(&self) -> bool
        ensures { result ≡ rules.starts_each self.now }
    {
        match self.mode {
            StartMode::EachNode => true,
            StartMode::WholeNetwork => self.is_started,
            StartMode::ConfiguredNodes => self.is_started,
        }
    }

    /// Whether the network is started, where a node was configured. Takes constant time where each node is
    /// started by itself, and else time by the number of nodes times that of the mandatory ones.
    pub(crate) fn starts_network(&self, nodes: &NodeTable) -> bool
        ensures { result ≡ rules.starts_network self.now nodes.now }
    {
        !self.starts_each() && nodes.all_configured(self.mandatory())
    }

    /// The network is started.
    pub(crate) fn start(&mut self)
        ensures { self.new ≡ record self.old { is_started = true } }
    {
        self.is_started = true;
    }
}
