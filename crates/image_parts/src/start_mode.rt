//! When the nodes of a network are started.

/// When the manager (CiA 302) starts the nodes that it has configured.
#[derive(Clone, Copy, Debug, PartialEq, Eq)]
pub enum StartMode {
    /// Each node by itself, as soon as it is configured.
    EachNode,
    /// All nodes by one command, as soon as each mandatory node is configured; from then on each node by itself.
    WholeNetwork,
    /// Each node that is configured then by a command of its own, as soon as each mandatory node is configured; from then
    /// on each node by itself. So none is started that isn't configured.
    ConfiguredNodes,
}
