//! An SDO server and a client.

use co_sdo::Server;
use sdo_client::Client;
use std::alloc::{AllocError, Global};
use std::io;

/// A server and a client, which needn't have the same transfer open.
#[derive(Drop)]
pub struct Pair {
    pub server: Server,
    pub client: Client,
}

impl Pair {
    /// Two with no open transfer.
    pub fn new(alloc: Global) -> Pair {
        Pair {
            server: Server::new(alloc),
            client: Client::new(alloc),
        }
    }

    /// Equal ones.
    pub fn copy(&self) -> Result<Pair, AllocError> {
        let server = self.server.copy()?;
        let client = self.client.copy()?;
        Ok(Pair { server, client })
    }

    /// Gives way to a copy of others.
    pub fn become_copy(&mut self, other: &Pair) -> Result<(), AllocError> {
        *self = other.copy()?;
        Ok(())
    }

    /// Drops their open transfers.
    pub fn close(&mut self) {
        self.server.close();
        self.client.close();
    }

    /// Shows whether they are the same as the kept ones, and whether they are spent.
    pub fn show_beside(&self, rt: &HostRuntime, kept: &Pair) -> io::Result<()> {
        let server = self.server.same(&kept.server);
        let client = self.client.same(&kept.client);
        print!(rt; "as kept: server {server}, client {client}")?;
        let (server, client) = (self.server.spent(), self.client.spent());
        println!(rt; "; spent: {server}, {client}")
    }
}
