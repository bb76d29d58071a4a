//! What the network management commands.
ghost use Rattle.std.specs.Prelude.{◌≡◌};
ghost use Rattle.co_scenario.specs.Commands.{number_of, command_of};

/// A command of the network management (CiA 301), by its number in the message.
#[derive(Clone, Copy, Debug, PartialEq, Eq)]
pub enum NmtCommand {
    /// Go to operational.
    Start = 1,
    /// Go to stopped.
    Stop = 2,
    /// Go to pre-operational.
    EnterPreOperational = 128,
    /// Reset the node.
    ResetNode = 129,
    /// Reset the communication.
    ResetCommunication = 130,
}

impl NmtCommand {
    /// The command of a number, if it has one.
    pub fn from_number(number: u64) -> Option<NmtCommand>
        ensures { result ≡ command_of number }
    {
        match number {
            1 => Some(NmtCommand::Start),
            2 => Some(NmtCommand::Stop),
            128 => Some(NmtCommand::EnterPreOperational),
            129 => Some(NmtCommand::ResetNode),
            130 => Some(NmtCommand::ResetCommunication),
            _ => None,
        }
    }

    /// The number of the command.
    pub fn number(self) -> u8
        ensures { result ≡ number_of self }
    {
        self as u8
    }
}
