//! The versions of scripts.

ghost use Rattle.std.specs.Prelude.{◌≡◌};
ghost use Rattle.project_edits.specs.Versions.{is_one, is_three, number_of};

/// The version of a script: which rules its project goes by.
#[derive(Clone, Copy, Debug, PartialEq, Eq)]
pub enum ScriptVersion {
    /// Version 1: the manager starts each node by itself, once it is configured.
    One,
    /// Version 2: nodes can be mandatory, and the manager starts the network as a whole once each mandatory
    /// node is configured.
    Two,
    /// Version 3: a message can say by which RPDO a node takes it.
    Three,
}

impl ScriptVersion {
    /// The number of the version: 1 to 3.
    pub fn number(self) -> u8
        ensures { result ≡ number_of self }
    {
        match self {
            ScriptVersion::One => 1,
            ScriptVersion::Two => 2,
            ScriptVersion::Three => 3,
        }
    }

    /// Whether it is version 1.
    pub fn is_one(self) -> bool
        ensures { result ≡ is_one self }
    {
        match self {
            ScriptVersion::One => true,
            ScriptVersion::Two | ScriptVersion::Three => false,
        }
    }

    /// Whether it is version 3.
    pub fn is_three(self) -> bool
        ensures { result ≡ is_three self }
    {
        match self {
            ScriptVersion::One | ScriptVersion::Two => false,
            ScriptVersion::Three => true,
        }
    }
}
