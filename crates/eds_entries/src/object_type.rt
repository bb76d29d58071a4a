//! The kinds of objects.
ghost use Rattle.std.specs.Prelude.{◌≡◌};
ghost use Rattle.eds_entries.specs.Sections.{object_of_number};

/// What an object of a dictionary is, as CiA 301's object codes say.
#[derive(Clone, Copy, Debug, PartialEq, Eq)]
pub enum ObjectType {
    Domain,
    Variable,
    Array,
    Record,
    /// Any other object: it has no entries.
    Other,
}

impl ObjectType {
    /// The object that a code names.
    pub(crate) fn of_code(number: i128) -> ObjectType
        ensures { result ≡ object_of_number number }
    {
        match number {
            2 => ObjectType::Domain,
            7 => ObjectType::Variable,
            8 => ObjectType::Array,
            9 => ObjectType::Record,
            _ => ObjectType::Other,
        }
    }
}
