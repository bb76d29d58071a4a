//! The words that lines begin with.

/// What is asked of a text that spells a number or a value.
#[derive(Clone, Copy)]
pub enum ValueWord {
    Number,
    Formula,
    Value,
    Type,
    Little,
}

/// What bytes are taken for.
#[derive(Clone, Copy)]
pub enum ListWord {
    List,
    Octets,
    Two,
}

/// What is done with an INI text.
#[derive(Clone, Copy)]
pub enum TextWord {
    Read,
    Get,
    Set,
    Long,
}

/// What is done with the events of a scenario, or asked of them.
#[derive(Clone, Copy)]
pub enum EventWord {
    Put,
    Drop,
    All,
    Between,
    Command,
}

/// What is asked of a dictionary and a shape.
#[derive(Clone, Copy)]
pub enum DictWord {
    Value,
    Entry,
    Dummy,
}

/// What is changed in a dictionary and a shape.
#[derive(Clone, Copy)]
pub enum ChangeWord {
    Write,
    Copy,
    Heartbeat,
    Name,
}

/// A word, by what it is about.
#[derive(Clone, Copy)]
pub enum Word {
    Values(ValueWord),
    Lists(ListWord),
    Texts(TextWord),
    Events(EventWord),
    Dicts(DictWord),
    Changes(ChangeWord),
}

/// The words as they are spelled.
const WORDS: [(&str, Word); 24] = [
    ("number", Word::Values(ValueWord::Number)),
    ("formula", Word::Values(ValueWord::Formula)),
    ("value", Word::Values(ValueWord::Value)),
    ("type", Word::Values(ValueWord::Type)),
    ("little", Word::Values(ValueWord::Little)),
    ("list", Word::Lists(ListWord::List)),
    ("octets", Word::Lists(ListWord::Octets)),
    ("two", Word::Lists(ListWord::Two)),
    ("ini", Word::Texts(TextWord::Read)),
    ("get", Word::Texts(TextWord::Get)),
    ("set", Word::Texts(TextWord::Set)),
    ("long", Word::Texts(TextWord::Long)),
    ("event", Word::Events(EventWord::Put)),
    ("drop", Word::Events(EventWord::Drop)),
    ("events", Word::Events(EventWord::All)),
    ("between", Word::Events(EventWord::Between)),
    ("command", Word::Events(EventWord::Command)),
    ("value-of", Word::Dicts(DictWord::Value)),
    ("entry", Word::Dicts(DictWord::Entry)),
    ("dummy", Word::Dicts(DictWord::Dummy)),
    ("write", Word::Changes(ChangeWord::Write)),
    ("copy", Word::Changes(ChangeWord::Copy)),
    ("heartbeat", Word::Changes(ChangeWord::Heartbeat)),
    ("name", Word::Changes(ChangeWord::Name)),
];

/// The word that a text is, if it is one.
pub fn word_of(text: &str) -> Option<Word> {
    for (spelled, word) in &WORDS {
        if *spelled == text {
            return Some(*word);
        }
    }
    None
}
