//! The objects of the manufacturer in data sheets, and values for them.

use std::alloc::AllocError;
use std::fmt::Write;

/// The index of the first object with one entry.
pub const SETTINGS: u32 = 0x2000;

/// The index of the first object whose entries are told as one.
pub const TABLES: u32 = 0x5000;

/// What an object with one entry is: they take these by turns.
struct Kind {
    data_type: u8,
    lines: &'static str,
}

const KINDS: [Kind; 8] = [
    Kind {
        data_type: 0x05,
        lines: "LowLimit=0\nHighLimit=200\nDefaultValue=7\nPDOMapping=1\n",
    },
    Kind {
        data_type: 0x06,
        lines: "LowLimit=0\nHighLimit=60000\nDefaultValue=100\nPDOMapping=1\n",
    },
    Kind {
        data_type: 0x07,
        lines: "LowLimit=0x00000000\nHighLimit=0x007FFFFF\nDefaultValue=$NODEID+0x100\nPDOMapping=0\n",
    },
    Kind {
        data_type: 0x02,
        lines: "LowLimit=-100\nHighLimit=100\nDefaultValue=-3\nPDOMapping=1\n",
    },
    Kind {
        data_type: 0x03,
        lines: "LowLimit=-3000\nHighLimit=3000\nDefaultValue=-300\nPDOMapping=1\n",
    },
    Kind {
        data_type: 0x04,
        lines: "LowLimit=-2000000\nHighLimit=2000000\nDefaultValue=100000\nPDOMapping=1\n",
    },
    Kind {
        data_type: 0x09,
        lines: "DefaultValue=Axis of the line\nPDOMapping=0\n",
    },
    Kind {
        data_type: 0x0A,
        lines: "DefaultValue=0A0B0C\nPDOMapping=0\n",
    },
];

/// Writes the lines of an object with one entry, and so many lines of comments behind it.
pub fn put_setting(text: &mut String, number: u16, comments: u8) -> Result<(), AllocError> {
    let kind = &KINDS[usize::from(number) % 8];
    let index = SETTINGS + u32::from(number);
    let data_type = kind.data_type;
    writeln!(text, "[{index:04X}]\nParameterName=Setting {number}")?;
    writeln!(
        text,
        "ObjectType=0x7\nDataType=0x{data_type:04X}\nAccessType=rw"
    )?;
    text.push_str(kind.lines)?;
    for line in 0..comments {
        writeln!(text, "; note {line}")?;
    }
    text.push('\n')
}

/// Writes the lines of an object whose entries, up to a sub-index, are told as one.
pub fn put_table(text: &mut String, number: u16, subs: u8) -> Result<(), AllocError> {
    let index = TABLES + u32::from(number);
    writeln!(
        text,
        "[{index:04X}]\nParameterName=Table {number}\nObjectType=0x8"
    )?;
    writeln!(
        text,
        "DataType=0x0006\nAccessType=rw\nDefaultValue=5\nCompactSubObj={subs}\n"
    )?;
    writeln!(
        text,
        "[{index:04X}Name]\nNrOfEntries=2\n1=First step\n2=Second step\n"
    )?;
    writeln!(text, "[{index:04X}Value]\nNrOfEntries=1\n1={number}\n")
}

/// Writes a text that is a value of an object with one entry.
pub fn put_value(script: &mut String, number: u16, value: u32) -> Result<(), AllocError> {
    match number % 8 {
        6 => write!(script, "Axis {value} of line {number}"),
        7 => write!(script, "{value:08X}"),
        3 => write!(script, "-{}", value % 100),
        _ => write!(script, "{}", value % 200),
    }
}
