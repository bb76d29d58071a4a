//! Electronic data sheets (CiA 306), as vendors ship them for drives.

use crate::objects::{put_setting, put_table};
use crate::random::Random;
use std::alloc::{AllocError, Global};
use std::fmt::Write;

/// What a data sheet has.
#[derive(Clone, Copy)]
pub struct Sheet {
    /// RPDOs, and as many TPDOs.
    pub pdos: u16,
    /// Objects of the manufacturer with one entry.
    pub settings: u16,
    /// Objects of the manufacturer with entries that are told as one.
    pub tables: u16,
    /// The highest sub-index of these.
    pub subs: u8,
    /// Lines of comments behind each object.
    pub comments: u8,
}

impl Sheet {
    /// That of a drive.
    pub const DRIVE: Sheet = Sheet {
        pdos: 4,
        settings: 96,
        tables: 4,
        subs: 16,
        comments: 1,
    };
}

const HEAD: &str = "\
FileVersion=1
FileRevision=4
EDSVersion=4.0
CreationTime=09:12AM
CreationDate=03-11-2025
CreatedBy=E. Lindqvist

[DeviceInfo]
VendorName=Lindqvist Antriebe
VendorNumber=0x000003E7
ProductName=SD-400
OrderCode=SD-400-CAN
BaudRate_125=1
BaudRate_250=1
BaudRate_500=1
BaudRate_1000=1
SimpleBootUpSlave=1
Granularity=8
LSS_Supported=0

[DummyUsage]
Dummy0001=0
Dummy0005=1
Dummy0006=1
Dummy0007=1

[MandatoryObjects]
SupportedObjects=3
1=0x1000
2=0x1001
3=0x1018

";

/// An entry of the profile: its section, and the lines of its type, access and default.
const ENTRIES: [(&str, &str); 20] = [
    (
        "1000",
        "DataType=0x0007\nAccessType=ro\nDefaultValue=0x00020192\nPDOMapping=0",
    ),
    (
        "1001",
        "DataType=0x0005\nAccessType=ro\nDefaultValue=0\nPDOMapping=1",
    ),
    (
        "1005",
        "DataType=0x0007\nAccessType=rw\nDefaultValue=0x00000080\nPDOMapping=0",
    ),
    (
        "1008",
        "DataType=0x0009\nAccessType=const\nDefaultValue=SD-400\nPDOMapping=0",
    ),
    (
        "1016sub0",
        "DataType=0x0005\nAccessType=ro\nDefaultValue=2\nPDOMapping=0",
    ),
    (
        "1016sub1",
        "DataType=0x0007\nAccessType=rw\nDefaultValue=0\nPDOMapping=0",
    ),
    (
        "1016sub2",
        "DataType=0x0007\nAccessType=rw\nDefaultValue=0\nPDOMapping=0",
    ),
    (
        "1017",
        "DataType=0x0006\nAccessType=rw\nLowLimit=0\nHighLimit=0xFFFF\nDefaultValue=0\nPDOMapping=0",
    ),
    (
        "1018sub0",
        "DataType=0x0005\nAccessType=ro\nDefaultValue=4\nPDOMapping=0",
    ),
    (
        "1018sub1",
        "DataType=0x0007\nAccessType=ro\nDefaultValue=0x000003E7\nPDOMapping=0",
    ),
    (
        "1018sub2",
        "DataType=0x0007\nAccessType=ro\nDefaultValue=0x00000400\nPDOMapping=0",
    ),
    (
        "1018sub3",
        "DataType=0x0007\nAccessType=ro\nDefaultValue=0\nPDOMapping=0",
    ),
    (
        "1018sub4",
        "DataType=0x0007\nAccessType=ro\nDefaultValue=0\nPDOMapping=0",
    ),
    (
        "1019",
        "DataType=0x0005\nAccessType=rw\nDefaultValue=0\nPDOMapping=0",
    ),
    (
        "6040",
        "DataType=0x0006\nAccessType=rww\nDefaultValue=0\nPDOMapping=1",
    ),
    (
        "6041",
        "DataType=0x0006\nAccessType=ro\nDefaultValue=0x0250\nPDOMapping=1",
    ),
    (
        "6060",
        "DataType=0x0002\nAccessType=rww\nDefaultValue=1\nPDOMapping=1",
    ),
    (
        "6064",
        "DataType=0x0004\nAccessType=ro\nDefaultValue=0\nPDOMapping=1",
    ),
    (
        "607A",
        "DataType=0x0004\nAccessType=rww\nDefaultValue=0\nPDOMapping=1",
    ),
    (
        "6080",
        "DataType=0x0007\nAccessType=rw\nLowLimit=0\nHighLimit=6000\nDefaultValue=3000\nPDOMapping=0",
    ),
];

/// Writes the lines of an entry.
fn put_entry(text: &mut String, section: &str, lines: &str) -> Result<(), AllocError> {
    writeln!(
        text,
        "[{section}]\nParameterName=Entry {section}\nObjectType=0x7\n{lines}\n"
    )
}

/// Writes the lines of an entry of a PDO's communication object.
fn put_part(
    text: &mut String,
    index: u32,
    sub: u8,
    data_type: u8,
    default: &str,
) -> Result<(), AllocError> {
    writeln!(
        text,
        "[{index:04X}sub{sub}]\nParameterName=Parameter {sub}\nObjectType=0x7"
    )?;
    writeln!(
        text,
        "DataType=0x{data_type:04X}\nAccessType=rw\nDefaultValue={default}\nPDOMapping=0\n"
    )
}

/// Writes the lines of a PDO's mapping object.
fn put_mapping(text: &mut String, index: u32) -> Result<(), AllocError> {
    writeln!(
        text,
        "[{index:04X}]\nParameterName=Mapping\nObjectType=0x9\nDataType=0x0007"
    )?;
    writeln!(text, "AccessType=rw\nCompactSubObj=8\n")?;
    put_part(text, index, 0, 5, "0")
}

/// Writes the lines of an RPDO and a TPDO, both off.
fn put_pdos(text: &mut String, number: u16) -> Result<(), AllocError> {
    let number = u32::from(number);
    put_part(text, 0x1400 + number, 1, 7, "$NODEID+0x80000200")?;
    put_part(text, 0x1400 + number, 2, 5, "255")?;
    put_mapping(text, 0x1600 + number)?;
    put_part(text, 0x1800 + number, 1, 7, "$NODEID+0xC0000180")?;
    put_part(text, 0x1800 + number, 2, 5, "255")?;
    put_part(text, 0x1800 + number, 3, 6, "0")?;
    put_part(text, 0x1800 + number, 5, 6, "0")?;
    put_part(text, 0x1800 + number, 6, 5, "0")?;
    put_mapping(text, 0x1A00 + number)
}

/// Writes the lines of a data sheet.
fn put_lines(text: &mut String, sheet: &Sheet, random: &mut Random) -> Result<(), AllocError> {
    let drive = random.below(100_000);
    writeln!(
        text,
        "; Data sheet of the drive {drive}\n\n[FileInfo]\nFileName=d{drive}.eds"
    )?;
    text.push_str(HEAD)?;
    for (section, lines) in &ENTRIES {
        put_entry(text, section, lines)?;
    }
    for number in 0..sheet.pdos {
        put_pdos(text, number)?;
    }
    for number in 0..sheet.settings {
        put_setting(text, number, sheet.comments)?;
    }
    for number in 0..sheet.tables {
        put_table(text, number, sheet.subs)?;
    }
    Ok(())
}

/// Writes the command with the lines of an EDS.
pub fn put_eds(script: &mut String, name: &str, text: &str) -> Result<(), AllocError> {
    let lines = text
        .as_bytes()
        .iter()
        .filter(|byte| **byte == b'\n')
        .count();
    writeln!(script, "eds {name} {lines}")?;
    script.push_str(text)
}

/// Writes the command by which a project gets a data sheet.
pub fn put_sheet(
    alloc: Global,
    script: &mut String,
    name: &str,
    sheet: &Sheet,
    random: &mut Random,
) -> Result<(), AllocError> {
    let mut text = String::new(alloc);
    put_lines(&mut text, sheet, random)?;
    put_eds(script, name, text.as_str())
}
