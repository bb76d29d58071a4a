//! DCFs by the template of a data sheet, beside those of the sheet itself.
ghost use Rattle.std.specs.Prelude.{◌≡◌, IfOk};

use crate::sheet::NODE;
use base::Octets;
use eds_dcf::{Template, dcf_text};
use eds_device::DataSheet;
use node_parameters::{Params, writes};
use std::alloc::{AllocError, Global};
use std::rc::Rc;
use std::test::Fail;

/// Entries with and without a value, some at indices that share a flag; compact objects with a section
/// of values and without, of a type that has values and of one that has none; the node's own section in
/// two spellings, and sections of other names.
const SHEET: &[u8] = b"[FileInfo]\nFileName=made.eds\n\
    [1000]\nDataType=7\nDefaultValue=0\n\
    [2000]\nDataType=5\nParameterValue=3\n\
    [2001]\nDataType=6\n\
    [DeviceCommissioning]\nNodeID=9\nLSS=1\n\
    [2002]\nObjectType=9\nSubNumber=2\n\
    [2002sub0]\nDataType=5\nDefaultValue=1\n\
    [2002sub1]\nDataType=5\nparametervalue=4\nLowLimit=0\n\
    [2100]\nObjectType=8\nDataType=5\nCompactSubObj=3\n\
    [2100Value]\nNrOfEntries=2\n1=7\n3=8\n\
    [2101]\nObjectType=8\nDataType=5\nCompactSubObj=2\n\
    [2102]\nObjectType=8\nDataType=0x20\nCompactSubObj=2\n\
    [2102Value]\nNrOfEntries=1\n2=9\n\
    [2103]\nObjectType=8\nDataType=0x20\nCompactSubObj=2\n\
    [BeefOfNoObject]\nDataType=5\n\
    [3000]\nDataType=5\n\
    [3001]\nDataType=5\nParameterValue=6\n\
    [DeviceComissioning]\nBaudrate=20\n\
    [3101]\nObjectType=8\nDataType=5\nCompactSubObj=1\n\
    [4002sub1]\nDataType=5\n";

/// A sheet and its template.
fn sheet(alloc: Global, text: &[u8]) -> Result<(Rc<DataSheet>, Template), Fail>
    ensures { IfOk result (λ pair. pair.1 ≡ pair.0.value) }
{
    let device = Rc::new(alloc, DataSheet::read(alloc, false, text)?)?;
    let template = Template::of(alloc, device.clone()?)?;
    Ok((device, template))
}

/// The parameter 1 for each of some entries.
fn ones(alloc: Global, places: &[(u16, u8)]) -> Result<Params, AllocError> {
    let mut params = Params::new(alloc);
    for (index, sub) in places {
        params.put(*index, *sub, Octets::from_slice(alloc, b"1")?)?;
    }
    Ok(params)
}

/// Whether both give one DCF where these entries have the parameter 1, and the others their own.
fn are_alike(alloc: Global, text: &[u8], places: &[(u16, u8)]) -> Result<bool, Fail> {
    let (device, template) = sheet(alloc, text)?;
    let entries = writes(alloc, &ones(alloc, places)?, &device, NODE)?;
    let by_sheet = dcf_text(alloc, &device, NODE, b"pump", 1000, &entries)?;
    let by_template = template.dcf_text(alloc, NODE, b"pump", 1000, &entries)?;
    Ok(by_sheet == by_template)
}

/// Whether both give one DCF where nothing is written.
fn are_alike_unwritten(alloc: Global, text: &[u8]) -> Result<bool, Fail> {
    let (device, template) = sheet(alloc, text)?;
    let by_sheet = dcf_text(alloc, &device, NODE, b"pump", 1000, &[])?;
    let by_template = template.dcf_text(alloc, NODE, b"pump", 1000, &[])?;
    Ok(by_sheet == by_template)
}

#[test]
fn with_no_write(rt: HostRuntime) -> Result<(), Fail> {
    assert!(rt; are_alike_unwritten(rt.alloc(), SHEET)?);
    assert!(rt; are_alike_unwritten(rt.alloc(), b"")?);
    Ok(())
}

#[test]
fn with_own_values(rt: HostRuntime) -> Result<(), Fail> {
    assert!(rt; are_alike(rt.alloc(), SHEET, &[])?);
    Ok(())
}

#[test]
fn with_entries_written(rt: HostRuntime) -> Result<(), Fail> {
    let places = [(0x2000, 0), (0x2001, 0), (0x2002, 1), (0x4002, 1)];
    assert!(rt; are_alike(rt.alloc(), SHEET, &places)?);
    Ok(())
}

#[test]
fn with_compact_objects_written(rt: HostRuntime) -> Result<(), Fail> {
    let places = [(0x2100, 2), (0x2101, 0), (0x2101, 2), (0x3101, 1)];
    assert!(rt; are_alike(rt.alloc(), SHEET, &places)?);
    let counts = [(0x2102, 0), (0x2103, 0)];
    assert!(rt; are_alike(rt.alloc(), SHEET, &counts)?);
    Ok(())
}

#[test]
fn with_objects_that_share_a_flag(rt: HostRuntime) -> Result<(), Fail> {
    assert!(rt; are_alike(rt.alloc(), SHEET, &[(0x3000, 0)])?);
    assert!(rt; are_alike(rt.alloc(), SHEET, &[(0x2001, 0)])?);
    assert!(rt; are_alike(rt.alloc(), SHEET, &[(0x2101, 1)])?);
    Ok(())
}
