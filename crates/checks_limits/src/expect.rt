//! What a session has to write.

use std::alloc::Global;
use workbench::{Counted, SessionFault, session};

/// Whether a session over a script writes these replies, and nothing else.
pub fn gives(alloc: Global, script: &[u8], replies: &[u8]) -> Result<bool, SessionFault> {
    let mut reader = Counted::new(script);
    let mut writer = Counted::new(Vec::new(alloc));
    session(alloc, &mut reader, &mut writer)?;
    Ok(writer.inner().as_slice() == replies)
}
