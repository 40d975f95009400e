//! Texts with many updates, and the lines of their reports.
use std::alloc::{AllocError, Global};

/// Adds updates of component 0 to a text, each ended at once: those from number `from` to before number `to`.
pub fn add_updates(alloc: Global, text: &mut String, from: u32, to: u32) -> Result<(), AllocError> {
    for i in from..to {
        let records = format!(in alloc; "begin,0,update,0:{}:0\nend,0,update,\n", i + 1)?;
        text.push_str(&records)?;
    }
    Ok(())
}

/// The lines of the order of this many updates.
pub fn updates_order(alloc: Global, updates: u32) -> Result<String, AllocError> {
    let mut lines = String::new(alloc);
    for i in 0..updates {
        let line = format!(in alloc; "{} p0 update 0:{}:0\n", i + 1, i + 1)?;
        lines.push_str(&line)?;
    }
    Ok(lines)
}
