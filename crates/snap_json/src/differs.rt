//! Where the views of a read fault differ.
ghost use Rattle.std.specs.Prelude.{◌≡◌, ◌++◌, ◌∷◌, OnOk, codes, length};
ghost use Rattle.std.specs.List.{flat_map};
ghost use Rattle.json.specs.Json.{array};
ghost use Rattle.json.specs.Token as token;
ghost use Rattle.json.specs.Tree.{json_tokens};
ghost use Rattle.snap_core.specs.Calls.{calls_of};
ghost use Rattle.snap_witness.specs.Places.{AreReadAt};
ghost use Rattle.snap_json.specs.Differs.{difference_items, difference_json, differs_json};

use crate::call::put_update;
use crate::line::Line;
use snap_conditions::ReadFault;
use snap_core::Ownership;
use snap_index::Index;
use snap_witness::{read_updates, view_numbered};
use std::alloc::AllocError;

// Adds the object of the component of an update, with the numbers that both views show of it, and with the update.
fn put_difference<O: Ownership>(
    line: &mut Line,
    index: &Index<'_, O>,
    records: &[u32],
    fault: &ReadFault,
    update: (u8, u32),
) -> Result<(), AllocError>
    requires each { length records.now ≡ length index.now }
    requires named { AreReadAt (calls_of index.now) fault.now }
    ensures { OnOk result (line.new.writer.tokens ≡ line.old.writer.tokens ++ json_tokens (difference_json records.now (calls_of index.now) fault.now update)) }
{
    let (component, number) = update;
    let shown = view_numbered(index, fault.view).number(component);
    let other = view_numbered(index, fault.other).number(component);
    line.begin_object()?;
    line.number("component", u64::from(component))?;
    line.number("view_number", u64::from(shown))?;
    line.number("other_number", u64::from(other))?;
    line.key("update")?;
    put_update(line, index, records, component, number)?;
    line.end_object()
}

// Adds an object for each update.
fn put_each<O: Ownership>(
    line: &mut Line,
    index: &Index<'_, O>,
    records: &[u32],
    fault: &ReadFault,
    updates: &[(u8, u32)],
) -> Result<(), AllocError>
    requires each { length records.now ≡ length index.now }
    requires named { AreReadAt (calls_of index.now) fault.now }
    ensures { OnOk result (line.new.writer.tokens ≡ line.old.writer.tokens
        ++ flat_map (λ update. json_tokens (difference_json records.now (calls_of index.now) fault.now update)) updates.now) }
{
    for update in updates {
        put_difference(line, index, records, fault, *update)?;
    }
    Ok(())
}

// Adds the array of an object for each update.
fn put_array<O: Ownership>(
    line: &mut Line,
    index: &Index<'_, O>,
    records: &[u32],
    fault: &ReadFault,
    updates: &[(u8, u32)],
) -> Result<(), AllocError>
    requires each { length records.now ≡ length index.now }
    requires named { AreReadAt (calls_of index.now) fault.now }
    ensures { OnOk result (line.new.writer.tokens ≡ line.old.writer.tokens
        ++ json_tokens (array (difference_items records.now (calls_of index.now) fault.now updates.now))) }
{
    line.begin_array()?;
    put_each(line, index, records, fault, updates)?;
    line.end_array()
}

/// Adds where the views of a read fault differ.
pub(crate) fn put_differs<O: Ownership>(
    line: &mut Line,
    index: &Index<'_, O>,
    records: &[u32],
    fault: &ReadFault,
) -> Result<(), AllocError>
    requires each { length records.now ≡ length index.now }
    requires named { AreReadAt (calls_of index.now) fault.now }
    ensures { OnOk result (line.new.writer.tokens ≡ line.old.writer.tokens ++ json_tokens (differs_json records.now (calls_of index.now) fault.now)) }
{
    let updates = read_updates(line.allocator(), index, fault.view, fault.other)?;
    put_array(line, index, records, fault, &updates)
}
