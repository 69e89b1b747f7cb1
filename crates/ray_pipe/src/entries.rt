ghost use Rattle.std.specs.Prelude.{slice_index_or, false};
ghost use Rattle.serde_json.specs.View.{view, items_view};
ghost use Rattle.ray_pipe.specs.Reading.{Answers, entry_of, listed_tables, or_bad, tables_from};

use crate::fault::TableFault;
use crate::groups::Groups;
use crate::shape::read_table;
use crate::traces::is_scripted;
use ray_json::{Listed, ReadFault};
use serde_json::Value;
use std::alloc::Global;

// The greatest number of entries, 2^26: no text that the program takes has so many.
const MOST_ENTRIES: usize = 67_108_864;

// The tables that a value spells, for traces of which some have a script of their own.
pub(crate) fn listed_tables(
    alloc: Global,
    scripted: &[bool],
    value: &Value,
) -> Result<Listed<Groups>, TableFault>
    ensures { Answers result (listed_tables scripted.now (view value.now)) }
{
    match value.as_array() {
        Some(values) => entries(alloc, scripted, values.as_slice()),
        None => Err(TableFault::BadTable(0)),
    }
}

// The tables of the items of an array.
#[tactic(auto, unfolding(crate::specs::Reading::tables_from))]
fn entries(alloc: Global, scripted: &[bool], values: &[Value]) -> Result<Listed<Groups>, TableFault>
    ensures { Answers result (tables_from scripted.now 0 (items_view values.now)) }
{
    let mut tables = Listed::new(alloc);
    for (k, value) in values.iter().enumerate() {
        if MOST_ENTRIES <= k {
            return Err(TableFault::NoMemory);
        }
        let table = entry(alloc, k as u32, is_scripted(scripted, k), value)?;
        tables.push(table)?;
    }
    Ok(tables)
}

// Entry number `k`, of a trace that has a script of its own or hasn't.
fn entry(alloc: Global, k: u32, scripted: bool, value: &Value) -> Result<Groups, TableFault>
    ensures { Answers result (or_bad k (entry_of scripted (view value.now))) }
{
    if scripted {
        return Err(TableFault::BadTable(k));
    }
    match read_table(alloc, value) {
        Ok(table) => Ok(table),
        Err(ReadFault::Shape) => Err(TableFault::BadTable(k)),
        Err(ReadFault::NoMemory) => Err(TableFault::NoMemory),
    }
}
