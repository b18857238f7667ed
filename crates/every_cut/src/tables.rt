// The runs of the table, its rows, and what they come to.
ghost use Rattle.std.specs.Prelude.{◌≡◌, IfOk};
ghost use Rattle.every_cut.specs.Rows.{RunOf, RowOf, RowsOf, PartOf, TableOf};

use crate::asking::Asked;
use crate::blank::blank_store;
use crate::rows::{Row, Totals, read_row};
use crate::ways::{Case, Way, cases};
use flash::interface::Flash;
use runs::rooms::Room;
use runs::running::format_and_make_calls;
use simulator::Simulator;
use std::alloc::Global;
use store::entries::Entry;

// The rows of a way.
#[derive(Drop)]
pub struct Part {
    pub rows: Vec<Row>,
    pub totals: Totals,
}

#[derive(Drop)]
pub struct Table {
    pub in_place: Part,
    pub other_bank: Part,
    pub both: Totals,
}

// The log of one run. A store that answers otherwise than expected, up to the commit that may be
// cut, has no row in this table.
fn make_log(heap: Global, way: Way, case: Case) -> anyhow::Result<Vec<Option<Entry>>>
    ensures { IfOk result (λ log. RunOf ⟦<Simulator as Flash>⟧ way case log.items) }
{
    let mut store = blank_store(heap, case)?;
    let asked = Asked::new(heap, way)?;
    let room = Room::new(heap, asked.requests.len())?;
    let Ok(log) = format_and_make_calls(&mut store, &asked.requests, room) else {
        anyhow::bail!("not formatted");
    };
    if !log.starts_with(&asked.expected) {
        anyhow::bail!("another start than expected");
    }
    Ok(log)
}

pub fn make_row(heap: Global, way: Way, case: Case) -> anyhow::Result<Row>
    ensures case { IfOk result (λ row. row.case ≡ case) }
    ensures row { IfOk result (RowOf ⟦<Simulator as Flash>⟧ way) }
{
    let log = make_log(heap, way, case)?;
    Ok(read_row(case, &log))
}

pub fn make_rows(heap: Global, way: Way) -> anyhow::Result<Vec<Row>>
    ensures { IfOk result (λ rows. RowsOf ⟦<Simulator as Flash>⟧ way rows.items) }
{
    let mut rows = Vec::new(heap);
    for case in &cases(heap, way)? {
        rows.push(make_row(heap, way, *case)?)?;
    }
    Ok(rows)
}

fn make_part(heap: Global, way: Way) -> anyhow::Result<Part>
    ensures { IfOk result (PartOf ⟦<Simulator as Flash>⟧ way) }
{
    let rows = make_rows(heap, way)?;
    let totals = Totals::of(&rows);
    Ok(Part { rows, totals })
}

pub fn make_table(heap: Global) -> anyhow::Result<Table>
    ensures { IfOk result (TableOf ⟦<Simulator as Flash>⟧) }
{
    let in_place = make_part(heap, Way::InPlace)?;
    let other_bank = make_part(heap, Way::OtherBank)?;
    let mut all = Vec::new(heap);
    all.extend_from_slice(&in_place.rows)?;
    all.extend_from_slice(&other_bank.rows)?;
    let both = Totals::of(&all);
    Ok(Table {
        in_place,
        other_bank,
        both,
    })
}
