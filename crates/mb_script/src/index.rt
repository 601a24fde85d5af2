//! The index that finds the first row of a kind.

ghost use Rattle.std.specs.Prelude.{◌≡◌, All, IfOk, IfSome, Some, length, map, option_map};
ghost use Rattle.std.specs.BTreeMap.{IsEmpty};
ghost use Rattle.mb_script.specs.Index.{IsIndexFrom};
ghost use Rattle.mb_script.specs.Script.{row_data, row_for};

use crate::operation::Row;
use std::alloc::{AllocError, Global};
use std::collections::BTreeMap;

/// Where the first row of each kind is. There are as many maps as rows, and a kind is in the map of its remainder. So a
/// map mostly has few kinds, and where all are in one it is still an ordered map.
pub(crate) type Index = Vec<BTreeMap<u32, usize>>;

pub(crate) fn index_of(alloc: Global, rows: &[Row]) -> Result<Index, AllocError>
    ensures { IfOk result (λ index. IsIndexFrom 0 rows.now index.items) }
{
    let mut index = empty_maps(alloc, rows.len())?;
    // Backwards, so that the first row of a kind is the one that stays.
    let mut place = rows.len();
    while place > 0 {
        place -= 1;
        let kind = rows[place].kind;
        let map = kind as usize % rows.len();
        index[map].insert(kind, place)?;
    }
    Ok(index)
}

/// This many empty maps.
fn empty_maps(alloc: Global, count: usize) -> Result<Index, AllocError>
    ensures count { IfOk result (λ index. length index.items ≡ count) }
    ensures empty { IfOk result (λ index. All IsEmpty index.items) }
{
    let mut index = Vec::new(alloc);
    for _ in 0..count {
        index.push(BTreeMap::new(alloc))?;
    }
    Ok(index)
}

/// Up to this many rows a linear search is faster than the index.
const FEW: usize = 8;

/// The first row of all, if it is for messages of the kind. Most messages are of the first row's kind.
#[inline(always)]
pub(crate) fn leading_row(rows: &[Row], kind: u32) -> Option<&Row>
    ensures { IfSome result (λ row. Some (row_data row.now) ≡ row_for kind (map row_data rows.now)) }
{
    match rows.first() {
        Some(row) if row.kind == kind => Some(row),
        _ => None,
    }
}

/// The first row for messages of the kind.
pub(crate) fn first_of_kind<'a>(
    rows: &'a [Row],
    index: &[BTreeMap<u32, usize>],
    kind: u32,
) -> Option<&'a Row>
    requires { IsIndexFrom 0 rows.now index.now }
    ensures { option_map (λ row. row_data row.now) result ≡ row_for kind (map row_data rows.now) }
{
    if rows.len() <= FEW {
        first_in_order(rows, kind)
    } else {
        first_by_index(rows, index, kind)
    }
}

/// The same by linear search.
fn first_in_order(rows: &[Row], kind: u32) -> Option<&Row>
    ensures { option_map (λ row. row_data row.now) result ≡ row_for kind (map row_data rows.now) }
{
    for row in rows {
        if row.kind == kind {
            return Some(row);
        }
    }
    None
}

/// The same by the index.
fn first_by_index<'a>(rows: &'a [Row], index: &[BTreeMap<u32, usize>], kind: u32) -> Option<&'a Row>
    requires { IsIndexFrom 0 rows.now index.now }
    ensures { option_map (λ row. row_data row.now) result ≡ row_for kind (map row_data rows.now) }
{
    if index.is_empty() {
        return None;
    }
    match index[kind as usize % index.len()].get(&kind) {
        Some(place) => Some(&rows[*place]),
        None => None,
    }
}
