//! Reads of single records.

ghost use Rattle.std.specs.Prelude.{◌≡◌, ◌+◌, ◌<◌, ◌++◌, ◌∷◌, [], List, Option, Ok, Err, Result, true, false, length, IfOk, IfErr, IfSome, IsSomeAnd, IsOkAnd};
ghost use Rattle.std.specs.Prelude.{IsErrOf, vec_capacity, vec_len};
ghost use Rattle.std.specs.Option.{option_copied};
ghost use Rattle.pn_tablet.specs.Prelude.{version_at, tablet_of, TabletStateValue};
ghost use Rattle.pn_scan.specs.Pages.{Look};
ghost use Rattle.pn_scan.specs.Views.{IsGet, IsRead, reaches as version_reaches, is_memory};
ghost use Rattle.pn_scan.specs.declared.view.ScanFault.TheVariants.{Behind};

use crate::{ScanFault, View};
use pn_record::{Cell, Key, Version};
use std::alloc::Global;

/// The cells of keys, in the order of the keys, each read in its own tablet; none where there is no record.
///
/// `Recovering` names the tablet of the first key whose tablet recovers. `Memory` comes only where every key was read, and none of their
/// tablets recovers. After an error the view stays usable.
pub fn get<V: View>(
    alloc: Global,
    view: &mut V,
    keys: &[Key],
) -> Result<Vec<Option<Cell>>, ScanFault>
    ensures get { (seen : List Look) × IsGet V.looks (V.bounds view.old) keys.now view.old view.new (λ cells. cells.items) result seen
        × (IsErrOf result ScanFault.Memory → length seen ≡ length keys.now) }
    ensures layout { V.bounds view.new ≡ V.bounds view.old }
{
    let mut cells = Vec::with_capacity(alloc, keys.len()).ok();
    for key in keys {
        cells = with_cell(cells, view.cell(key))?;
    }
    cells.ok_or(ScanFault::Memory)
}

/// The cells with one more, or none once memory ran out: the other keys are still read, since the fault of a tablet is answered first.
pub fn with_cell(
    cells: Option<Vec<Option<Cell>>>,
    read: Result<Option<Cell>, ScanFault>,
) -> Result<Option<Vec<Option<Cell>>>, ScanFault>
    requires capacity { IfSome cells (λ cells. vec_len cells < vec_capacity cells) }
    ensures cells { IfOk result (λ now. IfSome now (λ now. IsSomeAnd cells (λ was. IsOkAnd read (λ cell. now.items ≡ was.items ++ cell ∷ [])))) }
    ensures kept { IfOk result (λ now. IfSome now (λ now. IsSomeAnd cells (λ was. (vec_len now ≡ vec_len was + 1) × (vec_capacity now ≡ vec_capacity was)))) }
    ensures memory { IfOk result (λ _. IfErr read (λ fault. is_memory fault ≡ true)) }
    ensures fault { IfErr result (λ fault. (read ≡ Err fault) × (is_memory fault ≡ false)) }
{
    let cell = match read {
        Ok(cell) => cell,
        Err(ScanFault::Memory) => return Ok(None),
        Err(fault) => return Err(fault),
    };
    let Some(mut cells) = cells else {
        return Ok(None);
    };
    cells.push_reserved(cell);
    Ok(Some(cells))
}

/// The cell of a key, or none where there is no record. A required version is reached.
///
/// `Recovering` comes first; `Behind` exactly where a version is required and the record is absent or older. After an
/// error the view stays usable.
pub fn read_at_least<V: View>(
    view: &mut V,
    key: &Key,
    version: Option<Version>,
) -> Result<Option<Cell>, ScanFault>
    ensures read { (found : Option TabletStateValue) × IsRead V.looks (V.bounds view.old) key.now version view.old view.new result
        (tablet_of (V.bounds view.old) key.now, found) }
    ensures layout { V.bounds view.new ≡ V.bounds view.old }
{
    let cell = view.cell(key)?;
    if !reaches(version, version_in(cell.as_ref())) {
        return Err(ScanFault::Behind {
            has: version_in(cell.as_ref()),
        });
    }
    Ok(cell)
}

fn version_in(cell: Option<&Cell>) -> Option<Version>
    ensures { result ≡ version_at (option_copied cell.entry) }
{
    match cell {
        Some(cell) => Some(cell.version()),
        None => None,
    }
}

fn reaches(wanted: Option<Version>, has: Option<Version>) -> bool
    ensures { result ≡ version_reaches wanted has }
{
    match (wanted, has) {
        (None, _) => true,
        (Some(_), None) => false,
        (Some(wanted), Some(has)) => has >= wanted,
    }
}
