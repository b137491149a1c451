//! Gets that are resumed.

ghost use Rattle.std.specs.Prelude.{◌≡◌, ◌+◌, ◌-◌, ◌≤◌, List, false, length, IfErr, IfOk};
ghost use Rattle.pn_tablet.specs.Prelude.{Bounds};
ghost use Rattle.pn_scan.specs.Paging.{OnlyLooks};
ghost use Rattle.pn_scan.specs.Prelude.{LookMade};
ghost use Rattle.pn_scan.specs.Views.{is_memory};
ghost use Rattle.pn_live.specs.Lookups.{cells_shown, EndsGet, GetsOn, IsNewGet, IsOnGet};
ghost use Rattle.pn_live.specs.Readers.{LiveReaderValue, LooksLive, tablets_of};

use crate::LiveReader;
use pn_record::{Cell, Key};
use pn_scan::{ScanFault, View, with_cell};
use std::alloc::Global;
use std::marker::Model;

/// Keys of which some were read.
#[derive(Drop)]
pub struct GetWalk {
    keys: Vec<Key>,
    // The cells of the keys that were read, or none once memory ran out.
    cells: Option<Vec<Option<Cell>>>,
    read: usize,
}

impl Model for GetWalk {
    ghost use Rattle.std.specs.Prelude.{◌≡◌, ◌≤◌, List, Option, option_map, length, vec_capacity, vec_len, IfSome};
    ghost use Rattle.pn_record.specs.Prelude.{CellValue};
    ghost use Rattle.pn_live.specs.Lookups.{GetWalkValue};

    ghost Value = { GetWalkValue };

    ghost use Rattle.pn_live.specs.Proofs.{get_walk_code};

    ghost coded = { get_walk_code };

    ghost view = { λ walk. record {
      keys = walk.keys.items;
      cells = option_map {U = List (Option CellValue)} (λ cells. cells.items) walk.cells;
      read = walk.read;
    } };

    ghost invariant = { λ walk. (walk.read ≤ length walk.keys.items) × IfSome walk.cells (λ cells. (length walk.keys.items ≤ vec_capacity cells)
        × (vec_len cells ≡ walk.read)) };
}

impl GetWalk {
    /// Keys of which none was read.
    pub fn new(alloc: Global, keys: Vec<Key>) -> GetWalk
        ensures { IsNewGet keys.items result }
    {
        let cells = Vec::with_capacity(alloc, keys.len()).ok();
        GetWalk {
            keys,
            cells,
            read: 0,
        }
    }

    /// How many keys are still to be read.
    pub fn left(&self) -> usize
        ensures left { result ≡ length self.now.keys - self.now.read }
        ensures within { self.now.read ≤ length self.now.keys }
    {
        self.keys.len() - self.read
    }

    /// Reads at most `most` more keys, each by an entry of its own. Where memory runs out, the other keys are still read, since the
    /// fault of a tablet is answered first; the fault here is never `Memory`.
    pub fn go_on(self, reader: &mut LiveReader, most: usize) -> Result<GetWalk, ScanFault>
        ensures goes { (trace : List (LookMade LiveReaderValue)) → IsOnGet reader.old.layout self trace
            → GetsOn reader.old.layout reader.old reader.new self.keys result trace }
        ensures few { IfOk result (λ walk. walk.read ≤ self.read + most) }
        ensures left { IfOk result (λ walk. length walk.keys - walk.read ≡ length self.keys - self.read - most) }
        ensures all { IfOk result (λ walk. length self.keys ≤ self.read + most → walk.read ≡ length self.keys) }
        ensures fault { IfErr result (λ fault. is_memory fault ≡ false) }
        ensures looked { OnlyLooks LooksLive reader.old reader.new }
        ensures same { tablets_of reader.new ≡ tablets_of reader.old }
    {
        let GetWalk {
            keys,
            mut cells,
            read,
        } = self;
        let end = read + (keys.len() - read).min(most);
        for index in read..end {
            cells = with_cell(cells, reader.cell(&keys[index]))?;
        }
        Ok(GetWalk {
            keys,
            cells,
            read: end,
        })
    }

    /// The keys and their cells, once all were read; `Memory` where memory ran out.
    pub fn end(self) -> Result<(Vec<Key>, Vec<Option<Cell>>), ScanFault>
        requires { self.read ≡ length self.keys }
        ensures ends { (bounds : Bounds) (trace : List (LookMade LiveReaderValue)) → IsOnGet bounds self trace
            → EndsGet bounds self.keys (cells_shown result) trace }
        ensures keys { IfOk result (λ got. got.0.items ≡ self.keys) }
    {
        let GetWalk { keys, cells, .. } = self;
        match cells {
            Some(cells) => Ok((keys, cells)),
            None => Err(ScanFault::Memory),
        }
    }
}
