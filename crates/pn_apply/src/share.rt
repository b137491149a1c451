//! What a round takes of a stream, and what that brings: its entries and tables.

ghost use Rattle.std.specs.Prelude.{◌≡◌, length, IsTrue, IfOk, IfSome, [], List, IfErr, OnOk, ℕ, map};
ghost use Rattle.std.specs.FinMap.{find};
ghost use Rattle.std.specs.List.Sorted.{IsSortedByKey};
ghost use Rattle.pn_stream.specs.Brokers.{are_positions};
ghost use Rattle.pn_stream.specs.Prelude.{DeliveryValue};
ghost use Rattle.pn_record.specs.Prelude.{table_of};
ghost use Rattle.pn_apply.specs.Reducing.{AreMade, entry_of as the_entry_of, joined_at};
ghost use Rattle.pn_record.specs.declared.records.Image.{Image};
ghost use Rattle.pn_join.specs.Prelude.{IsTable};
ghost use Rattle.pn_record.specs.Sets.{bytes_cmp, HasContents};

use pn_join::{NoMemory, StreamName, copy_entries, join_last};
use pn_record::{Cell, Image, Key, Records};
use pn_stream::Delivery;
use std::alloc::Global;
use std::marker::Model;
use std::snapshot::Snapshot;

/// Images of a stream at consecutive positions, however they are held.
pub trait Batch {
    /// The delivery of these images.
    ghost delivery: { Self → DeliveryValue };

    /// The name of the stream.
    fn stream(&self) -> &StreamName
        ensures { result.now ≡ (delivery self.now).stream };

    /// The position of the first image, from 1 to 10^15.
    fn first(&self) -> u64
        ensures position { result ≡ (delivery self.now).first }
        ensures in_range { IsTrue (are_positions (delivery self.now).first (length (delivery self.now).images)) };

    /// How many images there are.
    fn count(&self) -> usize
        ensures { result ≡ length (delivery self.now).images };
}

impl Batch for Delivery {
    ghost delivery = { λ delivery. delivery };

    fn stream(&self) -> &StreamName {
        Delivery::stream(self)
    }

    fn first(&self) -> u64 {
        Delivery::first(self)
    }

    fn count(&self) -> usize {
        self.images().len()
    }
}

/// What a delivery brings to a round: once it is finished, a table of the cells of its images. Other tables share their
/// contents.
#[derive(Drop)]
pub struct Share {
    stream: StreamName,
    first: u64,
    count: usize,
    // The images of which no cell is made yet, last first.
    left: Vec<Image>,
    // The cells that are made but in no table, in the order of their images.
    entries: Vec<(Key, Cell)>,
    // The table of the cells of all images.
    cells: Option<Records>,
    delivery: Snapshot<Delivery>,
}

impl Model for Share {
    ghost use Rattle.std.specs.Prelude.{◌≡◌, length, IsTrue, MatchOption};
    ghost use Rattle.pn_record.specs.Prelude.{table_of};
    ghost use Rattle.pn_stream.specs.Brokers.{DeliveryValue, are_positions};
    ghost use Rattle.pn_apply.specs.Reducing.{AreMade};

    ghost Value = { DeliveryValue };

    ghost view = { λ share. record { stream = share.stream; first = share.first; images = share.delivery.value.images } };

    ghost invariant = { λ share. (share.count ≡ length share.delivery.value.images)
        × IsTrue (are_positions share.first (length share.delivery.value.images))
        × MatchOption share.cells (AreMade share.delivery.value.images share.left.items share.entries.items)
        (λ cells. cells ≡ table_of share.delivery.value.images) };
}

impl Batch for Share {
    ghost delivery = { λ share. share };

    fn stream(&self) -> &StreamName {
        &self.stream
    }

    fn first(&self) -> u64 {
        self.first
    }

    fn count(&self) -> usize {
        self.count
    }
}

impl Share {
    /// What a delivery brings. No cell is made yet, and no memory taken.
    pub fn of(alloc: Global, delivery: Delivery) -> Share
        ensures { result ≡ delivery }
    {
        let value = Snapshot::of(&delivery);
        let (stream, first) = (*delivery.stream(), delivery.first());
        let mut left = delivery.into_images();
        let count = left.len();
        left.reverse();
        Share {
            stream,
            first,
            count,
            left,
            entries: Vec::new(alloc),
            cells: None,
            delivery: value,
        }
    }

    /// The table of the cells of all images, once it is finished.
    pub fn cells(&self) -> Option<&Records>
        ensures { IfSome result (λ cells. cells.now ≡ table_of self.now.images) }
    {
        self.cells.as_ref()
    }

    /// Makes the table of cells, unless it is made. After an error a further call goes on where memory ran out.
    #[tactic(auto, using(crate::proofs::Entries::all_made))]
    pub fn finish(&mut self, alloc: Global) -> Result<(), NoMemory>
        ensures { self.new ≡ self.old }
    {
        if self.cells.is_some() {
            return Ok(());
        }
        make_entries(alloc, &mut self.left, &mut self.entries)?;
        let cells = table_of_entries(alloc, &self.entries)?;
        self.cells = Some(cells);
        self.entries = Vec::new(alloc);
        Ok(())
    }
}

/// What each of the deliveries brings.
pub fn shares_of(alloc: Global, deliveries: Vec<Delivery>) -> Result<Vec<Share>, NoMemory>
    ensures { IfOk result (λ shares. shares.items ≡ deliveries.items) }
{
    let mut shares = Vec::with_capacity(alloc, deliveries.len())?;
    for delivery in deliveries {
        let mut share = Share::of(alloc, delivery);
        share.finish(alloc)?;
        shares.push_reserved(share);
    }
    Ok(shares)
}

/// Moves the images, of which the next is the last, into cells. After an error a further call goes on.
#[tactic(auto, using(crate::proofs::Entries::made_more))]
pub fn make_entries(
    alloc: Global,
    left: &mut Vec<Image>,
    entries: &mut Vec<(Key, Cell)>,
) -> Result<(), NoMemory>
    ensures same { (images : List Image) → AreMade images left.old.items entries.old.items → AreMade images left.new.items entries.new.items }
    ensures all { OnOk result (left.new.items ≡ []) }
{
    entries.reserve(left.len())?;
    while let Some(image) = left.pop() {
        match entry_of(alloc, image) {
            Ok(entry) => entries.push_reserved(entry),
            Err(image) => {
                left.push_reserved(image);
                return Err(NoMemory);
            }
        }
    }
    Ok(())
}

// The key and the cell of an image. Where memory runs out, the image is given back.
fn entry_of(alloc: Global, image: Image) -> Result<(Key, Cell), Image>
    ensures ok { IfOk result (λ entry. entry ≡ the_entry_of image) }
    ensures err { IfErr result (λ back. back ≡ image) }
{
    let Image {
        key,
        version,
        content,
    } = image;
    match Cell::holding(alloc, version, content) {
        Ok(cell) => Ok((key, cell)),
        Err(content) => Err(Image {
            key,
            version,
            content,
        }),
    }
}

/// The table of cells of images.
pub fn table_of_entries(alloc: Global, entries: &[(Key, Cell)]) -> Result<Records, NoMemory>
    ensures { IfOk result (λ cells. (images : List Image) → entries.now ≡ map the_entry_of images → cells ≡ table_of images) }
{
    let mut sorted = copy_entries(alloc, 0, entries)?;
    sorted.sort_unstable_by(|one, other| one.0.cmp(&other.0));
    let joined = join_neighbours(alloc, sorted)?;
    Records::of_sorted(alloc, joined)
}

// The entries, where those of one key, which stand side by side, have become one.
fn join_neighbours(alloc: Global, sorted: Vec<(Key, Cell)>) -> Result<Vec<(Key, Cell)>, NoMemory>
    requires { IsSortedByKey (λ entry. entry.0) bytes_cmp sorted.items }
    ensures cells { IfOk result (λ joined. (key : List ℕ) → find bytes_cmp key joined.items ≡ joined_at sorted.items key) }
    ensures table { IfOk result (λ joined. IsTable bytes_cmp HasContents joined.items) }
{
    let mut joined = Vec::with_capacity(alloc, sorted.len())?;
    for (key, cell) in sorted {
        let _ = cell.version();
        join_last(&mut joined, key, cell)?;
    }
    Ok(joined)
}
