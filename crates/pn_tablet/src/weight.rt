//! What records weigh: about the bytes of memory that they take.

ghost use Rattle.std.specs.Prelude.{◌≡◌, ◌-◌, ◌^◌, map, min};
ghost use Rattle.std.specs.List.{sum_by};
ghost use Rattle.pn_record.specs.Prelude.{shown_field};
ghost use Rattle.pn_tablet.specs.Tablets.{content_weight as content_weighs, contents_weight as contents_weigh, field_weight as field_weighs};
ghost use Rattle.pn_tablet.specs.Tablets.{record_weight as weighs};

use pn_record::{Body, Cell, Content, Key, Value};

/// What a record weighs beside its key and its contents.
const RECORD_WEIGHT: u64 = 128;

/// What a content weighs beside its fields.
const CONTENT_WEIGHT: u64 = 128;

/// What a field weighs beside the bytes that its name and its value count.
const FIELD_WEIGHT: u64 = 96;

/// How many contents of a record are weighed. Where it has more, each counts the most that one may weigh.
const MAX_WEIGHED: usize = 16;

/// The most that a content weighs: with 64 fields, which count 8,192 bytes together.
const MAX_CONTENT_WEIGHT: u64 = 14_464;

/// What a record weighs, as far as that has 64 bits.
pub fn record_weight(key: &Key, cell: &Cell) -> u64
    ensures { result ≡ min (weighs (key.now, cell.now)) (2 ^ 64 - 1) }
{
    let own = RECORD_WEIGHT.saturating_add(key.as_str().len() as u64);
    own.saturating_add(contents_weight(cell.contents()))
}

fn contents_weight(contents: &[Content]) -> u64
    ensures { result ≡ min (contents_weigh contents.now) (2 ^ 64 - 1) }
{
    if contents.len() <= MAX_WEIGHED {
        return weigh_each(contents);
    }
    (contents.len() as u64).saturating_mul(MAX_CONTENT_WEIGHT)
}

fn weigh_each(contents: &[Content]) -> u64
    ensures { result ≡ min (sum_by content_weighs contents.now) (2 ^ 64 - 1) }
{
    let mut weight: u64 = 0;
    for content in contents {
        weight = weight.saturating_add(content_weight(content));
    }
    weight
}

fn content_weight(content: &Content) -> u64
    ensures { result ≡ min (content_weighs content.now) (2 ^ 64 - 1) }
{
    match &content.body {
        Body::Fields(fields) => CONTENT_WEIGHT.saturating_add(fields_weight(fields)),
        Body::Deleted => CONTENT_WEIGHT,
    }
}

fn fields_weight(fields: &[(String, Value)]) -> u64
    ensures { result ≡ min (sum_by field_weighs (map shown_field fields.now)) (2 ^ 64 - 1) }
{
    let mut weight: u64 = 0;
    for field in fields {
        weight = weight.saturating_add(field_weight(field));
    }
    weight
}

fn field_weight(field: &(String, Value)) -> u64
    ensures { result ≡ min (field_weighs (shown_field field.now)) (2 ^ 64 - 1) }
{
    let name = field.0.len() as u64;
    let value = field.1.as_ref().size() as u64;
    FIELD_WEIGHT.saturating_add(name.saturating_add(value))
}
