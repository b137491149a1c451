//! Builds deliveries and keys from checked values.

ghost use Rattle.std.specs.Prelude.{◌≡◌, codes, option_map, IfOk, IsOk, IsTrue, Ok};
ghost use Rattle.std.specs.List.{list_all};
ghost use Rattle.serde_json.specs.Find.{get};
ghost use Rattle.serde_json.specs.View.{view, items_view};
ghost use Rattle.pn_json.specs.Prelude.{seen, text_at, texts, each_in};
ghost use Rattle.pn_record.specs.Prelude.{image_in, is_key};
ghost use Rattle.pn_protocol.specs.Command.Lines.{batch_in, number_at, items_at as items_there};

use crate::command::members::batch_parts;
use pn_join::{Name, NoMemory};
use pn_json::{items_from, member_from, text_or_empty};
use pn_record::{Image, Key, image_from};
use pn_stream::Delivery;
use serde_json::Value;
use std::alloc::Global;

/// The deliveries of the batches. Names and texts of fields are moved, not copied.
pub(crate) fn build_deliveries(
    alloc: Global,
    batches: Vec<Value>,
) -> Result<Vec<Delivery>, NoMemory>
    requires { IsOk (each_in batch_in (items_view batches.items)) }
    ensures { IfOk result (λ deliveries. each_in batch_in (items_view batches.items) ≡ Ok deliveries.items) }
{
    let mut deliveries = Vec::with_capacity(alloc, batches.len())?;
    for batch in batches {
        deliveries.push(build_delivery(alloc, batch)?)?;
    }
    Ok(deliveries)
}

fn build_delivery(alloc: Global, batch: Value) -> Result<Delivery, NoMemory>
    requires { IsOk (batch_in (view batch)) }
    ensures { IfOk result (λ delivery. batch_in (view batch) ≡ Ok delivery) }
{
    let (first, stream) = first_and_stream(&batch);
    let stream = Name::of(stream.as_bytes());
    let images = items_at(alloc, member_from(batch, "images"));
    Ok(Delivery::of(stream, first, build_images(alloc, images)?))
}

// The position of the first image, or 0, and the name of the stream, or the empty one.
fn first_and_stream(batch: &Value) -> (u64, &str)
    ensures first { result.0 ≡ number_at (get (codes "first") (view batch.now)) }
    ensures stream { result.1.now ≡ text_at (get (codes "stream") (view batch.now)) }
{
    let Some(members) = batch.as_object() else {
        return (0, "");
    };
    let parts = batch_parts(members);
    (number_or_zero(parts.first), text_or_empty(parts.stream))
}

fn number_or_zero(value: Option<&Value>) -> u64
    ensures { result ≡ number_at (seen value.entry) }
{
    value.and_then(Value::as_u64).unwrap_or(0)
}

/// The items of an array; no items for any other value.
pub(crate) fn items_at(alloc: Global, value: Option<Value>) -> Vec<Value>
    ensures { items_view result.items ≡ items_there (option_map view value) }
{
    let Some(value) = value else {
        return Vec::new(alloc);
    };
    match items_from(value) {
        Some(items) => items,
        None => Vec::new(alloc),
    }
}

fn build_images(alloc: Global, values: Vec<Value>) -> Result<Vec<Image>, NoMemory>
    requires { IsOk (each_in image_in (items_view values.items)) }
    ensures { IfOk result (λ images. each_in image_in (items_view values.items) ≡ Ok images.items) }
{
    let mut images = Vec::with_capacity(alloc, values.len())?;
    for value in values {
        images.push(image_from(alloc, value)?)?;
    }
    Ok(images)
}

/// The keys of the texts, each copied once.
pub(crate) fn build_keys(alloc: Global, from: &[&str]) -> Result<Vec<Key>, NoMemory>
    requires { IsTrue (list_all is_key (texts from.now)) }
    ensures { IfOk result (λ keys. keys.items ≡ texts from.now) }
{
    let mut keys = Vec::with_capacity(alloc, from.len())?;
    for text in from {
        keys.push_reserved(Key::of_fitting(alloc, text)?);
    }
    Ok(keys)
}
