//! Checks the shapes of a line's members, and borrows them from the parsed value.

ghost use Rattle.std.specs.Prelude.{◌≡◌, [], vec_capacity, IfOk, IsErrOf};
ghost use Rattle.serde_json.specs.View.{view, items_view};
ghost use Rattle.pn_json.specs.Prelude.{IsUnless, Shows, ShowsUnless, seen, texts, each_in};
ghost use Rattle.pn_protocol.specs.Command.Checks.{image_shape, batch_shape, key_shape, required_in, version_shape};

use crate::command::members::batch_parts;
use crate::{MemberName, Refusal};
use pn_join::NoMemory;
use pn_json::{items_of, text_of, whole_number_of};
use pn_record::{UncheckedImage, numbers_of, unchecked_image};
use serde_json::Value;
use std::alloc::Global;
use std::marker::Model;

/// The members of a batch of the right shape. Their ranges are not checked yet.
#[derive(Drop)]
pub(crate) struct BatchShape<'v> {
    pub(crate) first: u64,
    pub(crate) images: Vec<UncheckedImage<'v>>,
    pub(crate) stream: &'v str,
}

impl<'v> Model for BatchShape<'v> {
    ghost use Rattle.pn_stream.specs.Prelude.{DeliveryValue};

    ghost Value = { DeliveryValue };

    ghost view = { λ b. record { stream = b.stream.now; first = b.first; images = b.images.items } };
}

fn image_of(value: &Value) -> Result<UncheckedImage<'_>, Refusal>
    ensures { result ≡ image_shape (view value.now) }
{
    match unchecked_image(value) {
        Ok(shape) => Ok(shape),
        Err(member) => Err(Refusal::BadShape(MemberName::Image(member))),
    }
}

fn images_of(alloc: Global, items: &[Value]) -> Result<Vec<UncheckedImage<'_>>, Refusal>
    ensures { ShowsUnless Refusal.Memory (λ images. images.items) result (each_in image_shape (items_view items.now)) }
{
    let mut images = with_capacity(alloc, items.len())?;
    for item in items {
        images.push_reserved(image_of(item)?);
    }
    Ok(images)
}

#[tactic(auto, unfolding(crate::specs::Command::Checks::batch_shape))]
fn batch_of(alloc: Global, value: &Value) -> Result<BatchShape<'_>, Refusal>
    ensures { IsUnless Refusal.Memory result (batch_shape (view value.now)) }
{
    let members = value
        .as_object()
        .ok_or(Refusal::BadShape(MemberName::Batches))?;
    let parts = batch_parts(members);
    let first = whole_number_of(parts.first, Refusal::BadShape(MemberName::First))?;
    let items = items_of(parts.images, Refusal::BadShape(MemberName::Images))?;
    let images = images_of(alloc, items)?;
    let stream = text_of(parts.stream, Refusal::BadShape(MemberName::Stream))?;
    parts.named?;
    Ok(BatchShape {
        first,
        images,
        stream,
    })
}

/// The shapes of all batches, or the first fault.
pub(crate) fn batches_of(alloc: Global, items: &[Value]) -> Result<Vec<BatchShape<'_>>, Refusal>
    ensures { ShowsUnless Refusal.Memory (λ batches. batches.items) result (each_in batch_shape (items_view items.now)) }
{
    let mut batches = with_capacity(alloc, items.len())?;
    for item in items {
        batches.push_reserved(batch_of(alloc, item)?);
    }
    Ok(batches)
}

fn key_text(value: &Value, member_name: MemberName) -> Result<&str, Refusal>
    ensures { Shows (λ text. text.now) result (key_shape member_name (view value.now)) }
{
    value.as_str().ok_or(Refusal::BadShape(member_name))
}

/// The texts of an array of keys. The member names the fault.
pub(crate) fn key_texts<'v>(
    alloc: Global,
    items: &'v [Value],
    member_name: MemberName,
) -> Result<Vec<&'v str>, Refusal>
    ensures { ShowsUnless Refusal.Memory (λ keys. texts keys.items) result (each_in (key_shape member_name) (items_view items.now)) }
{
    let mut keys = with_capacity(alloc, items.len())?;
    for item in items {
        keys.push_reserved(key_text(item, member_name)?);
    }
    Ok(keys)
}

/// The version that `version` requires, in numbers. None if it is missing or null.
pub(crate) fn version_numbers(value: Option<&Value>) -> Result<Option<(u64, u64)>, Refusal>
    ensures exact { result ≡ version_shape (seen value.entry) }
    ensures memory { IsErrOf result Refusal.Memory → ⊥ }
{
    match value {
        None => Ok(None),
        Some(value) => numbers_required(value).ok_or(Refusal::BadShape(MemberName::Version)),
    }
}

fn numbers_required(value: &Value) -> Option<Option<(u64, u64)>>
    ensures { result ≡ required_in (view value.now) }
{
    match value {
        Value::Null => Some(None),
        _ => Some(Some(numbers_of(value)?)),
    }
}

fn with_capacity<T: Drop>(alloc: Global, count: usize) -> Result<Vec<T>, NoMemory>
    ensures none { IfOk result (λ items. items.items ≡ []) }
    ensures capacity { IfOk result (λ items. vec_capacity items ≡ count) }
{
    Ok(Vec::with_capacity(alloc, count)?)
}
