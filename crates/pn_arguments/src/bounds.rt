//! Bounds and permissions that texts say.

ghost use Rattle.std.specs.Option.{ok_or};
ghost use Rattle.std.specs.Prelude.{◌≡◌, nat_le, if◌then◌else◌, Ok, Err};
ghost use Rattle.serde_json.specs.View.{view, items_view};
ghost use Rattle.pn_json.specs.Prelude.{IsUnless, ShowsUnless, each_in};
ghost use Rattle.pn_record.specs.Prelude.{reading};
ghost use Rattle.pn_arguments.specs.OptionTexts.{bounds_in, key_in, permissions_in};
ghost use Rattle.pn_arguments.specs.declared.faults.Why.TheVariants.{NoJson};

use crate::faults::{OptionFault, Why};
use pn_json::items_of;
use pn_record::{Key, KeyFault};
use pn_tablet::Layout;
use serde_json::Value;
use std::alloc::Global;

/// The layout whose bounds are a JSON array of keys.
#[tactic(auto, unfolding(crate::specs::OptionTexts::bounds_in))]
pub(crate) fn layout_of(alloc: Global, text: &str) -> Result<Layout, OptionFault>
    ensures { IsUnless OptionFault.Memory result (bounds_in text.now) }
{
    let value = value_of(alloc, text)?;
    let keys = keys_of(
        alloc,
        items_of(Some(&value), OptionFault::Bounds(Why::NoArray))?,
    )?;
    match Layout::new(keys) {
        Ok(layout) => Ok(layout),
        Err(fault) => Err(OptionFault::Bounds(Why::NoLayout(fault))),
    }
}

#[tactic(auto, unfolding(pn_record::specs::Reading::reading))]
fn value_of(alloc: Global, text: &str) -> Result<Value, OptionFault>
    ensures { ShowsUnless OptionFault.Memory view result (ok_or (reading text.now) (OptionFault.Bounds NoJson)) }
{
    match Value::from_slice(alloc, text.as_bytes()) {
        Ok(value) => Ok(value),
        Err(error) => {
            if error.is_memory() {
                Err(OptionFault::Memory)
            } else {
                Err(OptionFault::Bounds(Why::NoJson))
            }
        }
    }
}

fn keys_of(alloc: Global, items: &[Value]) -> Result<Vec<Key>, OptionFault>
    ensures { ShowsUnless OptionFault.Memory (λ keys. keys.items) result (each_in key_in (items_view items.now)) }
{
    let mut keys = Vec::with_capacity(alloc, items.len())?;
    for item in items {
        keys.push_reserved(key_of(alloc, item)?);
    }
    Ok(keys)
}

fn key_of(alloc: Global, item: &Value) -> Result<Key, OptionFault>
    ensures { IsUnless OptionFault.Memory result (key_in (view item.now)) }
{
    let text = item.as_str().ok_or(OptionFault::Bounds(Why::NoKey))?;
    match Key::of(alloc, text) {
        Ok(key) => Ok(key),
        Err(KeyFault::OutOfRange) => Err(OptionFault::Bounds(Why::NoKey)),
        Err(KeyFault::Memory) => Err(OptionFault::Memory),
    }
}

/// The greatest permissions of a socket.
const MAX_PERMISSIONS: u32 = 0o777;

/// The base in which permissions are written.
const OCTAL: u32 = 8;

/// The permissions that a text writes.
pub(crate) fn permissions_of(text: &str) -> Result<u32, OptionFault>
    ensures { result ≡ permissions_in text.now }
{
    match u32::from_str_radix(text, OCTAL) {
        Ok(permissions) => within_most(permissions),
        Err(_) => Err(OptionFault::SocketMode),
    }
}

// Permissions that are not too great.
fn within_most(permissions: u32) -> Result<u32, OptionFault>
    ensures { result ≡ (if nat_le permissions MAX_PERMISSIONS then Ok permissions else Err OptionFault.SocketMode) }
{
    if permissions <= MAX_PERMISSIONS {
        Ok(permissions)
    } else {
        Err(OptionFault::SocketMode)
    }
}
