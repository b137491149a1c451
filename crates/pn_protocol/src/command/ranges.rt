//! Checks the ranges of a line's members.

ghost use Rattle.std.specs.Prelude.{◌≡◌, IsErrOf};
ghost use Rattle.pn_json.specs.Prelude.{texts};
ghost use Rattle.pn_record.specs.Prelude.{is_key};
ghost use Rattle.pn_protocol.specs.Command.Controls.{are_seconds, may_adopt};
ghost use Rattle.pn_protocol.specs.Command.Meaning.{may_announce, may_be_asked};
ghost use Rattle.pn_protocol.specs.Command.Checks.{fits, each_fits, image_fits, batch_fits, batches_fit, bounds_fit, fitting_version, key_fits, keys_fit};
ghost use Rattle.pn_protocol.specs.declared.refusal.MemberName.TheVariants as member_name;

use crate::command::shapes::BatchShape;
use crate::{MemberName, Refusal};
use pn_join::Name;
use pn_record::{Key, UncheckedImage, Version};
use pn_region::LAST_NUMBER;
use pn_stream::positions_fit;
use pn_tablet::MAX_BOUNDS;

/// The most lines that a command announces.
const MAX_ANNOUNCED: u64 = 1_000_000;

/// The most lines that a command of a control session announces.
const MAX_ADOPTED: u64 = 1_000_000_000;

/// The most batches of a command.
const MAX_BATCHES: usize = 64;

/// The most keys of a command.
const MAX_KEYS: usize = 100;

/// The most seconds that a command waits.
const MAX_SECONDS: u64 = 60;

/// Checks that there are 1 to 64 batches, each within its limits.
#[tactic(auto, unfolding(crate::specs::Command::Checks::batches_fit))]
pub(crate) fn check_batches(batches: &[BatchShape<'_>]) -> Result<(), Refusal>
    ensures { result ≡ batches_fit batches.now }
{
    if batches.is_empty() || batches.len() > MAX_BATCHES {
        return Err(Refusal::OutOfRange(MemberName::Batches));
    }
    for batch in batches {
        check_batch(batch)?;
    }
    Ok(())
}

#[tactic(auto, unfolding(crate::specs::Command::Checks::batch_fits))]
fn check_batch(batch: &BatchShape<'_>) -> Result<(), Refusal>
    ensures { result ≡ batch_fits batch.now }
{
    if !positions_fit(batch.first, batch.images.len()) {
        return Err(Refusal::OutOfRange(MemberName::First));
    }
    check_images(&batch.images)?;
    if !Name::fits(batch.stream.as_bytes()) {
        return Err(Refusal::OutOfRange(MemberName::Stream));
    }
    Ok(())
}

fn check_images(images: &[UncheckedImage<'_>]) -> Result<(), Refusal>
    ensures { result ≡ each_fits image_fits images.now }
{
    for image in images {
        check_image(image)?;
    }
    Ok(())
}

fn check_image(image: &UncheckedImage<'_>) -> Result<(), Refusal>
    ensures { result ≡ image_fits image.now }
{
    match image.check_ranges() {
        Ok(()) => Ok(()),
        Err(member) => Err(Refusal::OutOfRange(MemberName::Image(member))),
    }
}

/// Checks that there are 1 to 100 keys, each of 1 to 256 bytes.
#[tactic(auto, unfolding(crate::specs::Command::Checks::keys_fit))]
pub(crate) fn check_keys(keys: &[&str]) -> Result<(), Refusal>
    ensures { result ≡ keys_fit (texts keys.now) }
{
    if keys.is_empty() || keys.len() > MAX_KEYS {
        return Err(Refusal::OutOfRange(MemberName::Keys));
    }
    check_each_key(keys, MemberName::Keys)
}

/// Checks that there are at most 63 bounds, each of 1 to 256 bytes.
#[tactic(auto, unfolding(crate::specs::Command::Checks::bounds_fit))]
pub(crate) fn check_bounds(bounds: &[&str]) -> Result<(), Refusal>
    ensures { result ≡ bounds_fit (texts bounds.now) }
{
    if bounds.len() > MAX_BOUNDS {
        return Err(Refusal::OutOfRange(MemberName::Bounds));
    }
    check_each_key(bounds, MemberName::Bounds)
}

fn check_each_key(keys: &[&str], member_name: MemberName) -> Result<(), Refusal>
    ensures { result ≡ each_fits (key_fits member_name) (texts keys.now) }
{
    for key in keys {
        check_key(key, member_name)?;
    }
    Ok(())
}

/// Checks that the text has 1 to 256 bytes. The member names the fault.
pub(crate) fn check_key(text: &str, member_name: MemberName) -> Result<(), Refusal>
    ensures exact { result ≡ fits member_name (is_key text.now) }
    ensures memory { IsErrOf result Refusal.Memory → ⊥ }
{
    if !Key::fits(text) {
        return Err(Refusal::OutOfRange(member_name));
    }
    Ok(())
}

/// Checks a number of lines that a command announces.
pub(crate) fn check_lines(lines: u64) -> Result<(), Refusal>
    ensures exact { result ≡ fits member_name.Lines (may_announce lines) }
    ensures memory { IsErrOf result Refusal.Memory → ⊥ }
{
    if lines < 1 || lines > MAX_ANNOUNCED {
        return Err(Refusal::OutOfRange(MemberName::Lines));
    }
    Ok(())
}

/// Checks a number of lines that a command of a control session announces.
pub(crate) fn check_adopted(lines: u64) -> Result<(), Refusal>
    ensures exact { result ≡ fits member_name.Lines (may_adopt lines) }
    ensures memory { IsErrOf result Refusal.Memory → ⊥ }
{
    if lines < 1 || lines > MAX_ADOPTED {
        return Err(Refusal::OutOfRange(MemberName::Lines));
    }
    Ok(())
}

/// Checks a number after which notices are asked for.
pub(crate) fn check_since(since: u64) -> Result<(), Refusal>
    ensures exact { result ≡ fits member_name.Since (may_be_asked since) }
    ensures memory { IsErrOf result Refusal.Memory → ⊥ }
{
    if since > LAST_NUMBER {
        return Err(Refusal::OutOfRange(MemberName::Since));
    }
    Ok(())
}

/// Checks a number of seconds that a command waits. The member names the fault.
pub(crate) fn check_seconds(seconds: u64, member_name: MemberName) -> Result<(), Refusal>
    ensures exact { result ≡ fits member_name (are_seconds seconds) }
    ensures memory { IsErrOf result Refusal.Memory → ⊥ }
{
    if seconds <= MAX_SECONDS {
        return Ok(());
    }
    Err(Refusal::OutOfRange(member_name))
}

/// The version of these numbers, if there are some.
pub(crate) fn check_version(numbers: Option<(u64, u64)>) -> Result<Option<Version>, Refusal>
    ensures exact { result ≡ fitting_version numbers }
    ensures memory { IsErrOf result Refusal.Memory → ⊥ }
{
    let Some((generation, number)) = numbers else {
        return Ok(None);
    };
    match Version::new(generation, number) {
        Some(version) => Ok(Some(version)),
        None => Err(Refusal::OutOfRange(MemberName::Version)),
    }
}
