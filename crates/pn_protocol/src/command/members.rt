//! The members of lines and of batches.

ghost use Rattle.std.specs.Prelude.{◌≡◌, IsErrOf, ◌∷◌, [], codes, IfSome};
ghost use Rattle.serde_json.specs.Find.{get_member};
ghost use Rattle.serde_json.specs.View.{members_view};
ghost use Rattle.pn_json.specs.Prelude.{ShowsUnless, seen, texts};
ghost use Rattle.pn_protocol.specs.Command.Checks.{keys_alone, named_alone, number_alone, ArePartsOf};
ghost use Rattle.pn_protocol.specs.Command.Words.{members_of};

use crate::command::shapes::key_texts;
use crate::command::word::CommandWord;
use crate::{MemberName, Refusal};
use pn_json::{check_names, items_of, whole_number_of};
use serde_json::{Map, Value};
use std::alloc::Global;

/// The member of this name.
pub(crate) fn find_member<'v>(members: &'v Map<String, Value>, name: &str) -> Option<&'v Value>
    ensures { seen result ≡ get_member name.now (members_view members.now.entries) }
{
    members.get(name)
}

/// Checks that each member has one of these names.
pub(crate) fn check_members(members: &Map<String, Value>, names: &[&str]) -> Result<(), Refusal>
    ensures exact { result ≡ named_alone (texts names.now) (members_view members.now.entries) }
    ensures memory { IsErrOf result Refusal.Memory → ⊥ }
{
    check_names(members, names, Refusal::BadShape(MemberName::Other))
}

/// Checks that each member is one of this command.
pub(crate) fn check_members_of(
    members: &Map<String, Value>,
    word: CommandWord,
) -> Result<(), Refusal>
    ensures exact { result ≡ named_alone (members_of word) (members_view members.now.entries) }
    ensures memory { IsErrOf result Refusal.Memory → ⊥ }
{
    check_members(members, word.row().members)
}

/// The number of a command that has no other member beside its word.
pub(crate) fn parse_number(
    members: &Map<String, Value>,
    word: CommandWord,
    name: &str,
    member_name: MemberName,
) -> Result<u64, Refusal>
    ensures exact { result ≡ number_alone name.now (members_of word) member_name (members_view members.now.entries) }
    ensures memory { IsErrOf result Refusal.Memory → ⊥ }
{
    let number = whole_number_of(find_member(members, name), Refusal::BadShape(member_name))?;
    check_members_of(members, word)?;
    Ok(number)
}

/// The texts of an array of keys, of a command that has no other member beside its word.
pub(crate) fn parse_keys<'v>(
    alloc: Global,
    members: &'v Map<String, Value>,
    word: CommandWord,
    name: &str,
    member_name: MemberName,
) -> Result<Vec<&'v str>, Refusal>
    ensures { ShowsUnless Refusal.Memory (λ keys. texts keys.items) result
        (keys_alone name.now (members_of word) member_name (members_view members.now.entries)) }
{
    let items = items_of(find_member(members, name), Refusal::BadShape(member_name))?;
    let keys = key_texts(alloc, items, member_name)?;
    check_members_of(members, word)?;
    Ok(keys)
}

/// The values at a batch's names, and the refusal of a member of another name.
#[derive(Drop)]
pub(crate) struct BatchParts<'v> {
    pub(crate) first: Option<&'v Value>,
    pub(crate) images: Option<&'v Value>,
    pub(crate) stream: Option<&'v Value>,
    pub(crate) named: Result<(), Refusal>,
}

/// The parts of these members. Those of a batch are compared once each.
pub(crate) fn batch_parts(members: &Map<String, Value>) -> BatchParts<'_>
    ensures first { seen result.first ≡ get_member (codes "first") (members_view members.now.entries) }
    ensures images { seen result.images ≡ get_member (codes "images") (members_view members.now.entries) }
    ensures stream { seen result.stream ≡ get_member (codes "stream") (members_view members.now.entries) }
    ensures named { result.named ≡ named_alone (codes "first" ∷ codes "images" ∷ codes "stream" ∷ []) (members_view members.now.entries) }
    ensures memory { IsErrOf result.named Refusal.Memory → ⊥ }
{
    match parts_in_order(members) {
        Some(parts) => parts,
        None => parts_by_name(members),
    }
}

fn parts_by_name(members: &Map<String, Value>) -> BatchParts<'_>
    ensures first { seen result.first ≡ get_member (codes "first") (members_view members.now.entries) }
    ensures images { seen result.images ≡ get_member (codes "images") (members_view members.now.entries) }
    ensures stream { seen result.stream ≡ get_member (codes "stream") (members_view members.now.entries) }
    ensures named { result.named ≡ named_alone (codes "first" ∷ codes "images" ∷ codes "stream" ∷ []) (members_view members.now.entries) }
    ensures memory { IsErrOf result.named Refusal.Memory → ⊥ }
{
    BatchParts {
        first: find_member(members, "first"),
        images: find_member(members, "images"),
        stream: find_member(members, "stream"),
        named: check_members(members, &["first", "images", "stream"]),
    }
}

// The parts of members that are those of a batch, and no others.
fn parts_in_order(members: &Map<String, Value>) -> Option<BatchParts<'_>>
    ensures parts { IfSome result (ArePartsOf (members_view members.now.entries)) }
    ensures memory { IfSome result (λ parts. IsErrOf parts.named Refusal.Memory → ⊥) }
{
    let mut rest = members.iter();
    let (first_name, first) = rest.next()?;
    let (images_name, images) = rest.next()?;
    let (stream_name, stream) = rest.next()?;
    if first_name.as_str() != "first" || images_name.as_str() != "images" {
        return None;
    }
    if stream_name.as_str() != "stream" || rest.next().is_some() {
        return None;
    }
    Some(BatchParts {
        first: Some(first),
        images: Some(images),
        stream: Some(stream),
        named: Ok(()),
    })
}
