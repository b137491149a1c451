//! Messages of streams, read from lines, and the deliveries that they are.

ghost use Rattle.std.specs.Prelude.{◌≡◌, ◌↔◌, length, IfSome, IsSome, IsTrue, ◌<◌, IfOk, IfErr, IsOk, IsErrOf};
ghost use Rattle.pn_stream.specs.Brokers.{are_positions};
ghost use Rattle.serde_json.specs.View.{view};
ghost use Rattle.pn_json.specs.Prelude.{IsUnless};
ghost use Rattle.pn_record.specs.Prelude.{IsOfValue, body_rises, max_line_bytes};
ghost use Rattle.pn_join.specs.Prelude.{is_position as position_of};
ghost use Rattle.pn_stream.specs.Messages.{Message, shape_in, ranges_in, message_in, message_at, IsMessage, IsMessageLine, message_data};

use pn_join::{LAST_POSITION, NoMemory, StreamName};
use pn_json::{check_names, member_from, whole_number_of};
use pn_record::{
    Image, ImageFault, Member, UncheckedImage, image_from, read_value, unchecked_image,
};
use serde_json::Value;
use std::alloc::Global;
use std::marker::Model;

/// Images of a stream at consecutive positions. Without images, the first position is the one that comes next, at
/// most 10^15.
#[derive(Debug, Drop)]
pub struct Delivery {
    stream: StreamName,
    first: u64,
    images: Vec<Image>,
}

impl Model for Delivery {
    ghost use Rattle.std.specs.Prelude.{length, IsTrue};
    ghost use Rattle.pn_stream.specs.Brokers.{DeliveryValue, are_positions};

    ghost Value = { DeliveryValue };

    ghost view = { λ d. record { stream = d.stream; first = d.first; images = d.images.items } };

    ghost invariant = { λ d. IsTrue (are_positions d.first (length d.images.items)) };
}

impl Delivery {
    /// The images from the position `first` on. None where `first` or the position of the last image is not
    /// from 1 to 10^15.
    pub fn new(stream: StreamName, first: u64, images: Vec<Image>) -> Option<Delivery>
        ensures made { IfSome result
            (λ delivery. delivery ≡ record { stream = stream; first = first; images = images.items }) }
        ensures exactly { IsSome result ↔ IsTrue (are_positions first (length images.items)) }
    {
        if !positions_fit(first, images.len()) {
            return None;
        }
        Some(Delivery::of(stream, first, images))
    }

    /// The images from the position `first` on, where `positions_fit` says that they fit.
    pub fn of(stream: StreamName, first: u64, images: Vec<Image>) -> Delivery
        requires fit { IsTrue (are_positions first (length images.items)) }
        ensures made { result ≡ record { stream = stream; first = first; images = images.items } }
    {
        Delivery {
            stream,
            first,
            images,
        }
    }

    /// The name of the stream.
    pub fn stream(&self) -> &StreamName
        ensures { result.now ≡ self.now.stream }
    {
        &self.stream
    }

    /// The position of the first image, from 1 to 10^15.
    pub fn first(&self) -> u64
        ensures position { result ≡ self.now.first }
        ensures in_range { IsTrue (are_positions self.now.first (length self.now.images)) }
    {
        self.first
    }

    /// The images, in the order of their positions.
    pub fn images(&self) -> &[Image]
        ensures { result.now ≡ self.now.images }
    {
        &self.images
    }

    /// The images themselves, in the order of their positions.
    pub fn into_images(self) -> Vec<Image>
        ensures { result.items ≡ self.images }
    {
        let Delivery { images, .. } = self;
        images
    }
}

/// Whether `first`, and the positions of `count` images from there on, are from 1 to 10^15.
pub fn positions_fit(first: u64, count: usize) -> bool
    ensures { result ≡ are_positions first count }
{
    1 <= first && first <= LAST_POSITION && count as u64 <= LAST_POSITION + 1 - first
}

/// The position, from 1 to 10^15, and the image of a message, `{"at":P,"image":I}`.
///
/// Errors, in this order: `TooLong` above 65,536 bytes, `NotJson`, `BadShape` and `OutOfRange`, each with its member.
pub fn read_message(alloc: Global, line: &[u8]) -> Result<(u64, Image), ImageFault>
    ensures found { IfOk result (λ message. IsMessageLine line.now message) }
    ensures only { (message : Message) → IsMessageLine line.now message → IsUnless ImageFault.Memory result (Ok message) }

    // Which fault it is.
    ensures exact { IsUnless ImageFault.Memory result (message_at line.now) }
    ensures too_long { IsErrOf result ImageFault.TooLong ↔ (max_line_bytes < length line.now) }
{
    message_read(alloc, read_value(alloc, line))
}

// The message of a value that was read, or the fault of reading.
fn message_read(alloc: Global, read: Result<Value, ImageFault>) -> Result<(u64, Image), ImageFault>
    ensures unread { IfErr read (λ fault. result ≡ Err fault) }
    ensures found { IfOk read (λ value. IfOk result (λ message. IsMessage (view value) message)) }
    ensures exact { IfOk read (λ value. IsUnless ImageFault.Memory result (message_in (view value))) }
    ensures memory { IfOk read (λ value. IsErrOf result ImageFault.Memory → IsOk (message_in (view value))) }
    ensures faults { IfOk read (λ value. IfErr result IsOfValue) }
{
    let value = read?;
    message_of(alloc, value)
}

#[tactic(auto, using(crate::proofs::SameMessage::message_fits, crate::proofs::SameMessage::image_fits), unfolding(crate::specs::Messages::message_in))]
fn message_of(alloc: Global, value: Value) -> Result<(u64, Image), ImageFault>
    ensures found { IfOk result (λ message. IsMessage (view value) message) }
    ensures exact { IsUnless ImageFault.Memory result (message_in (view value)) }
    ensures memory { IsErrOf result ImageFault.Memory → IsOk (message_in (view value)) }
    ensures faults { IfErr result IsOfValue }
{
    let (at, shape) = message_shape(&value).map_err(ImageFault::BadShape)?;
    check_message(at, &shape).map_err(ImageFault::OutOfRange)?;
    Ok((at, message_image(alloc, value)?))
}

// The image of a value that is a message, moved out of it.
fn message_image(alloc: Global, value: Value) -> Result<Image, NoMemory>
    requires { IsOk (message_in (view value)) }
    ensures { IfOk result (λ image. IfOk (message_in (view value)) (λ message. image ≡ message.1)) }
{
    match member_from(value, "image") {
        Some(image) => image_from(alloc, image),
        None => unreachable!(),
    }
}

// The position and the image of a message, borrowed from the value.
#[tactic(auto, unfolding(crate::specs::Messages::shape_in))]
fn message_shape(value: &Value) -> Result<(u64, UncheckedImage<'_>), Member>
    ensures exact { result ≡ shape_in (view value.now) }
    ensures found { IfOk result (λ message. view value.now ≡ message_data message) }
    ensures rising { IfOk result (λ message. IsTrue (body_rises message.1.content.0)) }
{
    let members = value.as_object().ok_or(Member::Whole)?;
    let at = whole_number_of(value.get("at"), Member::At)?;
    let image = value.get("image").ok_or(Member::Image)?;
    let shape = unchecked_image(image)?;
    check_names(members, &["at", "image"], Member::Other)?;
    Ok((at, shape))
}

// The first member that breaks a limit, if one does.
#[tactic(auto, unfolding(crate::specs::Messages::ranges_in))]
fn check_message(at: u64, image: &UncheckedImage<'_>) -> Result<(), Member>
    ensures { result ≡ ranges_in (at, image.now) }
{
    if !is_position(at) {
        return Err(Member::At);
    }
    image.check_ranges()
}

fn is_position(at: u64) -> bool
    ensures { result ≡ position_of at }
{
    1 <= at && at <= LAST_POSITION
}
