//! The arguments `NAME=PATH`.

ghost use Rattle.std.specs.Prelude.{◌≡◌, [], codes, map, unwrap_or};
ghost use Rattle.clap.specs.Words.{all_of, found_of, rows_of};
ghost use Rattle.std.specs.Str.{bytes_eq};
ghost use Rattle.pn_json.specs.Prelude.{ShowsUnless, texts};
ghost use Rattle.pn_arguments.specs.OptionTexts.{each_stream, file_in, has_name as name_among, path_in, path_value, repeated_from, socket_in, stream_in};
ghost use Rattle.pn_arguments.specs.OptionTexts.{stream_value, streams_in};

use crate::faults::{OptionFault, Why};
use clap::ArgMatches;
use pn_join::Name;
use pn_region::MAX_STREAMS;
use pn_serve::StreamPath;
use std::alloc::Global;

/// The most bytes of the path of a Unix socket.
pub(crate) const MAX_SOCKET_BYTES: usize = 107;

/// The names of streams, each once, and where each is read.
pub(crate) fn named_streams(
    alloc: Global,
    stays: bool,
    options: &ArgMatches<'_>,
) -> Result<Vec<(Name, StreamPath)>, OptionFault>
    ensures { ShowsUnless OptionFault.Memory (λ streams. map stream_value streams.items) result
        (streams_in stays (unwrap_or (all_of (codes "streams") (rows_of (found_of options.now))) [])) }
{
    match options.get_raw("streams") {
        Some(words) => streams_of(alloc, stays, words),
        None => Ok(Vec::new(alloc)),
    }
}

#[tactic(auto, unfolding(crate::specs::OptionTexts::streams_in))]
fn streams_of(
    alloc: Global,
    stays: bool,
    words: &[&str],
) -> Result<Vec<(Name, StreamPath)>, OptionFault>
    ensures { ShowsUnless OptionFault.Memory (λ streams. map stream_value streams.items) result (streams_in stays (texts words.now)) }
{
    if words.len() > MAX_STREAMS {
        return Err(OptionFault::Stream(MAX_STREAMS, Why::TooMany));
    }
    let streams = each_of(alloc, stays, words)?;
    match repeated_name(&streams) {
        Some(index) => Err(OptionFault::Stream(index, Why::NameTwice)),
        None => Ok(streams),
    }
}

fn each_of(
    alloc: Global,
    stays: bool,
    words: &[&str],
) -> Result<Vec<(Name, StreamPath)>, OptionFault>
    ensures { ShowsUnless OptionFault.Memory (λ streams. map stream_value streams.items) result (each_stream stays 0 (texts words.now)) }
{
    let mut streams = Vec::with_capacity(alloc, words.len())?;
    for (index, word) in words.iter().enumerate() {
        streams.push_reserved(stream_of(alloc, stays, index, word)?);
    }
    Ok(streams)
}

// A stream's word is cut at its first `=`.
fn stream_of(
    alloc: Global,
    stays: bool,
    index: usize,
    word: &str,
) -> Result<(Name, StreamPath), OptionFault>
    ensures { ShowsUnless OptionFault.Memory stream_value result (stream_in stays index word.now) }
{
    let (name, path) = word
        .split_once('=')
        .ok_or(OptionFault::Stream(index, Why::NoEquals))?;
    if !Name::fits(name.as_bytes()) {
        return Err(OptionFault::Stream(index, Why::NoName));
    }
    let path = path_of(alloc, stays, index, path)?;
    Ok((Name::of(name.as_bytes()), path))
}

fn path_of(alloc: Global, stays: bool, index: usize, text: &str) -> Result<StreamPath, OptionFault>
    ensures { ShowsUnless OptionFault.Memory path_value result (path_in stays index text.now) }
{
    match text.strip_prefix("listen:") {
        Some(path) if stays => socket_of(alloc, index, path),
        _ => file_of(alloc, index, text),
    }
}

fn socket_of(alloc: Global, index: usize, path: &str) -> Result<StreamPath, OptionFault>
    ensures { ShowsUnless OptionFault.Memory path_value result (socket_in index path.now) }
{
    if path.is_empty() {
        return Err(OptionFault::Stream(index, Why::NoPath));
    }
    if path.len() > MAX_SOCKET_BYTES {
        return Err(OptionFault::Stream(index, Why::LongPath));
    }
    Ok(StreamPath::Listen(String::from_str(alloc, path)?))
}

fn file_of(alloc: Global, index: usize, path: &str) -> Result<StreamPath, OptionFault>
    ensures { ShowsUnless OptionFault.Memory path_value result (file_in index path.now) }
{
    if path.is_empty() {
        return Err(OptionFault::Stream(index, Why::NoPath));
    }
    Ok(StreamPath::File(String::from_str(alloc, path)?))
}

// The index of the first stream whose name a later one has.
fn repeated_name(streams: &[(Name, StreamPath)]) -> Option<usize>
    ensures { result ≡ repeated_from 0 (map stream_value streams.now) }
{
    for (index, stream) in streams.iter().enumerate() {
        if has_name(&streams[index + 1..], &stream.0) {
            return Some(index);
        }
    }
    None
}

fn has_name(streams: &[(Name, StreamPath)], name: &Name) -> bool
    ensures { result ≡ name_among (map stream_value streams.now) name.now }
{
    for stream in streams {
        if is_named(stream, name) {
            return true;
        }
    }
    false
}

fn is_named(stream: &(Name, StreamPath), name: &Name) -> bool
    ensures { result ≡ bytes_eq (stream_value stream.now).0 name.now }
{
    stream.0 == *name
}
