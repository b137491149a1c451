//! Lines of JSON, written token by token and ended by a newline.

ghost use Rattle.std.specs.Prelude.{◌≡◌, IfOk, OnOk};
ghost use Rattle.serde_json.specs.Data.{Data, null, string, number, unsigned};
ghost use Rattle.pn_json.specs.Tokens.{line_of, Appends, IsBegun, HasValue, member_tokens};

use json::Writer;
use pn_join::NoMemory;
use std::alloc::Global;

/// The first capacity of a line, in bytes.
const FIRST_SIZE: usize = 256;

/// An empty line to write into.
pub fn begin_line(alloc: Global) -> Result<Writer, NoMemory>
    ensures { IfOk result IsBegun }
{
    Ok(Writer::new(Vec::with_capacity(alloc, FIRST_SIZE)?))
}

/// The line of the value that was written.
pub fn finish_line(writer: Writer) -> Result<Vec<u8>, NoMemory>
    ensures { IfOk result (λ line. (value : Data) → HasValue writer value → line.items ≡ line_of value) }
{
    let mut line = writer.into_inner();
    line.push(b'\n')?;
    Ok(line)
}

/// Writes a member whose value is a text.
pub fn write_text_member(writer: &mut Writer, name: &str, text: &str) -> Result<(), NoMemory>
    ensures { OnOk result (Appends writer.old writer.new (member_tokens name.now (string text.now))) }
{
    writer.key(name)?;
    writer.string(text)?;
    Ok(())
}

/// Writes a member whose value is a whole number.
pub fn write_number_member(writer: &mut Writer, name: &str, value: u64) -> Result<(), NoMemory>
    ensures { OnOk result (Appends writer.old writer.new (member_tokens name.now (number (unsigned value)))) }
{
    writer.key(name)?;
    writer.u64(value)?;
    Ok(())
}

/// Writes a member whose value is null.
pub fn write_null_member(writer: &mut Writer, name: &str) -> Result<(), NoMemory>
    ensures { OnOk result (Appends writer.old writer.new (member_tokens name.now null)) }
{
    writer.key(name)?;
    writer.null()?;
    Ok(())
}
