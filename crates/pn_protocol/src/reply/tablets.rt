//! The replies that show the tablets, and how far streams were taken.

ghost use Rattle.std.specs.Prelude.{◌≡◌, ◌+◌, length, map, IfOk, OnOk};
ghost use Rattle.std.specs.Option.{option_copied};
ghost use Rattle.serde_json.specs.Data.{array};
ghost use Rattle.serde_json.specs.View.{items_of};
ghost use Rattle.pn_json.specs.Prelude.{line_of, Appends, value_tokens};
ghost use Rattle.pn_protocol.specs.Reply.Short.{end_data, marks_reply_data, need_data, tablet_data, tablets_data};

use json::Writer;
use pn_join::{Marks, NoMemory};
use pn_json::{begin_line, finish_line};
use pn_record::{Key, write_marks};
use pn_region::Region;
use pn_tablet::{Status, TabletState};
use std::alloc::Global;

/// A region whose tablets are shown.
pub trait ShownTablets {
    ghost use Rattle.std.specs.Prelude.{◌≡◌, ◌<◌, List, length, slice_get, Some};
    ghost use Rattle.pn_tablet.specs.Prelude.{TabletStateValue};

    /// The tablets, in their order.
    ghost tablets: { Self → List TabletStateValue };

    /// How many tablets there are.
    fn count(&self) -> usize
        ensures { result ≡ length (tablets self.now) };

    /// The tablet of this number.
    fn tablet(&self, number: usize) -> &TabletState
        requires { number < length (tablets self.now) }
        ensures { slice_get (tablets self.now) number ≡ Some result.now };
}

impl ShownTablets for Region {
    ghost tablets = { λ region. region.state.tablets };

    fn count(&self) -> usize {
        recall_tablet_count(self);
        self.layout().count()
    }

    fn tablet(&self, number: usize) -> &TabletState {
        recall_tablet_count(self);
        Region::tablet(self, number)
    }
}

// There is one tablet more than bounds.
fn recall_tablet_count(region: &Region)
    ensures { length region.now.state.tablets ≡ length region.now.state.layout + 1 }
{
    let _layout = region.layout();
}

/// The tablets in their order: `{"tablets":[{"cover":{..},"from":F,"need":M,"to":T},..]}`.
pub fn tablets_reply<T: ShownTablets>(alloc: Global, region: &T) -> Result<Vec<u8>, NoMemory>
    ensures { IfOk result (λ text. text.items ≡ line_of (tablets_data (T.tablets region.now))) }
{
    let mut writer = begin_line(alloc)?;
    write_tablets_object(&mut writer, region)?;
    finish_line(writer)
}

#[tactic(auto, unfolding(crate::specs::Reply::Short::tablets_data))]
fn write_tablets_object<T: ShownTablets>(writer: &mut Writer, region: &T) -> Result<(), NoMemory>
    ensures { OnOk result (Appends writer.old writer.new (value_tokens (tablets_data (T.tablets region.now)))) }
{
    writer.begin_object()?;
    writer.key("tablets")?;
    write_tablets(writer, region)?;
    writer.end_object()?;
    Ok(())
}

fn write_tablets<T: ShownTablets>(writer: &mut Writer, region: &T) -> Result<(), NoMemory>
    ensures { OnOk result (Appends writer.old writer.new
        (value_tokens (array (items_of (map tablet_data (T.tablets region.now)))))) }
{
    writer.begin_array()?;
    for number in 0..region.count() {
        write_tablet(writer, region.tablet(number))?;
    }
    writer.end_array()?;
    Ok(())
}

fn write_tablet(writer: &mut Writer, state: &TabletState) -> Result<(), NoMemory>
    ensures { OnOk result (Appends writer.old writer.new (value_tokens (tablet_data state.now))) }
{
    writer.begin_object()?;
    writer.key("cover")?;
    write_marks(writer, state.cover())?;
    writer.key("from")?;
    write_end(writer, state.range().from())?;
    writer.key("need")?;
    write_need(writer, state.status())?;
    writer.key("to")?;
    write_end(writer, state.range().to())?;
    writer.end_object()?;
    Ok(())
}

fn write_end(writer: &mut Writer, end: Option<&Key>) -> Result<(), NoMemory>
    ensures { OnOk result (Appends writer.old writer.new (value_tokens (end_data (option_copied end.entry)))) }
{
    match end {
        Some(key) => Ok(writer.string(key.as_str())?),
        None => Ok(writer.null()?),
    }
}

fn write_need(writer: &mut Writer, status: &Status) -> Result<(), NoMemory>
    ensures { OnOk result (Appends writer.old writer.new (value_tokens (need_data status.now))) }
{
    match status {
        Status::Serving => Ok(writer.null()?),
        Status::Recovering { need } => write_marks(writer, need),
    }
}

/// The reply to `marks`, `{"marks":{..}}`: how far streams were taken.
pub fn marks_reply(alloc: Global, marks: &Marks) -> Result<Vec<u8>, NoMemory>
    ensures { IfOk result (λ text. text.items ≡ line_of (marks_reply_data marks.now)) }
{
    let mut writer = begin_line(alloc)?;
    write_marks_object(&mut writer, marks)?;
    finish_line(writer)
}

#[tactic(auto, unfolding(crate::specs::Reply::Short::marks_reply_data))]
fn write_marks_object(writer: &mut Writer, marks: &Marks) -> Result<(), NoMemory>
    ensures { OnOk result (Appends writer.old writer.new (value_tokens (marks_reply_data marks.now))) }
{
    writer.begin_object()?;
    writer.key("marks")?;
    write_marks(writer, marks)?;
    writer.end_object()?;
    Ok(())
}
