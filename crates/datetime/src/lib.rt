// DateTime texts (001, listing 12): milliseconds from 1970-01-01T00:00:00.000Z read from a text, and written as one.
#![tactic(auto)]

mod calendar;
mod reader;
mod writer;

ghost use Rattle.std.specs.Prelude.{◌≡◌, length};
ghost use Rattle.form.specs.Writing.{buffer_after};
ghost use Rattle.datetime.specs.Instant.{read_date_time, date_time_text, write_date_time};

use form::{Stop, Unwritten};

// The instant that a text shows.
pub fn read_datetime(s: &[u8]) -> Result<i64, Stop>
    ensures { result ≡ read_date_time s.now }
{
    let day = reader::date(s)?;
    let time = reader::clock(s)?;
    reader::zoned(s, day * 86400000 + time)
}

// Writes the text of an instant to the front of the buffer: 24 bytes, always with `Z`. Refused are an instant outside the years 1000 to
// 9999 UTC and then a buffer without room.
pub fn write_datetime(ms: i64, out: &mut [u8]) -> Result<usize, Unwritten>
    ensures { (result ≡ write_date_time ms (length out.old)) ×
        (out.new ≡ buffer_after result (date_time_text ms) out.old) }
{
    if !writer::in_years(ms) {
        return Err(Unwritten::OutsideYears);
    }
    let Some(front) = out.first_chunk_mut::<24>() else {
        return Err(Unwritten::NoRoom);
    };
    *front = writer::text_of(ms);
    Ok(24)
}
