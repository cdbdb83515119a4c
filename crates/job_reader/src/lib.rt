// The reader of job files.
#![tactic(auto)]

ghost use Rattle.std.specs.Prelude.{◌≡◌, ◌&&◌, leb};
ghost use Rattle.job.specs.Reading.{read_job};
ghost use Rattle.job_lines.specs.Promises.{room_of, OutputsHold};
ghost use Rattle.job_reader.specs.Promises.{given, JobAnswer};

use job_lines::Lengths;
use tables::{Code, Refusal};

// How many bytes, strings, schema rows and instance rows a job file has.
#[derive(Clone, Copy, Debug, PartialEq, Eq)]
pub struct Counts {
    pub bytes: u32,
    pub strings: u32,
    pub rows: u32,
    pub nodes: u32,
}

// Whether four tables fit in four outputs.
fn fit(lengths: Lengths, room: Lengths) -> bool
    ensures { result ≡ (leb lengths.bytes room.bytes && leb lengths.ends room.ends
        && leb lengths.schema room.schema && leb lengths.instance room.instance) }
{
    lengths.bytes <= room.bytes
        && lengths.ends <= room.ends
        && lengths.schema <= room.schema
        && lengths.instance <= room.instance
}

// A job file into four lent tables: refused by 13 at the first wrong line, then by 12 at 0 where an output is too
// short; otherwise the four counts. Each output is its table and then zeros, and zeros throughout at a refusal.
pub fn read_job(
    file: &[u8],
    bytes: &mut [u8],
    ends: &mut [u32],
    schema: &mut [u32],
    instance: &mut [u32],
) -> Result<Counts, Refusal>
    ensures answer { JobAnswer (read_job file.now) (room_of bytes.old ends.old schema.old instance.old) result }
    ensures outputs { OutputsHold
        (given (read_job file.now) (room_of bytes.old ends.old schema.old instance.old))
        (room_of bytes.old ends.old schema.old instance.old) bytes.new ends.new
        schema.new instance.new }
{
    let held = job_lines::read_tables(file, bytes, ends, schema, instance);
    let lengths = held.map_err(|line| Code::Line.at(line))?;
    let room = Lengths {
        bytes: bytes.len(),
        ends: ends.len(),
        schema: schema.len(),
        instance: instance.len(),
    };
    if !fit(lengths, room) {
        job_lines::zero_outputs(bytes, ends, schema, instance);
        return Err(Code::Room.at(0));
    }
    Ok(Counts {
        bytes: lengths.bytes as u32,
        strings: lengths.ends as u32,
        rows: (lengths.schema / 3) as u32,
        nodes: (lengths.instance / 5) as u32,
    })
}
