// From the bytes of a job file to the bytes that `check` prints.
#![tactic(auto)]

ghost use Rattle.std.specs.Prelude.{◌*◌, ◌≤◌, length, take};
ghost use Rattle.tables.specs.Tables.{string_table, tables_of};
ghost use Rattle.job.specs.Reported.{match_text};
ghost use Rattle.job_texts.specs.Writing.{TextIn};
ghost use Rattle.report.specs.Report.{list_room, Reported, Answered};

// The text of a list of so many pairs.
fn write_pairs(valid: bool, list: &[u32], pairs: u32, out: &mut [u8]) -> u32
    requires { (pairs * 2 ≤ length list.now) × (pairs * 2 ≤ list_room) }
    ensures { TextIn (match_text valid (take (pairs * 2) list.now)) (length out.old) out.new result }
{
    let words = pairs as usize * 2;
    job_texts::write_matches(valid, &list[..words], out)
}

// The text of the answer on the tables of a job.
fn answer(bytes: &[u8], ends: &[u32], schema: &[u32], instance: &[u32], out: &mut [u8]) -> u32
    ensures { Answered (tables_of (string_table bytes.now ends.now) schema.now instance.now)
        (length out.old) out.new result }
{
    let mut list = [0u32; 16384];
    let mut work = [0u8; 49155];
    match relaxng::match_list(bytes, ends, schema, instance, &mut list, &mut work) {
        Ok(matches) => write_pairs(matches.valid, &list, matches.pairs, out),
        Err(refusal) => job_texts::write_refusal(refusal.code.number(), refusal.place, out),
    }
}

// What `check` prints for a job file, with zeros after it, and its length; zeros and 0 where the output is too short.
pub fn report(file: &[u8], out: &mut [u8]) -> u32
    ensures reported { Reported file.now (length out.old) out.new result }
    ensures within { result ≤ length out.old }
{
    let mut bytes = [0u8; 16384];
    let mut ends = [0u32; 512];
    let mut schema = [0u32; 1536];
    let mut instance = [0u32; 5120];
    match job_reader::read_job(file, &mut bytes, &mut ends, &mut schema, &mut instance) {
        Ok(counts) => answer(
            &bytes[..counts.bytes as usize],
            &ends[..counts.strings as usize],
            &schema[..counts.rows as usize * 3],
            &instance[..counts.nodes as usize * 5],
            out,
        ),
        Err(refusal) => job_texts::write_refusal(refusal.code.number(), refusal.place, out),
    }
}
