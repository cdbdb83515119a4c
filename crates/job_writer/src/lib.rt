// The writer of job files.
#![tactic(auto)]

ghost use Rattle.std.specs.Prelude.{◌≡◌, ◌<◌, length};
ghost use Rattle.tables.specs.Checks.{Finds};
ghost use Rattle.tables.specs.Tables.{string_table, tables_of};
ghost use Rattle.job_writer.specs.Promises.{TableFault, WriteJob};
ghost use Rattle.job_writer.specs.Refused.{CheckJob};

use tables::{Code, Refusal};

// A table with more rows than its limit, or with a broken length.
fn check_table(table: &[u32], width: usize, limit: usize) -> Result<(), u32>
    requires { 0 < width }
    ensures { Finds (TableFault width limit table.now) result }
{
    if table.len() % width != 0 {
        return Err(0);
    }
    if limit < table.len() / width {
        return Err(0);
    }
    Ok(())
}

// What is refused of the four tables of a job.
fn check_job(bytes: &[u8], ends: &[u32], schema: &[u32], instance: &[u32]) -> Result<(), Refusal>
    ensures { CheckJob (tables_of (string_table bytes.now ends.now) schema.now instance.now) result }
{
    Code::Strings.judge(strings::check_strings(bytes, ends))?;
    Code::Rows.judge(check_table(schema, 3, schema::MAX_ROWS))?;
    Code::Nodes.judge(check_table(instance, 5, instance::MAX_NODES))
}

// The four tables of a job as text in a lent output: refused by 1, then by 2 or 9 at 0, then by 12 at 0; otherwise the
// length of the text. The output is the text and then zeros, and zeros throughout at a refusal.
pub fn write_job(
    bytes: &[u8],
    ends: &[u32],
    schema: &[u32],
    instance: &[u32],
    out: &mut [u8],
) -> Result<u32, Refusal>
    ensures { WriteJob (tables_of (string_table bytes.now ends.now) schema.now instance.now)
        (length out.old) out.new result }
{
    tables::zero(out);
    check_job(bytes, ends, schema, instance)?;
    let size = job_texts::put_job(out, bytes, ends, schema, instance);
    if job::MAX_FILE < size || out.len() < size {
        tables::zero(out);
        return Err(Code::Room.at(0));
    }
    Ok(size as u32)
}
