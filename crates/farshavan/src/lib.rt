// The library for C and Rust: the eight public calls and `report`, as numbers and slices alone. Each hands on the
// promise of its call; what its number says is a definition (specs/Packed). A refusal leaves zeros in every output.
#![tactic(auto)]

ghost use Rattle.std.specs.Prelude.{◌≡◌, ◌+◌, ◌*◌, length};
ghost use Rattle.tables.specs.Tables.{string_table, tables_of};
ghost use Rattle.job_lines.specs.Promises.{room_of};
ghost use Rattle.farshavan.specs.Packed.{
  packed_refusal,
  packed_verdict,
  packed_membership,
  packed_validation,
  packed_matches,
  packed_written,
  row_words,
  name_words,
  packed_name,
  Handed,
  PackedText,
  PackedSchema,
  PackedMember,
  PackedLeast,
  PackedValidation,
  PackedList,
  PackedRead,
  PackedWrite,
  PackedReport,
};

use matching_list::Matches;
use schema_classes::{Member, Name};
use tables::{Code, Refusal};

// A refusal as one number: the code in the upper half, the place in the lower.
fn pack_refusal(refusal: Refusal) -> u64
    ensures { result ≡ packed_refusal refusal }
{
    (refusal.code.number() as u64) * 4294967296 + refusal.place as u64
}

fn pack_verdict(verdict: Result<(), Refusal>) -> u64
    ensures { result ≡ packed_verdict verdict }
{
    match verdict {
        Ok(()) => 0,
        Err(refusal) => pack_refusal(refusal),
    }
}

// Whether a schema keeps the simple form and the restrictions: 0, or the refusal.
#[unsafe(no_mangle)]
pub extern "C" fn farshavan_schema_verdict(bytes: &[u8], ends: &[u32], schema: &[u32]) -> u64
    ensures { PackedSchema (string_table bytes.now ends.now) schema.now result }
{
    pack_verdict(relaxng::schema_verdict(bytes, ends, schema))
}

// A run of words in an output that it fits into, with its number; else the refusal.
fn hand_words(run: &[u32], value: u64, out: &mut [u32]) -> u64
    ensures { Handed run.now value (length out.old) out.new result }
{
    if out.len() < run.len() {
        tables::zero(out);
        return pack_refusal(Code::Room.at(0));
    }
    tables::lay(out, run);
    value
}

fn hand_row(answer: Result<Member, Refusal>, row: &mut [u32]) -> u64
    ensures { Handed (row_words answer) (packed_membership answer) (length row.old) row.new result }
{
    match answer {
        Ok(Member::Yes(at)) => {
            let words = [at];
            hand_words(&words, 1, row)
        }
        Ok(Member::No(at)) => {
            let words = [at];
            hand_words(&words, 0, row)
        }
        Err(refusal) => {
            tables::zero(row);
            pack_refusal(refusal)
        }
    }
}

// Whether a name is in the class at a row: 1 or 0, with the row that says so in the output and zeros after it, or the
// refusal, by 12 where the output has no word.
#[unsafe(no_mangle)]
pub extern "C" fn farshavan_name_in_class(
    bytes: &[u8],
    ends: &[u32],
    schema: &[u32],
    class: u32,
    namespace: u32,
    local: u32,
    row: &mut [u32],
) -> u64
    ensures { PackedMember (string_table bytes.now ends.now) schema.now class namespace local
        (length row.old) row.new result }
{
    hand_row(
        relaxng::name_in_class(bytes, ends, schema, class, namespace, local),
        row,
    )
}

fn hand_name(answer: Result<Option<Name>, Refusal>, name: &mut [u32]) -> u64
    ensures { Handed (name_words answer) (packed_name answer) (length name.old) name.new result }
{
    match answer {
        Ok(Some(least)) => {
            let words = [least.namespace, least.local];
            hand_words(&words, 1, name)
        }
        Ok(None) => {
            tables::zero(name);
            0
        }
        Err(refusal) => {
            tables::zero(name);
            pack_refusal(refusal)
        }
    }
}

// The least name that the classes at two rows have in common: 1 with its two words in the output and zeros after them,
// 0 with zeros where there is none, or the refusal, by 12 where the two words do not fit.
#[unsafe(no_mangle)]
pub extern "C" fn farshavan_least_common_name(
    bytes: &[u8],
    ends: &[u32],
    schema: &[u32],
    first: u32,
    second: u32,
    name: &mut [u32],
) -> u64
    ensures { PackedLeast (string_table bytes.now ends.now) schema.now first second
        (length name.old) name.new result }
{
    hand_name(
        relaxng::least_common_name(bytes, ends, schema, first, second),
        name,
    )
}

fn pack_validation(answer: Result<bool, Refusal>) -> u64
    ensures { result ≡ packed_validation answer }
{
    match answer {
        Ok(valid) => valid as u64,
        Err(refusal) => pack_refusal(refusal),
    }
}

// Whether the instance is valid by the schema: 1 or 0, or the refusal. The work buffer is left with zeros.
#[unsafe(no_mangle)]
pub extern "C" fn farshavan_verdict(
    bytes: &[u8],
    ends: &[u32],
    schema: &[u32],
    instance: &[u32],
    work: &mut [u8],
) -> u64
    ensures { PackedValidation (tables_of (string_table bytes.now ends.now) schema.now instance.now)
        (length work.old) work.new result }
{
    pack_validation(relaxng::verdict(bytes, ends, schema, instance, work))
}

fn pack_matches(answer: Result<Matches, Refusal>) -> u64
    ensures { result ≡ packed_matches answer }
{
    match answer {
        Ok(matches) => (matches.pairs as u64) * 2 + matches.valid as u64,
        Err(refusal) => pack_refusal(refusal),
    }
}

// The match list, with zeros after it: twice the number of pairs, which is the number of words used, and 1 more where
// the instance is valid; or the refusal. The work buffer is left with zeros.
#[unsafe(no_mangle)]
pub extern "C" fn farshavan_match_list(
    bytes: &[u8],
    ends: &[u32],
    schema: &[u32],
    instance: &[u32],
    list: &mut [u32],
    work: &mut [u8],
) -> u64
    ensures { PackedList (tables_of (string_table bytes.now ends.now) schema.now instance.now)
        (length list.old) (length work.old) list.new work.new result }
{
    pack_matches(relaxng::match_list(bytes, ends, schema, instance, list, work))
}

// The text of string k, copied to the output since an exported function returns no part, with zeros after it: its
// length, 0 where the strings break their rule or have no string k, or the refusal by 12 where the text does not fit.
#[unsafe(no_mangle)]
pub extern "C" fn farshavan_string_text(bytes: &[u8], ends: &[u32], k: u32, text: &mut [u8]) -> u64
    ensures { PackedText bytes.entry ends.now k (length text.old) text.new result }
{
    let part = strings::string_text(bytes, ends, k);
    if text.len() < part.len() {
        tables::zero(text);
        return pack_refusal(Code::Room.at(0));
    }
    tables::lay(text, part);
    part.len() as u64
}

// The tables of a job file, each in its output with zeros after it: 0 with the counts of bytes, strings, schema rows
// and instance rows, or the refusal, by 12 also where the four counts do not fit.
#[unsafe(no_mangle)]
pub extern "C" fn farshavan_read_job(
    file: &[u8],
    bytes: &mut [u8],
    ends: &mut [u32],
    schema: &mut [u32],
    instance: &mut [u32],
    counts: &mut [u32],
) -> u64
    ensures { PackedRead file.now (room_of bytes.old ends.old schema.old instance.old)
        (length counts.old) bytes.new ends.new schema.new instance.new counts.new result }
{
    let answer = job_reader::read_job(file, bytes, ends, schema, instance);
    match answer {
        Ok(job) => {
            let words = [job.bytes, job.strings, job.rows, job.nodes];
            let number = hand_words(&words, 0, counts);
            if number != 0 {
                job_lines::zero_outputs(bytes, ends, schema, instance);
            }
            number
        }
        Err(refusal) => {
            tables::zero(counts);
            pack_refusal(refusal)
        }
    }
}

fn pack_written(answer: Result<u32, Refusal>) -> u64
    ensures { result ≡ packed_written answer }
{
    match answer {
        Ok(size) => size as u64,
        Err(refusal) => pack_refusal(refusal),
    }
}

// The job file of tables, with zeros after it: its length, or the refusal.
#[unsafe(no_mangle)]
pub extern "C" fn farshavan_write_job(
    bytes: &[u8],
    ends: &[u32],
    schema: &[u32],
    instance: &[u32],
    file: &mut [u8],
) -> u64
    ensures { PackedWrite (tables_of (string_table bytes.now ends.now) schema.now instance.now)
        (length file.old) file.new result }
{
    pack_written(job_writer::write_job(bytes, ends, schema, instance, file))
}

// What `check` prints for a job file, with zeros after it: its length, or the refusal by 12 of an output that is too
// short.
#[unsafe(no_mangle)]
pub extern "C" fn farshavan_report(file: &[u8], text: &mut [u8]) -> u64
    ensures { PackedReport file.now (length text.old) text.new result }
{
    let length = report::report(file, text);
    if length == 0 {
        return pack_refusal(Code::Room.at(0));
    }
    length as u64
}
