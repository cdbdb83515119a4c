// The lines of a job file, into lent tables.
#![tactic(auto)]

ghost use Rattle.std.specs.Prelude.{◌≡◌, ◌+◌, ◌≤◌, ◌<◌, ◌==◌, length, drop};
ghost use Rattle.std.specs.List.{position};
ghost use Rattle.strings.specs.Strings.{max_strings, max_bytes};
ghost use Rattle.instance.specs.NodeRule.{max_nodes};
ghost use Rattle.job.specs.Numbers.{hex_bytes};
ghost use Rattle.job.specs.Lines.{lines_of, fields_of};
ghost use Rattle.job.specs.Reading.{max_file, count, words_of, row_of, read_job, no_tables};
ghost use Rattle.job_lines.specs.Parts.{string_after, LineEnd, FieldEnd, Stores};
ghost use Rattle.job_lines.specs.Steps.{LiteralLine, CountLine, StringSection, read_strings};
ghost use Rattle.job_lines.specs.Steps.{RowSection, read_rows, read_table, EndLine};
ghost use Rattle.job_lines.specs.Steps.{FrontRead, BackRead, max_front, max_words, LinesHeld};
ghost use Rattle.job_lines.specs.Promises.{held_as, tables_in, room_of, OutputsHold};

// The lines of a table: the position after them, the number of the next line and the number of words.
#[derive(Clone, Copy)]
struct Section {
    next: usize,
    line: u32,
    words: usize,
}

// The first line and the strings: the position after them, the number of the next line, and the numbers of bytes and of
// strings.
#[derive(Clone, Copy)]
struct Front {
    next: usize,
    line: u32,
    bytes: usize,
    strings: usize,
}

// The numbers of words of the two tables of rows.
#[derive(Clone, Copy)]
struct Back {
    schema: usize,
    instance: usize,
}

// The numbers of words of the four tables.
#[derive(Clone, Copy, Debug, PartialEq, Eq)]
pub struct Lengths {
    pub bytes: usize,
    pub ends: usize,
    pub schema: usize,
    pub instance: usize,
}

// Where a byte first occurs.
fn find(bytes: &[u8], b: u8) -> Option<usize>
    ensures { result ≡ position (λ c. c == b) bytes.now }
{
    bytes.iter().position(|c| *c == b)
}

// Where the line ends that starts at a position.
fn line_end(file: &[u8], at: usize) -> Option<usize>
    ensures { LineEnd file.now at result }
{
    let i = find(file.get(at..)?, b'\n')?;
    Some(at + i)
}

// Where the field ends that starts at a position.
fn field_end(text: &[u8], from: usize) -> usize
    requires { from ≤ length text.now }
    ensures { FieldEnd text.now from result }
{
    match find(&text[from..], b',') {
        Some(i) => from + i,
        None => text.len(),
    }
}

// The bytes that pairs of hexadecimal digits are, stored in an output from a position on; the position after them.
fn hex_bytes(text: &[u8], out: &mut [u8], from: usize) -> Option<usize>
    requires { from ≤ max_bytes }
    ensures { Stores (hex_bytes text.now) out.old from out.new result }
{
    if text.len() % 2 != 0 {
        return None;
    }
    let size = text.len() / 2;
    for i in 0..size {
        let high = job_numbers::hex_digit(text[2 * i])?;
        let low = job_numbers::hex_digit(text[2 * i + 1])?;
        tables::put(out, from + i, high * 16 + low);
    }
    Some(from + size)
}

// The words of exactly so many fields, stored in an output from a position on; the position after them.
fn words(text: &[u8], width: usize, out: &mut [u32], from: usize) -> Option<usize>
    requires { (length text.now ≤ max_file) × (width ≤ 5) × (from ≤ max_words) }
    ensures { Stores (words_of width (fields_of text.now)) out.old from out.new result }
{
    let mut start = 0;
    for i in 0..width {
        if text.len() < start {
            return None;
        }
        let end = field_end(text, start);
        let w = job_numbers::read_word(&text[start..end])?;
        tables::put(out, from + i, w);
        start = end + 1;
    }
    if start <= text.len() {
        return None;
    }
    Some(from + width)
}

// The bytes of a string line, stored after those of the strings before it.
fn string_line(line: &[u8], bytes: &mut [u8], from: usize) -> Option<usize>
    requires { from ≤ max_bytes }
    ensures { Stores (string_after from line.now) bytes.old from bytes.new result }
{
    let to = hex_bytes(line.strip_prefix(b"s=")?, bytes, from)?;
    if strings::MAX_BYTES < to {
        return None;
    }
    Some(to)
}

// The words of a row line, stored after those of the rows before it.
fn row_line(line: &[u8], key: &[u8], width: usize, out: &mut [u32], from: usize) -> Option<usize>
    requires { (length line.now ≤ max_file) × (width ≤ 5) × (from ≤ max_words) }
    ensures { Stores (row_of key.now width line.now) out.old from out.new result }
{
    words(line.strip_prefix(key)?, width, out, from)
}

// The count of a line, up to a limit.
fn count_of(line: &[u8], key: &[u8], limit: usize) -> Option<u32>
    ensures { result ≡ count key.now limit line.now }
{
    let n = job_numbers::read_number(line.strip_prefix(key)?)?;
    if limit < n as usize {
        return None;
    }
    Some(n)
}

// Where the line ends that is nothing but a text.
fn literal_line(file: &[u8], at: usize, text: &[u8]) -> Option<usize>
    ensures { LiteralLine text.now file.now at result }
{
    let e = line_end(file, at)?;
    if &file[at..e] == text { Some(e) } else { None }
}

// A count line: the count, and where the next line starts.
fn count_line(file: &[u8], at: usize, key: &[u8], limit: usize) -> Option<(u32, usize)>
    ensures { CountLine key.now limit file.now at result }
{
    let e = line_end(file, at)?;
    let n = count_of(&file[at..e], key, limit)?;
    Some((n, e + 1))
}

// So many string lines, into an output for the bytes and one for the ends.
fn read_strings(
    file: &[u8],
    at: usize,
    line: u32,
    count: u32,
    bytes: &mut [u8],
    ends: &mut [u32],
) -> Result<Section, u32>
    requires { (line ≤ max_file) × (count ≤ max_strings) }
    ensures { StringSection (read_strings count line (lines_of (drop at file.now))) file.now bytes.old ends.old
        bytes.new ends.new count (line + count) result }
{
    let mut start = at;
    let mut used = 0;
    for k in 0..count {
        let e = line_end(file, start).ok_or(line + k)?;
        let to = string_line(&file[start..e], bytes, used).ok_or(line + k)?;
        tables::put(ends, k as usize, to as u32);
        start = e + 1;
        used = to;
    }
    Ok(Section {
        next: start,
        line: line + count,
        words: used,
    })
}

// So many row lines, into an output for their words.
fn read_rows(
    file: &[u8],
    at: usize,
    line: u32,
    count: u32,
    key: &[u8],
    width: usize,
    out: &mut [u32],
) -> Result<Section, u32>
    requires { (length file.now ≤ max_file) × (line ≤ max_file) × (count ≤ max_nodes) × (width ≤ 5) }
    ensures { RowSection key.now width (read_rows count line (lines_of (drop at file.now))) file.now out.old
        out.new (line + count) result }
{
    let mut start = at;
    let mut used = 0;
    for k in 0..count {
        let e = line_end(file, start).ok_or(line + k)?;
        let to = row_line(&file[start..e], key, width, out, used).ok_or(line + k)?;
        start = e + 1;
        used = to;
    }
    Ok(Section {
        next: start,
        line: line + count,
        words: used,
    })
}

// A table: its count line and its rows.
fn read_table(
    file: &[u8],
    at: usize,
    line: u32,
    counted: &[u8],
    limit: usize,
    key: &[u8],
    width: usize,
    out: &mut [u32],
) -> Result<Section, u32>
    requires { (length file.now ≤ max_file) × (line < max_file) × (limit ≤ max_nodes) × (width ≤ 5) }
    ensures { RowSection key.now width (read_table counted.now limit line (lines_of (drop at file.now))) file.now
        out.old out.new (line + 1 + limit) result }
{
    let (rows, next) = count_line(file, at, counted, limit).ok_or(line)?;
    read_rows(file, next, line + 1, rows, key, width, out)
}

// The last line, and that nothing comes after it; otherwise the first wrong line.
fn end_line(file: &[u8], at: usize, line: u32) -> Result<(), u32>
    requires { line ≤ max_file }
    ensures { EndLine file.now line at result }
{
    let e = literal_line(file, at, b"end=1").ok_or(line)?;
    if e + 1 < file.len() {
        return Err(line + 1);
    }
    Ok(())
}

// The first line and the strings, into an output for the bytes and one for the ends.
fn read_front(file: &[u8], bytes: &mut [u8], ends: &mut [u32]) -> Result<Front, u32>
    ensures { FrontRead file.now bytes.old ends.old bytes.new ends.new result }
{
    let e = literal_line(file, 0, b"rng=1").ok_or(1u32)?;
    let (count, at) = count_line(file, e + 1, b"strings=", strings::MAX_STRINGS).ok_or(2u32)?;
    let read = read_strings(file, at, 3, count, bytes, ends)?;
    Ok(Front {
        next: read.next,
        line: read.line,
        bytes: read.words,
        strings: count as usize,
    })
}

// The two tables of rows and the last line, from a position and a line on.
fn read_back(
    file: &[u8],
    at: usize,
    line: u32,
    schema: &mut [u32],
    instance: &mut [u32],
) -> Result<Back, u32>
    requires { (length file.now ≤ max_file) × (line ≤ max_front) }
    ensures { BackRead file.now line (lines_of (drop at file.now)) schema.old instance.old schema.new
        instance.new result }
{
    let rows = read_table(
        file,
        at,
        line,
        b"schema=",
        schema::MAX_ROWS,
        b"row=",
        3,
        schema,
    )?;
    let nodes = read_table(
        file,
        rows.next,
        rows.line,
        b"instance=",
        instance::MAX_NODES,
        b"node=",
        5,
        instance,
    )?;
    end_line(file, nodes.next, nodes.line)?;
    Ok(Back {
        schema: rows.words,
        instance: nodes.words,
    })
}

// The lines of a file, each table stored from the front of its output as far as it fits; where a line is wrong, what
// was stored before it is found is left.
fn read_lines(
    file: &[u8],
    bytes: &mut [u8],
    ends: &mut [u32],
    schema: &mut [u32],
    instance: &mut [u32],
) -> Result<Lengths, u32>
    ensures { LinesHeld file.now bytes.old ends.old schema.old instance.old bytes.new
        ends.new schema.new instance.new result }
{
    if job::MAX_FILE < file.len() {
        return Err(0);
    }
    let front = read_front(file, bytes, ends)?;
    let back = read_back(file, front.next, front.line, schema, instance)?;
    Ok(Lengths {
        bytes: front.bytes,
        ends: front.strings,
        schema: back.schema,
        instance: back.instance,
    })
}

// All four outputs are zeros throughout.
pub fn zero_outputs(bytes: &mut [u8], ends: &mut [u32], schema: &mut [u32], instance: &mut [u32])
    ensures { OutputsHold no_tables (room_of bytes.old ends.old schema.old instance.old) bytes.new
        ends.new schema.new instance.new }
{
    tables::zero(bytes);
    tables::zero(ends);
    tables::zero(schema);
    tables::zero(instance);
}

// The first wrong line, and zeros in the outputs, exactly when a file reads as no job, where a file that is too long is
// wrong at 0; otherwise the lengths of the four tables, each in its output as far as it fits, with zeros after it.
pub fn read_tables(
    file: &[u8],
    bytes: &mut [u8],
    ends: &mut [u32],
    schema: &mut [u32],
    instance: &mut [u32],
) -> Result<Lengths, u32>
    ensures answer { result ≡ held_as (read_job file.now) }
    ensures outputs { OutputsHold (tables_in (read_job file.now))
        (room_of bytes.old ends.old schema.old instance.old) bytes.new ends.new
        schema.new instance.new }
{
    zero_outputs(bytes, ends, schema, instance);
    let held = read_lines(file, bytes, ends, schema, instance);
    if held.is_err() {
        zero_outputs(bytes, ends, schema, instance);
    }
    held
}
