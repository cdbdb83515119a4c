// Texts put into a lent output as far as they fit: that of a job, and what `check` prints.
#![tactic(auto)]

ghost use Rattle.std.specs.Prelude.{◌≡◌, [], ◌∷◌, ◌++◌, ◌+◌, ◌*◌, ◌%◌, ◌≤◌, ◌<◌, length};
ghost use Rattle.tables.specs.Tables.{string_table, tables_of};
ghost use Rattle.strings.specs.Strings.{text_of, max_strings, max_bytes};
ghost use Rattle.job.specs.Ascii.{ascii};
ghost use Rattle.job.specs.Lines.{line_feed, text_of_lines};
ghost use Rattle.job.specs.Numbers.{decimal, word_text, words_text, hex_digit, hex_text};
ghost use Rattle.job.specs.Written.{string_lines, row_lines, job_text};
ghost use Rattle.job.specs.Reported.{valid_line, match_text, refusal_text};
ghost use Rattle.job_texts.specs.Writing.{Puts, Wrote, far, Sized, Kept, TextIn};

// The hexadecimal digit of a number below 16.
fn hex_digit(n: u8) -> u8
    requires { n < 16 }
    ensures { result ≡ hex_digit n }
{
    if n < 10 { 48 + n } else { 87 + n }
}

// A number in decimal digits from a position on; the position after them. A function and no method of the writer: where
// a method calls itself, the compiler keeps the writer in memory, and its position after each byte.
fn put_number(out: &mut [u8], at: usize, n: u32) -> usize
    requires { at + 10 < far }
    ensures { Wrote out.old at (decimal n) out.new result }
{
    if n < 10 {
        tables::put(out, at, (48 + n) as u8);
        return at + 1;
    }
    let to = put_number(out, at, n / 10);
    tables::put(out, to, (48 + n % 10) as u8);
    to + 1
}

// The line of the verdict.
fn verdict_line(valid: bool) -> &'static [u8]
    ensures { result.now ≡ valid_line valid ++ line_feed ∷ [] }
{
    if valid { b"valid=yes\n" } else { b"valid=no\n" }
}

// An output, and the position where the next text goes. Past the end of the output a text is counted and not stored.
#[derive(Drop)]
struct Writer<'a> {
    out: &'a mut [u8],
    at: usize,
}

impl<'a> Writer<'a> {
    // A byte.
    fn byte(&mut self, b: u8)
        requires { self.old.at < far }
        ensures { Puts self.old (b ∷ []) self.new }
    {
        tables::put(self.out, self.at, b);
        self.at += 1;
    }

    // A text as it is.
    fn text(&mut self, text: &[u8])
        requires { self.old.at + length text.now < far }
        ensures { Puts self.old text.now self.new }
    {
        for b in text {
            self.byte(*b);
        }
    }

    // A number in decimal digits.
    fn number(&mut self, n: u32)
        requires { self.old.at + 10 < far }
        ensures { Puts self.old (decimal n) self.new }
    {
        self.at = put_number(self.out, self.at, n);
    }

    // A word: `-` for the largest.
    fn word(&mut self, w: u32)
        requires { self.old.at + 10 < far }
        ensures { Puts self.old (word_text w) self.new }
    {
        if w == u32::MAX {
            self.byte(b'-');
        } else {
            self.number(w);
        }
    }

    // The hexadecimal digits of a text, two for each byte.
    fn hex(&mut self, text: &[u8])
        requires { self.old.at + 2 * length text.now < far }
        ensures { Puts self.old (hex_text text.now) self.new }
    {
        for b in text {
            self.byte(hex_digit(b / 16));
            self.byte(hex_digit(b % 16));
        }
    }

    // The words of a row, with a comma between.
    fn words(&mut self, row: &[u32])
        requires { (length row.now ≤ 5) × (self.old.at + 100 < far) }
        ensures { Puts self.old (words_text row.now) self.new }
    {
        let [first, rest @ ..] = row else {
            return;
        };
        self.word(*first);
        for w in rest {
            self.byte(b',');
            self.word(*w);
        }
    }

    // The line of a string.
    fn string(&mut self, bytes: &[u8], ends: &[u32], k: usize)
        requires { (length bytes.now ≤ max_bytes) × (self.old.at + 40000 < far) }
        ensures puts { Puts self.old
            ((ascii "s=" ++ hex_text (text_of (string_table bytes.now ends.now) k)) ++ line_feed ∷ []) self.new }
        ensures near { self.new.at ≤ self.old.at + 40000 }
    {
        self.text(b"s=");
        self.hex(strings::text(bytes, ends, k));
        self.byte(b'\n');
    }

    // The lines of all strings.
    fn strings(&mut self, bytes: &[u8], ends: &[u32])
        requires { (length bytes.now ≤ max_bytes) × (length ends.now ≤ max_strings) × (self.old.at ≤ 100) }
        ensures puts { Puts self.old
            (text_of_lines (string_lines (string_table bytes.now ends.now) 0 (length ends.now))) self.new }
        ensures near { self.new.at ≤ 100 + 40000 * max_strings }
    {
        for k in 0..ends.len() {
            self.string(bytes, ends, k);
        }
    }

    // The line of a count.
    fn count(&mut self, key: &[u8], n: u32)
        requires { (length key.now ≤ 9) × (self.old.at + 100 < far) }
        ensures puts { Puts self.old ((key.now ++ decimal n) ++ line_feed ∷ []) self.new }
        ensures near { self.new.at ≤ self.old.at + 20 }
    {
        self.text(key);
        self.number(n);
        self.byte(b'\n');
    }

    // The line of a row.
    fn row(&mut self, key: &[u8], row: &[u32])
        requires { (length row.now ≤ 5) × (length key.now ≤ 5) × (self.old.at + 200 < far) }
        ensures puts { Puts self.old ((key.now ++ words_text row.now) ++ line_feed ∷ []) self.new }
        ensures near { self.new.at ≤ self.old.at + 100 }
    {
        self.text(key);
        self.words(row);
        self.byte(b'\n');
    }

    // The lines of all rows of a table.
    fn rows(&mut self, key: &[u8], table: &[u32], width: usize, rows: usize)
        requires { (width ≤ 5) × (length table.now ≡ rows * width) × (length key.now ≤ 5) × (rows ≤ 8192)
            × (self.old.at ≤ 100000000) }
        ensures puts { Puts self.old (text_of_lines (row_lines key.now width rows table.now)) self.new }
        ensures near { self.new.at ≤ self.old.at + 819200 }
    {
        for i in 0..rows {
            let first = i * width;
            self.row(key, &table[first..first + width]);
        }
    }
}

// The text of a job whose tables keep their limits, as the caller shows, from the front of the output as far as it
// fits, and its length; what comes after it is as it was.
pub fn put_job(
    out: &mut [u8],
    bytes: &[u8],
    ends: &[u32],
    schema: &[u32],
    instance: &[u32],
) -> usize
    requires { Sized (tables_of (string_table bytes.now ends.now) schema.now instance.now) }
    ensures { Wrote out.old 0
        (job_text (tables_of (string_table bytes.now ends.now) schema.now instance.now)) out.new result }
{
    let rows = schema.len() / 3;
    let nodes = instance.len() / 5;
    let mut to = Writer { out, at: 0 };
    to.text(b"rng=1\n");
    to.count(b"strings=", ends.len() as u32);
    to.strings(bytes, ends);
    to.count(b"schema=", rows as u32);
    to.rows(b"row=", schema, 3, rows);
    to.count(b"instance=", nodes as u32);
    to.rows(b"node=", instance, 5, nodes);
    to.text(b"end=1\n");
    to.at
}

// The verdict, the number of pairs and the pairs.
fn put_matches(out: &mut [u8], valid: bool, list: &[u32]) -> usize
    requires { (length list.now ≤ 16384) × (length list.now % 2 ≡ 0) }
    ensures wrote { Wrote out.old 0 (match_text valid list.now) out.new result }
    ensures near { result ≤ 820000 }
{
    let n = list.len() / 2;
    let mut to = Writer { out, at: 0 };
    to.text(verdict_line(valid));
    to.count(b"pairs=", n as u32);
    to.rows(b"pair=", list, 2, n);
    to.at
}

// The line of a refusal.
fn put_refusal(out: &mut [u8], code: u32, place: u32) -> usize
    ensures wrote { Wrote out.old 0 (refusal_text code place) out.new result }
    ensures near { result ≤ 40 }
{
    let mut to = Writer { out, at: 0 };
    to.text(b"refusal=");
    to.number(code);
    to.byte(b',');
    to.number(place);
    to.byte(b'\n');
    to.at
}

// The length of a text that was put, or 0 with the output zeroed where it is too short for the text.
fn kept(out: &mut [u8], size: usize) -> u32
    requires { size ≤ 820000 }
    ensures { Kept out.old size out.new result }
{
    if out.len() < size {
        tables::zero(out);
        return 0;
    }
    size as u32
}

// The lines of the verdict, of the number of pairs and of each pair, with zeros after them, and their length; zeros and
// 0 in an output that is too short. The caller shows that the list has an even number of words, at most 16,384.
pub fn write_matches(valid: bool, list: &[u32], out: &mut [u8]) -> u32
    requires { (length list.now ≤ 16384) × (length list.now % 2 ≡ 0) }
    ensures { TextIn (match_text valid list.now) (length out.old) out.new result }
{
    tables::zero(out);
    let size = put_matches(out, valid, list);
    kept(out, size)
}

// The one line of a refusal, with zeros after it, and its length; zeros and 0 in an output that is too short.
pub fn write_refusal(code: u32, place: u32, out: &mut [u8]) -> u32
    ensures { TextIn (refusal_text code place) (length out.old) out.new result }
{
    tables::zero(out);
    let size = put_refusal(out, code, place);
    kept(out, size)
}
