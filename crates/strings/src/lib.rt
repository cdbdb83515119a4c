// The string table: its rule with code 1, and the text of a string.
#![tactic(auto)]

ghost use Rattle.std.specs.Prelude.{◌≡◌, ◌≤◌, ◌<◌, length};
ghost use Rattle.tables.specs.Answers.{Decides};
ghost use Rattle.tables.specs.Checks.{Finds};
ghost use Rattle.tables.specs.Place.{Part};
ghost use Rattle.tables.specs.Tables.{string_table};
ghost use Rattle.strings.specs.Strings.{start_of, end_of, Falls, RepeatsText};
ghost use Rattle.strings.specs.Strings.{FrontFault, EndFault, StringFault, max_strings};
ghost use Rattle.strings.specs.Chains.{hash_of, hash_at, LastOf, Linked};
ghost use Rattle.strings.specs.Text.{StringText};

pub const MAX_STRINGS: usize = 512;

pub const MAX_BYTES: usize = 16384;

// Where string k starts: at the end of the string before, and string 0 at 0.
pub fn start(ends: &[u32], k: usize) -> usize
    ensures { result ≡ start_of ends.now k }
{
    if k == 0 {
        0
    } else {
        tables::at(ends, k - 1) as usize
    }
}

// The text of string k as a part of the lent bytes, from its start to its end, as `tables::part` gives it for any ends.
pub fn text<'a>(bytes: &'a [u8], ends: &[u32], k: usize) -> &'a [u8]
    ensures { Part bytes.entry (start_of ends.now k) (end_of ends.now k) result }
{
    let from = start(ends, k);
    let to = tables::at(ends, k) as usize;
    tables::part(bytes, from, to)
}

// The first string whose end is before its start.
fn first_fall(ends: &[u32]) -> Result<(), u32>
    requires { length ends.now ≤ max_strings }
    ensures { Finds (Falls ends.now) result }
{
    for k in 0..ends.len() {
        if (ends[k] as usize) < start(ends, k) {
            return Err(k as u32);
        }
    }
    Ok(())
}

// A number below 512 of a text: texts with different numbers differ.
fn hash(text: &[u8]) -> usize
    ensures { result ≡ hash_of text.now }
{
    let first = tables::at(text, 0) as usize;
    let second = tables::at(text, 1) as usize;
    let middle = tables::at(text, text.len() / 2) as usize;
    (text.len() % 512 + first * 37 + second * 17 + middle * 5) % 512
}

// Whether a string before k has the text of string k. Only strings with its hash can; they are visited from the last
// one on, whose number is one less than `last`.
fn repeats(bytes: &[u8], ends: &[u32], prior: &[u32; 512], last: u32, k: usize) -> bool
    requires { (k < length ends.now) × (k < 512) × LastOf (string_table bytes.now ends.now) (hash_at (string_table bytes.now ends.now) k) k last
        × Linked (string_table bytes.now ends.now) prior.now k }
    ensures { Decides (RepeatsText (string_table bytes.now ends.now) k) result }
{
    let own = text(bytes, ends, k);
    let mut m = last;
    while 0 < m {
        let j = m as usize - 1;
        if text(bytes, ends, j) == own {
            return true;
        }
        m = prior[j];
    }
    false
}

// The first string that has the text of one before it. For each hash, `last` has one more than the number of the last
// string with it, and 0 where there is none; `prior` has for each string what `last` had for its hash.
fn first_repeat(bytes: &[u8], ends: &[u32]) -> Result<(), u32>
    requires { length ends.now ≤ max_strings }
    ensures { Finds (RepeatsText (string_table bytes.now ends.now)) result }
{
    let mut last = [0u32; 512];
    let mut prior = [0u32; 512];
    for k in 0..ends.len() {
        let h = hash(text(bytes, ends, k));
        let m = last[h];
        if repeats(bytes, ends, &prior, m, k) {
            return Err(k as u32);
        }
        prior[k] = m;
        last[h] = k as u32 + 1;
    }
    Ok(())
}

// The number of strings, the number of bytes, and string 0.
fn check_front(bytes: &[u8], ends: &[u32]) -> Result<(), u32>
    ensures { Finds (FrontFault (string_table bytes.now ends.now)) result }
{
    if ends.is_empty() || MAX_STRINGS < ends.len() || MAX_BYTES < bytes.len() || ends[0] != 0 {
        return Err(0);
    }
    Ok(())
}

// The counts and the ends.
fn check_ends(bytes: &[u8], ends: &[u32]) -> Result<(), u32>
    ensures { Finds (EndFault (string_table bytes.now ends.now)) result }
{
    check_front(bytes, ends)?;
    first_fall(ends)?;
    let last = ends.len() - 1;
    if ends[last] as usize != bytes.len() {
        return Err(last as u32);
    }
    Ok(())
}

// Code 1: `Ok` exactly when the strings keep their rule, and otherwise the smallest place at which they break it.
pub fn check_strings(bytes: &[u8], ends: &[u32]) -> Result<(), u32>
    ensures { Finds (StringFault (string_table bytes.now ends.now)) result }
{
    check_ends(bytes, ends)?;
    first_repeat(bytes, ends)
}

// The text of string k as a part of the lent bytes; an empty part from their start where the strings break their rule
// or have no string k.
pub fn string_text<'a>(bytes: &'a [u8], ends: &[u32], k: u32) -> &'a [u8]
    ensures { StringText bytes.entry ends.now k result }
{
    match check_strings(bytes, ends) {
        Ok(()) if (k as usize) < ends.len() => text(bytes, ends, k as usize),
        _ => &bytes[..0],
    }
}
