// The tokens of a string against the pattern of a list, each row of the pattern visited once a token.
#![tactic(auto)]

ghost use Rattle.std.specs.Prelude.{◌≡◌, ◌&&◌, ◌||◌, [], ◌∷◌, ◌≤◌, ◌<◌, length, set};
ghost use Rattle.tables.specs.Answers.{Decides};
ghost use Rattle.tables.specs.Tables.{string_table};
ghost use Rattle.strings.specs.Strings.{text_of, max_bytes};
ghost use Rattle.datatypes.specs.Split.{Token};
ghost use Rattle.schema.specs.Kinds as kind;
ghost use Rattle.schema.specs.Rows.{kind_of, a_of, b_of};
ghost use Rattle.matching_rules.specs.Items.{string};
ghost use Rattle.matching_rules.specs.Job.{datatype_equal};
ghost use Rattle.matching_tokens.specs.MarkTable.{TokenReady, PlainAt, mark, marked, LeafSteps, Steps, TwoSteps};
ghost use Rattle.matching_tokens.specs.Tokens.{OneToken, TokenPlaces, PlaceRoom, DecidesAt};
ghost use Rattle.matching_tokens.specs.Tokens.{NothingUpTo, ListReady, TokensMatch};

use std::ops::Range;

// Where the one token of a text stands; an empty range where there is none, or more than one.
fn one_token(text: &[u8]) -> Range<usize>
    requires { length text.now ≤ max_bytes }
    ensures { OneToken text.now result.start result.end × (result.start ≤ max_bytes) × (result.end ≤ max_bytes) }
{
    let from = datatypes::skip_space(text, 0);
    let to = datatypes::token_end(text, from);
    let next = datatypes::skip_space(text, to);
    if next < text.len() {
        return 0..0;
    }
    from..to
}

// For each string, at two words of places, a part of its text that is a token exactly where that is the one token of
// the text. Which empty part stands for no token or several, and what stands past the words of the strings, is left
// open. The caller shows that there are at most 16,384 bytes, and two words for each string.
pub fn find_tokens(bytes: &[u8], ends: &[u32], places: &mut [u32])
    requires { PlaceRoom (string_table bytes.now ends.now) places.old }
    ensures { TokenPlaces (string_table bytes.now ends.now) places.new }
{
    for k in 0..ends.len() {
        let one = one_token(strings::text(bytes, ends, k));
        places[k * 2] = one.start as u32;
        places[k * 2 + 1] = one.end as u32;
    }
}

// Whether a token is one value with string v: as a string where it has the same bytes, and otherwise where it is the
// string's one token.
fn same_value(
    bytes: &[u8],
    ends: &[u32],
    places: &[u32],
    datatype: u32,
    v: u32,
    token: &[u8],
) -> bool
    requires { TokenPlaces (string_table bytes.now ends.now) places.now × Token token.now }
    ensures { Decides (datatype_equal datatype token.now (text_of (string_table bytes.now ends.now) v)) result }
{
    let at = v as usize;
    let own = strings::text(bytes, ends, at);
    if datatype == 0 {
        return token == own;
    }
    let from = tables::at(places, at * 2) as usize;
    let to = tables::at(places, at * 2 + 1) as usize;
    tables::part(own, from, to) == token
}

// Whether a token alone matches the plain pattern at a row.
fn fits(bytes: &[u8], ends: &[u32], schema: &[u32], places: &[u32], p: u32, token: &[u8]) -> bool
    requires { TokenReady (string_table bytes.now ends.now) schema.now places.now token.now
        × PlainAt (string_table bytes.now ends.now) schema.now p }
    ensures { DecidesAt (string_table bytes.now ends.now) schema.now p (string token.now ∷ []) result }
{
    let kind = schema::kind(schema, p);
    let a = schema::field_a(schema, p);
    let b = schema::field_b(schema, p);
    match kind {
        schema::DATA => b == schema::NO_ROW || !fits(bytes, ends, schema, places, b, token),
        schema::VALUE => same_value(bytes, ends, places, a, b, token),
        schema::CHOICE => {
            fits(bytes, ends, schema, places, a, token)
                || fits(bytes, ends, schema, places, b, token)
        }
        _ => false,
    }
}

// Whether row p has a mark.
pub fn is_marked(marks: &[u8], p: u32) -> bool
    ensures { result ≡ marked marks.now p }
{
    tables::at(marks, p as usize) == 1
}

fn put(marks: &mut [u8], p: u32, done: bool)
    ensures { marks.new ≡ set marks.old p (mark done) }
{
    tables::put(marks, p as usize, u8::from(done));
}

// Whether a way in is open: the first where it is free, or the other.
fn both_or(first: bool, free: bool, other: bool) -> bool
    ensures { result ≡ (first && free || other) }
{
    first && free || other
}

// A data or value takes the token where it is entered.
fn leaf(
    bytes: &[u8],
    ends: &[u32],
    schema: &[u32],
    places: &[u32],
    p: u32,
    enter: bool,
    token: &[u8],
    marks: &mut [u8],
) -> bool
    requires { TokenReady (string_table bytes.now ends.now) schema.now places.now token.now
        × PlainAt (string_table bytes.now ends.now) schema.now p }
    ensures { LeafSteps (string_table bytes.now ends.now) schema.now p enter token.now
        marks.old marks.new result }
{
    let taken = enter && fits(bytes, ends, schema, places, p, token);
    put(marks, p, taken);
    taken
}

// The two parts of a row: the second is entered where onward says so. The row is completed where the second part is,
// and where the first is and may be the last.
#[cycle(group_one_or_more_step_two_parts)]
fn two_parts(
    bytes: &[u8],
    ends: &[u32],
    schema: &[u32],
    places: &[u32],
    nothing: &[u8],
    p: u32,
    enter: bool,
    onward: bool,
    last: bool,
    token: &[u8],
    marks: &mut [u8],
) -> bool
    requires { TokenReady (string_table bytes.now ends.now) schema.now places.now token.now
        × NothingUpTo (string_table bytes.now ends.now) schema.now nothing.now p × (a_of schema.now p < p) × (b_of schema.now p < p) }
    ensures { TwoSteps (string_table bytes.now ends.now) schema.now p enter onward last token.now
        marks.old marks.new result }
{
    let a = schema::field_a(schema, p);
    let b = schema::field_b(schema, p);
    let first = step(bytes, ends, schema, places, nothing, a, enter, token, marks);
    let then = step(
        bytes, ends, schema, places, nothing, b, onward, token, marks,
    );
    let done = both_or(first, last, then);
    put(marks, p, done);
    done
}

// The second part of a group is entered with it where the first may be empty, and where the first has just been
// completed.
#[cycle(group_one_or_more_step_two_parts)]
fn group(
    bytes: &[u8],
    ends: &[u32],
    schema: &[u32],
    places: &[u32],
    nothing: &[u8],
    p: u32,
    enter: bool,
    token: &[u8],
    marks: &mut [u8],
) -> bool
    requires { TokenReady (string_table bytes.now ends.now) schema.now places.now token.now
        × NothingUpTo (string_table bytes.now ends.now) schema.now nothing.now p × (kind_of schema.now p ≡ kind.group) }
    ensures { Steps (string_table bytes.now ends.now) schema.now p enter token.now marks.old
        marks.new result }
{
    let a = schema::field_a(schema, p);
    let free = is_marked(nothing, a);
    let before = is_marked(marks, a);
    let onward = both_or(enter, free, before);
    let last = is_marked(nothing, schema::field_b(schema, p));
    two_parts(
        bytes, ends, schema, places, nothing, p, enter, onward, last, token, marks,
    )
}

// The part of a oneOrMore is entered with it, and again where it has just been completed.
#[cycle(group_one_or_more_step_two_parts)]
fn one_or_more(
    bytes: &[u8],
    ends: &[u32],
    schema: &[u32],
    places: &[u32],
    nothing: &[u8],
    p: u32,
    enter: bool,
    token: &[u8],
    marks: &mut [u8],
) -> bool
    requires { TokenReady (string_table bytes.now ends.now) schema.now places.now token.now
        × NothingUpTo (string_table bytes.now ends.now) schema.now nothing.now p × (kind_of schema.now p ≡ kind.one_or_more) }
    ensures { Steps (string_table bytes.now ends.now) schema.now p enter token.now marks.old
        marks.new result }
{
    let a = schema::field_a(schema, p);
    let again = is_marked(marks, a);
    let inner = both_or(enter, true, again);
    let done = step(bytes, ends, schema, places, nothing, a, inner, token, marks);
    put(marks, p, done);
    done
}

// One token: whether it completes the pattern at the row, entered before it or not. The table has the mark of each row
// after the token before, and then after this one.
#[cycle(group_one_or_more_step_two_parts)]
fn step(
    bytes: &[u8],
    ends: &[u32],
    schema: &[u32],
    places: &[u32],
    nothing: &[u8],
    p: u32,
    enter: bool,
    token: &[u8],
    marks: &mut [u8],
) -> bool
    requires { TokenReady (string_table bytes.now ends.now) schema.now places.now token.now
        × NothingUpTo (string_table bytes.now ends.now) schema.now nothing.now p }
    ensures { Steps (string_table bytes.now ends.now) schema.now p enter token.now marks.old
        marks.new result }
{
    let kind = schema::kind(schema, p);
    match kind {
        schema::DATA | schema::VALUE => leaf(bytes, ends, schema, places, p, enter, token, marks),
        schema::ONE_OR_MORE => one_or_more(
            bytes, ends, schema, places, nothing, p, enter, token, marks,
        ),
        schema::CHOICE => two_parts(
            bytes, ends, schema, places, nothing, p, enter, enter, true, token, marks,
        ),
        schema::GROUP => group(bytes, ends, schema, places, nothing, p, enter, token, marks),
        _ => false,
    }
}

// Yes exactly when the tokens of a text, as a sequence of strings with no attributes, match the pattern at row p,
// whatever the instance is. The caller shows that the schema passes, that the pattern may stand in a list, where the
// tokens of values are, and which patterns up to the row match nothing. The pattern is entered before the first token.
pub fn tokens_match(
    bytes: &[u8],
    ends: &[u32],
    schema: &[u32],
    places: &[u32],
    nothing: &[u8],
    text: &[u8],
    p: u32,
) -> bool
    requires { ListReady (string_table bytes.now ends.now) schema.now places.now nothing.now p }
    ensures { TokensMatch (string_table bytes.now ends.now) schema.now text.now p result }
{
    let mut marks = [0u8; schema::MAX_ROWS];
    let mut at = datatypes::skip_space(text, 0);
    let mut enter = true;
    let mut done = is_marked(nothing, p);
    // A walk from token to token, not a count: where the next one begins is found on the way.
    while at < text.len() {
        let end = datatypes::token_end(text, at);
        let token = tables::part(text, at, end);
        done = step(
            bytes, ends, schema, places, nothing, p, enter, token, &mut marks,
        );
        enter = false;
        at = datatypes::skip_space(text, end);
    }
    done
}
