// Which strings match a pattern alone, and which patterns match nothing at all.
#![tactic(auto)]

ghost use Rattle.std.specs.Prelude.{◌≡◌, true, ◌⊎◌, ◌≢◌, List, ℕ, ◌<◌, ◌≤◌, length, get_or};
ghost use Rattle.tables.specs.Answers.{Decides};
ghost use Rattle.tables.specs.Tables.{string_table};
ghost use Rattle.strings.specs.Strings.{text_of, max_bytes};
ghost use Rattle.schema_restrictions.specs.Schema.{SchemaPasses};
ghost use Rattle.matching_rules.specs.Job.{datatype_equal};
ghost use Rattle.matching_tokens.specs.MarkTable.{mark};
ghost use Rattle.matching_tokens.specs.Tokens.{ListReady};
ghost use Rattle.schema.specs.Kinds.{no_row, value};
ghost use Rattle.schema.specs.Rows.{kind_of};
ghost use Rattle.matching_alone.specs.Alone.{Blank, Alone, FillReady, Filled};
ghost use Rattle.matching_alone.specs.Rows.{EitherOf, NotOf, DataEntry, OneOf, EqualTo, TokensTo, SameRow};
ghost use Rattle.matching_alone.specs.Rows.{lead_of, LeadsTo, NothingAt, RowOf, SaidBy};
ghost use Rattle.matching_alone.specs.Rows.{Fillable, FillableList, RowMade};

// Whether one of two entries is 1.
fn either(x: u8, y: u8) -> bool
    ensures { Decides ((x ≡ 1) ⊎ (y ≡ 1)) result }
{
    x == 1 || y == 1
}

// Whether two texts are one value of a datatype.
fn same_value(datatype: u32, a: &[u8], b: &[u8]) -> bool
    ensures { Decides (datatype_equal datatype a.now b.now) result }
{
    if datatype == 0 {
        datatypes::same_string(a, b)
    } else {
        datatypes::same_token(a, b)
    }
}

// Whether the pattern at row p matches the empty sequence, by the rows before it.
fn nothing_at(schema: &[u32], nothing: &[u8], p: u32) -> bool
    ensures { NothingAt schema.now nothing.now p (mark result) }
{
    let kind = schema::kind(schema, p);
    let a = matching_tokens::is_marked(nothing, schema::field_a(schema, p));
    let b = matching_tokens::is_marked(nothing, schema::field_b(schema, p));
    match kind {
        schema::EMPTY | schema::TEXT => true,
        schema::ONE_OR_MORE => a,
        schema::CHOICE => a || b,
        schema::GROUP | schema::INTERLEAVE => a && b,
        _ => false,
    }
}

// The first character of a text that is no whitespace character, 0 where there is none.
fn lead(text: &[u8]) -> u8
    ensures { result ≡ lead_of text.now }
{
    tables::at(text, datatypes::skip_space(text, 0))
}

// The lead of each string.
fn fill_leads(bytes: &[u8], ends: &[u32], leads: &mut [u8])
    requires { (length ends.now ≤ 512) × (512 ≤ length leads.old) }
    ensures { LeadsTo (string_table bytes.now ends.now) leads.new (length ends.now) }
{
    for k in 0..ends.len() {
        leads[k] = lead(strings::text(bytes, ends, k));
    }
}

// Whether string k is one value with the text own, whose lead is first: it can be only with the same lead.
fn equal_at(
    bytes: &[u8],
    ends: &[u32],
    leads: &[u8],
    datatype: u32,
    own: &[u8],
    first: u8,
    k: usize,
) -> bool
    requires { (first ≡ lead_of own.now) × (get_or leads.now k 0 ≡ lead_of (text_of (string_table bytes.now ends.now) k)) }
    ensures { Decides (datatype_equal datatype (text_of (string_table bytes.now ends.now) k) own.now) result }
{
    tables::at(leads, k) == first && same_value(datatype, strings::text(bytes, ends, k), own)
}

// The first n entries of row p become v.
fn fill_same(alone: &mut [u8], p: u32, n: usize, v: u8)
    requires { (p < 512) × (n ≤ 512) × (262144 ≤ length alone.old) }
    ensures { RowOf (λ k x. x ≡ v) alone.old alone.new p n }
{
    let to = p as usize * 512;
    alone[to..to + n].fill(v);
}

// The first n entries of row p become 1 where a test says yes of their strings, and 0 where it says no.
fn fill_by<F: Fn(usize) -> bool>(alone: &mut [u8], p: u32, n: usize, test: F)
    requires room { (p < 512) × (n ≤ 512) × (262144 ≤ length alone.old) }
    requires callable { (k : ℕ) → k < n → F.pre test k }
    ensures { RowOf (SaidBy (F.post test)) alone.old alone.new p n }
{
    let to = p as usize * 512;
    for k in 0..n {
        alone[to + k] = u8::from(test(k));
    }
}

// The first n entries of row p become 1 where row a or row b has 1. Both come before row p; with one row for both its
// entries are taken over.
fn fill_either(alone: &mut [u8], p: u32, n: usize, a: u32, b: u32)
    requires { (p < 512) × (n ≤ 512) × (262144 ≤ length alone.old) }
    ensures { a < p → b < p → RowOf (EitherOf alone.old a b) alone.old alone.new p n }
{
    if p <= a || p <= b {
        return;
    }
    let to = p as usize * 512;
    let first = a as usize * 512;
    let second = b as usize * 512;
    for k in 0..n {
        alone[to + k] = u8::from(either(alone[first + k], alone[second + k]));
    }
}

// The first n entries of row p become 1 where row a, which comes before it, has no 1.
fn fill_neither(alone: &mut [u8], p: u32, n: usize, a: u32)
    requires { (p < 512) × (n ≤ 512) × (262144 ≤ length alone.old) }
    ensures { a < p → RowOf (NotOf alone.old a) alone.old alone.new p n }
{
    if p <= a {
        return;
    }
    let to = p as usize * 512;
    let from = a as usize * 512;
    for k in 0..n {
        alone[to + k] = u8::from(alone[from + k] != 1);
    }
}

// The entries of data: every string matches, but for those that match its except.
fn fill_data(alone: &mut [u8], p: u32, n: usize, except: u32)
    requires { (p < 512) × (n ≤ 512) × (262144 ≤ length alone.old) }
    ensures { (except ≢ no_row → except < p) → RowOf (DataEntry alone.old except) alone.old alone.new p n }
{
    if except == schema::NO_ROW {
        fill_same(alone, p, n, 1);
    } else {
        fill_neither(alone, p, n, except);
    }
}

// The entries of a group or an interleave: one operand matches the string alone and the other the empty sequence.
fn fill_one(alone: &mut [u8], nothing: &[u8], p: u32, n: usize, a: u32, b: u32)
    requires { (p < 512) × (n ≤ 512) × (262144 ≤ length alone.old) }
    ensures { a < p → b < p → RowOf (OneOf alone.old nothing.now a b) alone.old alone.new p n }
{
    let first = matching_tokens::is_marked(nothing, a);
    let second = matching_tokens::is_marked(nothing, b);
    match (first, second) {
        (true, true) => fill_either(alone, p, n, a, b),
        (true, false) => fill_either(alone, p, n, b, b),
        (false, true) => fill_either(alone, p, n, a, a),
        (false, false) => fill_same(alone, p, n, 0),
    }
}

// The entries of a value: the strings that are one value with string v.
fn fill_equal(
    bytes: &[u8],
    ends: &[u32],
    leads: &[u8],
    alone: &mut [u8],
    p: u32,
    datatype: u32,
    v: u32,
)
    requires { (p < 512) × (length ends.now ≤ 512) × (262144 ≤ length alone.old)
        × LeadsTo (string_table bytes.now ends.now) leads.now (length ends.now) }
    ensures { RowOf (EqualTo (string_table bytes.now ends.now) datatype v) alone.old alone.new p
        (length ends.now) }
{
    let own = strings::text(bytes, ends, v as usize);
    let first = lead(own);
    fill_by(alone, p, ends.len(), |k| {
        equal_at(bytes, ends, leads, datatype, own, first, k)
    });
}

// Whether row q comes before row p and is the same value.
fn is_same_row(schema: &[u32], q: u32, p: u32) -> bool
    ensures { result ≡ true → SameRow schema.now q p }
{
    q < p
        && schema::kind(schema, q) == schema::VALUE
        && schema::field_a(schema, q) == schema::field_a(schema, p)
        && schema::field_b(schema, q) == schema::field_b(schema, p)
}

// Where the row of a datatype and a string is noted.
fn slot(datatype: u32, v: u32) -> usize
    ensures { result < 1024 }
{
    datatype as usize % 2 * 512 + v as usize % 512
}

// The entries of the value at row p. Texts are compared once for each datatype and string: a later row with the same
// fields takes over the entries of the row that is noted for them. Whatever is noted, the row's fields are looked at.
fn fill_value(
    bytes: &[u8],
    ends: &[u32],
    schema: &[u32],
    leads: &[u8],
    alone: &mut [u8],
    noted: &mut [u32; 1024],
    p: u32,
)
    requires { (p < 512) × (length ends.now ≤ 512) × (262144 ≤ length alone.old)
        × LeadsTo (string_table bytes.now ends.now) leads.now (length ends.now) }
    ensures { (nothing : List ℕ) → kind_of schema.now p ≡ value → RowMade (string_table bytes.now ends.now)
        schema.now alone.old nothing alone.new p }
{
    let a = schema::field_a(schema, p);
    let b = schema::field_b(schema, p);
    let at = slot(a, b);
    let q = noted[at];
    if is_same_row(schema, q, p) {
        fill_either(alone, p, ends.len(), q, q);
    } else {
        noted[at] = p;
        fill_equal(bytes, ends, leads, alone, p, a, b);
    }
}

// Whether the tokens of string k match the pattern at row a.
fn list_entry(
    bytes: &[u8],
    ends: &[u32],
    schema: &[u32],
    places: &[u32],
    nothing: &[u8],
    a: u32,
    k: usize,
) -> bool
    requires { ListReady (string_table bytes.now ends.now) schema.now places.now nothing.now a }
    ensures { TokensTo (string_table bytes.now ends.now) schema.now a k (mark result) }
{
    let text = strings::text(bytes, ends, k);
    matching_tokens::tokens_match(bytes, ends, schema, places, nothing, text, a)
}

// The entries of the list at row p: the strings whose tokens match its pattern, at row a.
fn fill_list(
    bytes: &[u8],
    ends: &[u32],
    schema: &[u32],
    alone: &mut [u8],
    nothing: &[u8],
    p: u32,
    a: u32,
)
    requires { (p < 512) × (262144 ≤ length alone.old)
        × FillableList (string_table bytes.now ends.now) schema.now alone.old nothing.now p a }
    ensures { RowOf (TokensTo (string_table bytes.now ends.now) schema.now a) alone.old alone.new p
        (length ends.now) }
{
    let mut places = [0u32; strings::MAX_STRINGS * 2];
    matching_tokens::find_tokens(bytes, ends, &mut places);
    fill_by(alone, p, ends.len(), |k| {
        list_entry(bytes, ends, schema, &places, nothing, a, k)
    });
}

// The entries of the row of pattern p.
fn fill_row(
    bytes: &[u8],
    ends: &[u32],
    schema: &[u32],
    leads: &[u8],
    alone: &mut [u8],
    nothing: &[u8],
    noted: &mut [u32; 1024],
    p: u32,
)
    requires { (p < 512) × (length ends.now ≤ 512) × (262144 ≤ length alone.old)
        × LeadsTo (string_table bytes.now ends.now) leads.now (length ends.now)
        × Fillable (string_table bytes.now ends.now) schema.now alone.old nothing.now p }
    ensures { RowMade (string_table bytes.now ends.now) schema.now alone.old nothing.now
        alone.new p }
{
    let kind = schema::kind(schema, p);
    let a = schema::field_a(schema, p);
    let b = schema::field_b(schema, p);
    let n = ends.len();
    match kind {
        schema::TEXT => fill_same(alone, p, n, 1),
        schema::DATA => fill_data(alone, p, n, b),
        schema::VALUE => fill_value(bytes, ends, schema, leads, alone, noted, p),
        schema::LIST => fill_list(bytes, ends, schema, alone, nothing, p, a),
        schema::ONE_OR_MORE => fill_either(alone, p, n, a, a),
        schema::CHOICE => fill_either(alone, p, n, a, b),
        // An arm for each kind: with one for both the proof has no name for what the last arm is not.
        schema::GROUP => fill_one(alone, nothing, p, n, a, b),
        schema::INTERLEAVE => fill_one(alone, nothing, p, n, a, b),
        _ => fill_same(alone, p, n, 0),
    }
}

// The entries of all rows, from the first on.
fn fill_rows(
    bytes: &[u8],
    ends: &[u32],
    schema: &[u32],
    alone: &mut [u8],
    nothing: &mut [u8],
    rows: u32,
)
    requires { (rows ≤ 512) × (length bytes.now ≤ max_bytes) × (length ends.now ≤ 512) × (262144 ≤ length alone.old)
        × (512 ≤ length nothing.old) × SchemaPasses (length ends.now) schema.now }
    ensures { Alone (string_table bytes.now ends.now) schema.now alone.new nothing.new rows }
{
    let mut leads = [0u8; 512];
    fill_leads(bytes, ends, &mut leads);
    let mut noted = [0u32; 1024];
    for p in 0..rows {
        let v = nothing_at(schema, nothing, p);
        fill_row(bytes, ends, schema, &leads, alone, nothing, &mut noted, p);
        nothing[p as usize] = u8::from(v);
    }
}

// The strings that are whitespace.
fn fill_blank(bytes: &[u8], ends: &[u32], blank: &mut [u8])
    requires { (length ends.now ≤ 512) × (512 ≤ length blank.old) }
    ensures { Blank (string_table bytes.now ends.now) blank.new }
{
    for k in 0..ends.len() {
        blank[k] = u8::from(datatypes::is_whitespace(strings::text(bytes, ends, k)));
    }
}

// The three tables of a schema: which strings match each pattern alone, which patterns match the empty sequence, and
// which strings are whitespace, by entries that are 1 exactly there. What another entry is instead of 1, and what
// stands past the rows and strings that there are, is left open. The caller shows that the schema passes, and that the
// tables have room.
pub fn fill(
    bytes: &[u8],
    ends: &[u32],
    schema: &[u32],
    alone: &mut [u8],
    nothing: &mut [u8],
    blank: &mut [u8],
)
    requires { FillReady (string_table bytes.now ends.now) schema.now alone.old nothing.old blank.old }
    ensures { Filled (string_table bytes.now ends.now) schema.now alone.new nothing.new
        blank.new }
{
    fill_blank(bytes, ends, blank);
    fill_rows(
        bytes,
        ends,
        schema,
        alone,
        nothing,
        (schema.len() / 3) as u32,
    );
}
