// The match list of tables that pass, from the table of pairs, and with it whether the instance is valid.
#![tactic(auto)]

ghost use Rattle.std.specs.Prelude.{◌≡◌, [], ◌∷◌, ◌+◌, ◌*◌, ◌≤◌, ◌<◌, length};
ghost use Rattle.tables.specs.Answers.{Decides};
ghost use Rattle.tables.specs.Tables.{string_table, tables_of};
ghost use Rattle.schema.specs.Kinds.{choice};
ghost use Rattle.schema.specs.Rows.{kind_of};
ghost use Rattle.schema.specs.RowRule.{max_rows};
ghost use Rattle.instance.specs.NodeRule.{max_nodes};
ghost use Rattle.matching_rules.specs.Job.{Valid};
ghost use Rattle.matching_pairs.specs.Pairs.{TablesPass, Pairable};
ghost use Rattle.matching_list.specs.Listing.{pair_if, row_pairs, marked_pairs, PutPairs, ListsPairs, KeepsListed};
ghost use Rattle.matching_list.specs.MatchList.{ListAnswer};
ghost use Rattle.matching_list.specs.Start.{RootAsked, StartAsked, TellsRoot, TellsValid};

// Whether the instance is valid, and how many pairs the match list has.
#[derive(Clone, Copy, Debug, PartialEq, Eq)]
pub struct Matches {
    pub valid: bool,
    pub pairs: u32,
}

// The lent list is too short for the pairs.
#[derive(Clone, Copy, Debug, PartialEq, Eq)]
pub struct TooShort;

// One pair after n others; what does not fit is counted and not stored.
fn put_pair(list: &mut [u32], n: u32, e: u32, d: u32) -> u32
    requires { n < max_nodes * max_rows }
    ensures { PutPairs list.old n ((e, d) ∷ []) list.new result }
{
    let at = n as usize * 2;
    tables::put(list, at, e);
    tables::put(list, at + 1, d);
    n + 1
}

// The pair of row e and definition d, if it is marked.
fn put_marked(table: &[u8], e: u32, d: u32, list: &mut [u32], n: u32) -> u32
    requires { n < max_nodes * max_rows }
    ensures put_pairs { PutPairs list.old n (pair_if table.now e d) list.new result }
    ensures one { result ≤ n + 1 }
{
    if tables::at(table, e as usize * schema::MAX_ROWS + d as usize) == 1 {
        put_pair(list, n, e, d)
    } else {
        n
    }
}

// The marked definitions of one row.
fn put_row(table: &[u8], definitions: &[u32], e: u32, list: &mut [u32], n: u32) -> u32
    requires { (e < max_nodes) × (length definitions.now ≤ max_rows) × (n ≤ e * max_rows) }
    ensures put_pairs { PutPairs list.old n (row_pairs table.now definitions.now e (length definitions.now))
        list.new result }
    ensures few { result ≤ n + length definitions.now }
{
    let mut m = n;
    for k in 0..definitions.len() {
        m = put_marked(table, e, definitions[k], list, m);
    }
    m
}

// The marked pairs of all rows, in order, and their number.
fn put_rows(table: &[u8], definitions: &[u32], rows: u32, list: &mut [u32]) -> u32
    requires { (rows ≤ max_nodes) × (length definitions.now ≤ max_rows) }
    ensures { PutPairs list.old 0 (marked_pairs table.now definitions.now rows) list.new result }
{
    let mut n = 0;
    for e in 0..rows {
        n = put_row(table, definitions, e, list, n);
    }
    n
}

// The answer for a list that n pairs were put into: zeros throughout where it is too short for them.
fn keep_listed(words: &mut [u32], n: u32) -> Result<u32, TooShort>
    ensures { KeepsListed words.old n words.new result }
{
    if words.len() < n as usize * 2 {
        tables::zero(words);
        return Err(TooShort);
    }
    Ok(n)
}

// The pairs of the first rows with the definitions that the table marks, in a lent list, and zeros after them; zeros
// throughout where the list is too short for them.
fn list_pairs(
    table: &[u8],
    definitions: &[u32],
    rows: u32,
    list: &mut [u32],
) -> Result<u32, TooShort>
    requires { (rows ≤ max_nodes) × (length definitions.now ≤ max_rows) }
    ensures { ListsPairs table.now definitions.now rows (length list.old) list.new result }
{
    tables::zero(list);
    let n = put_rows(table, definitions, rows, list);
    keep_listed(list, n)
}

// Whether the root matches either operand of the choice at row p.
#[cycle(matches_either_root_matches)]
fn matches_either(schema: &[u32], pairs: &[u8], p: u32) -> bool
    requires { (kind_of schema.now p ≡ choice) × StartAsked schema.now pairs.now p }
    ensures { TellsRoot schema.now pairs.now p result }
{
    let first = schema::field_a(schema, p);
    let second = schema::field_b(schema, p);
    root_matches(schema, pairs, first) || root_matches(schema, pairs, second)
}

// Whether the root matches the pattern at row p, a pattern of start.
#[cycle(matches_either_root_matches)]
fn root_matches(schema: &[u32], pairs: &[u8], p: u32) -> bool
    requires { StartAsked schema.now pairs.now p }
    ensures { TellsRoot schema.now pairs.now p result }
{
    let kind = schema::kind(schema, p);
    match kind {
        schema::REF => tables::at(pairs, schema::field_a(schema, p) as usize) == 1,
        schema::CHOICE => matches_either(schema, pairs, p),
        _ => false,
    }
}

// Whether the instance is valid: start is the last row.
fn valid(schema: &[u32], pairs: &[u8]) -> bool
    requires { RootAsked schema.now pairs.now }
    ensures { TellsValid schema.now pairs.now result }
{
    let last = schema.len() / 3 - 1;
    root_matches(schema, pairs, schema::field_a(schema, last as u32))
}

// The match list of tables that pass, by a lent table of pairs, which is filled first.
fn list_matches(
    bytes: &[u8],
    ends: &[u32],
    schema: &[u32],
    instance: &[u32],
    pairs: &mut [u8],
    list: &mut [u32],
) -> Result<Matches, TooShort>
    requires { Pairable (tables_of (string_table bytes.now ends.now) schema.now instance.now) pairs.old }
    ensures { ListAnswer (tables_of (string_table bytes.now ends.now) schema.now instance.now)
        (length list.old) list.new result }
{
    matching_pairs::pair_table(bytes, ends, schema, instance, pairs);
    let mut rows = [0u32; schema::MAX_ROWS];
    let n = schema::definitions(schema, &mut rows) as usize;
    let nodes = instance.len() / 5;
    let number = list_pairs(pairs, &rows[..n], nodes as u32, list)?;
    Ok(Matches {
        valid: valid(schema, pairs),
        pairs: number,
    })
}

// The match list of tables that pass, as the caller shows: too short exactly when the list has fewer words than the
// pairs take, two each, and then zeros throughout; otherwise the two words of each pair, by element and then by
// definition, each once, and zeros after them. The number is that of the pairs. It is valid exactly when some
// definition that start names makes a pair with the root, which is when (valid) of 9.4 has a derivation.
pub fn match_pairs(
    bytes: &[u8],
    ends: &[u32],
    schema: &[u32],
    instance: &[u32],
    list: &mut [u32],
) -> Result<Matches, TooShort>
    requires { TablesPass (tables_of (string_table bytes.now ends.now) schema.now instance.now) }
    ensures { ListAnswer (tables_of (string_table bytes.now ends.now) schema.now instance.now)
        (length list.old) list.new result }
{
    let mut pairs = [0u8; instance::MAX_NODES * schema::MAX_ROWS];
    list_matches(bytes, ends, schema, instance, &mut pairs, list)
}

// Yes exactly when the root matches the pattern of start, (valid) of 9.4. The caller shows that the tables pass.
pub fn is_valid(bytes: &[u8], ends: &[u32], schema: &[u32], instance: &[u32]) -> bool
    requires { TablesPass (tables_of (string_table bytes.now ends.now) schema.now instance.now) }
    ensures { Decides (Valid (tables_of (string_table bytes.now ends.now) schema.now instance.now)) result }
{
    let mut pairs = [0u8; instance::MAX_NODES * schema::MAX_ROWS];
    matching_pairs::pair_table(bytes, ends, schema, instance, &mut pairs);
    valid(schema, &pairs)
}
