// What each pattern of a schema does with the attributes and the children of one element, as sets.
#![tactic(auto)]

ghost use Rattle.std.specs.Prelude.{◌≡◌, ◌+◌, ◌*◌, ◌≤◌, ◌<◌, eqb, length, get_or};
ghost use Rattle.schema.specs.Rows.{kind_of, a_of, b_of};
ghost use Rattle.instance.specs.Width.{max_width};
ghost use Rattle.sets.specs.Collecting.{Collects};
ghost use Rattle.matching_marks.specs.Answers.{RowRoom, LeafAnswer, NamedAnswer, TakenAnswer};
ghost use Rattle.matching_marks.specs.Answers.{SingleAnswer, RowAnswer, SmallerAnswer, OperandsAnswer};
ghost use Rattle.matching_marks.specs.Answers.{PatternAnswer, first_operand, second_operand};
ghost use Rattle.matching_marks.specs.Given.{Markable, MarksPattern};
ghost use Rattle.matching_marks.specs.Marks.{attribute_row};
ghost use Rattle.matching_marks.specs.Tests.{has_name, value_fits, string_alone, element_paired};
ghost use Rattle.matching_marks.specs.Tests.{element_named, attribute_named, attribute_fits, joined_by};

// A row of the table of strings alone has an entry for each of 512 strings, one of the table of pairs an entry for each
// of 512 schema rows.
const STRIDE: usize = 512;

// A field of the row of attribute x of element e.
fn attribute_word(instance: &[u32], e: u32, x: u32, field: usize) -> u32
    requires { field < 5 }
    ensures { result ≡ get_or instance.now (attribute_row e x * 5 + field) 0 }
{
    tables::at(instance, (e as usize + 1 + x as usize) * 5 + field)
}

// Whether an entry of a table of bytes is 1.
fn is_set(table: &[u8], row: u32, k: u32) -> bool
    ensures { result ≡ eqb (get_or table.now (row * 512 + k) 0) 1 }
{
    tables::at(table, row as usize * STRIDE + k as usize) == 1
}

// Whether string v weakly matches the pattern at row q.
fn value_fits(alone: &[u8], nothing: &[u8], blank: &[u8], q: u32, v: u32) -> bool
    ensures { result ≡ value_fits alone.now nothing.now blank.now q v }
{
    is_set(alone, q, v)
        | ((tables::at(blank, v as usize) == 1) & (tables::at(nothing, q as usize) == 1))
}

// Whether the name of an instance row is in the class at schema row c.
fn row_named(schema: &[u32], instance: &[u32], c: u32, row: u32) -> bool
    ensures { result ≡ has_name schema.now instance.now c row }
{
    schema_classes::in_class(
        schema,
        c,
        instance::field_a(instance, row),
        instance::field_b(instance, row),
    )
}

// Whether the name of attribute x of element e is in the class at schema row c.
fn attribute_named(schema: &[u32], instance: &[u32], e: u32, c: u32, x: u32) -> bool
    ensures { result ≡ has_name schema.now instance.now c (attribute_row e x) }
{
    schema_classes::in_class(
        schema,
        c,
        attribute_word(instance, e, x, 2),
        attribute_word(instance, e, x, 3),
    )
}

// The strings among the items that alone match the pattern at row p.
fn strings_alone(alone: &[u8], items: &[u32], texts: u64, p: u32) -> u64
    requires { length items.now ≤ max_width }
    ensures { Collects (string_alone alone.now items.now texts p) (length items.now) result }
{
    sets::collect(items.len() as u32, |k| {
        sets::has(texts, k) & is_set(alone, p, tables::at(items, k as usize))
    })
}

// The elements among the items that are paired with definition d.
fn elements_paired(pairs: &[u8], items: &[u32], texts: u64, d: u32) -> u64
    requires { length items.now ≤ max_width }
    ensures { Collects (element_paired pairs.now items.now texts d) (length items.now) result }
{
    sets::collect(items.len() as u32, |k| {
        !sets::has(texts, k) & is_set(pairs, tables::at(items, k as usize), d)
    })
}

// The elements among the items whose names are in the class at row c.
fn elements_named(schema: &[u32], instance: &[u32], items: &[u32], texts: u64, c: u32) -> u64
    requires { length items.now ≤ max_width }
    ensures { Collects (element_named schema.now instance.now items.now texts c) (length items.now) result }
{
    sets::collect(items.len() as u32, |k| {
        !sets::has(texts, k) & row_named(schema, instance, c, tables::at(items, k as usize))
    })
}

// The attributes of element e whose names are in the class at row c.
fn attributes_named(schema: &[u32], instance: &[u32], e: u32, attributes: u32, c: u32) -> u64
    requires { attributes ≤ max_width }
    ensures { Collects (attribute_named schema.now instance.now e c) attributes result }
{
    sets::collect(attributes, |x| attribute_named(schema, instance, e, c, x))
}

// The attributes of element e whose values weakly match the pattern at row q.
fn attributes_fitting(
    instance: &[u32],
    alone: &[u8],
    nothing: &[u8],
    blank: &[u8],
    e: u32,
    attributes: u32,
    q: u32,
) -> u64
    requires { attributes ≤ max_width }
    ensures { Collects (attribute_fits instance.now alone.now nothing.now blank.now e q) attributes result }
{
    sets::collect(attributes, |x| {
        value_fits(alone, nothing, blank, q, attribute_word(instance, e, x, 4))
    })
}

// The union of the words of the operands of row p.
fn operand_words(schema: &[u32], words: &[u64], p: u32) -> u64
    ensures { result ≡ joined_by (kind_of schema.now p) (get_or words.now (a_of schema.now p) 0)
        (get_or words.now (b_of schema.now p) 0) }
{
    let first = sets::word(words, schema::field_a(schema, p));
    let second = sets::word(words, schema::field_b(schema, p));
    match schema::kind(schema, p) {
        schema::ONE_OR_MORE => first,
        schema::CHOICE..=schema::INTERLEAVE => first | second,
        _ => 0,
    }
}

// The items or attributes that the leaf at row p takes.
fn leaf_word(
    schema: &[u32],
    instance: &[u32],
    alone: &[u8],
    nothing: &[u8],
    blank: &[u8],
    pairs: &[u8],
    e: u32,
    attributes: u32,
    items: &[u32],
    texts: u64,
    p: u32,
) -> u64
    requires { (attributes ≤ max_width) × (length items.now ≤ max_width) }
    ensures { LeafAnswer schema.now instance.now alone.now nothing.now blank.now pairs.now
        items.now e attributes texts p result }
{
    let a = schema::field_a(schema, p);
    let b = schema::field_b(schema, p);
    match schema::kind(schema, p) {
        schema::TEXT..=schema::LIST => strings_alone(alone, items, texts, p),
        schema::ATTRIBUTE => {
            attributes_named(schema, instance, e, attributes, a)
                & attributes_fitting(instance, alone, nothing, blank, e, attributes, b)
        }
        schema::REF => elements_paired(pairs, items, texts, a),
        _ => 0,
    }
}

// The attributes that an attribute pattern reached from row p names.
fn named_word(
    schema: &[u32],
    instance: &[u32],
    e: u32,
    attributes: u32,
    named: &[u64],
    p: u32,
) -> u64
    requires { attributes ≤ max_width }
    ensures { NamedAnswer schema.now instance.now e attributes named.now p result }
{
    let a = schema::field_a(schema, p);
    match schema::kind(schema, p) {
        schema::ATTRIBUTE => attributes_named(schema, instance, e, attributes, a),
        _ => operand_words(schema, named, p),
    }
}

// The items that a pattern reached from row p takes.
fn taken_word(
    schema: &[u32],
    instance: &[u32],
    items: &[u32],
    texts: u64,
    taken: &[u64],
    p: u32,
) -> u64
    requires { length items.now ≤ max_width }
    ensures { TakenAnswer schema.now instance.now items.now texts taken.now p result }
{
    let d = schema::field_a(schema, p);
    let c = schema::field_a(schema, d);
    match schema::kind(schema, p) {
        schema::TEXT..=schema::LIST => texts,
        schema::REF => elements_named(schema, instance, items, texts, c),
        _ => operand_words(schema, taken, p),
    }
}

// The attributes that match row p alone, from those that row p takes as an attribute pattern.
fn single_word(schema: &[u32], leaf: u64, single: &[u64], p: u32) -> u64
    ensures { SingleAnswer schema.now leaf single.now p result }
{
    match schema::kind(schema, p) {
        schema::ATTRIBUTE => leaf,
        schema::ONE_OR_MORE..=schema::CHOICE => operand_words(schema, single, p),
        _ => 0,
    }
}

// The words of row p, from those of its operands.
fn mark_row(
    schema: &[u32],
    instance: &[u32],
    alone: &[u8],
    nothing: &[u8],
    blank: &[u8],
    pairs: &[u8],
    e: u32,
    attributes: u32,
    items: &[u32],
    texts: u64,
    p: u32,
    marks: &mut [u64],
    named: &mut [u64],
    taken: &mut [u64],
    single: &mut [u64],
)
    requires { RowRoom items.now marks.old named.old taken.old single.old attributes p }
    ensures { RowAnswer schema.now instance.now alone.now nothing.now blank.now pairs.now
        items.now e attributes texts marks.old named.old taken.old single.old
        marks.new named.new taken.new single.new p }
{
    let leaf = leaf_word(
        schema, instance, alone, nothing, blank, pairs, e, attributes, items, texts, p,
    );
    let name = named_word(schema, instance, e, attributes, named, p);
    let take = taken_word(schema, instance, items, texts, taken, p);
    let only = single_word(schema, leaf, single, p);
    marks[p as usize] = leaf;
    named[p as usize] = name;
    taken[p as usize] = take;
    single[p as usize] = only;
}

// The first operand of row p; p itself stands for none.
fn first_operand(schema: &[u32], p: u32) -> u32
    ensures { result ≡ first_operand schema.now p }
{
    match schema::kind(schema, p) {
        schema::ONE_OR_MORE..=schema::INTERLEAVE => schema::field_a(schema, p),
        _ => p,
    }
}

// The second operand of row p; p itself stands for none.
fn second_operand(schema: &[u32], p: u32) -> u32
    ensures { result ≡ second_operand schema.now p }
{
    match schema::kind(schema, p) {
        schema::CHOICE..=schema::INTERLEAVE => schema::field_b(schema, p),
        _ => p,
    }
}

// The words of the rows in the pattern at row q, if that is smaller than p, as every operand of p is in a schema that
// passes.
#[cycle(mark_operands_mark_pattern_mark_smaller)]
fn mark_smaller(
    schema: &[u32],
    instance: &[u32],
    alone: &[u8],
    nothing: &[u8],
    blank: &[u8],
    pairs: &[u8],
    e: u32,
    attributes: u32,
    items: &[u32],
    texts: u64,
    q: u32,
    p: u32,
    marks: &mut [u64],
    named: &mut [u64],
    taken: &mut [u64],
    single: &mut [u64],
)
    requires { RowRoom items.now marks.old named.old taken.old single.old attributes p }
    ensures { SmallerAnswer schema.now instance.now alone.now nothing.now blank.now
        pairs.now items.now e attributes texts marks.old named.old taken.old
        single.old marks.new named.new taken.new single.new q p }
{
    if q < p {
        mark_pattern(
            schema, instance, alone, nothing, blank, pairs, e, attributes, items, texts, q, marks,
            named, taken, single,
        );
    }
}

// The words of the rows in the operands of row p.
#[cycle(mark_operands_mark_pattern_mark_smaller)]
fn mark_operands(
    schema: &[u32],
    instance: &[u32],
    alone: &[u8],
    nothing: &[u8],
    blank: &[u8],
    pairs: &[u8],
    e: u32,
    attributes: u32,
    items: &[u32],
    texts: u64,
    p: u32,
    marks: &mut [u64],
    named: &mut [u64],
    taken: &mut [u64],
    single: &mut [u64],
)
    requires { RowRoom items.now marks.old named.old taken.old single.old attributes p }
    ensures { OperandsAnswer schema.now instance.now alone.now nothing.now blank.now
        pairs.now items.now e attributes texts marks.old named.old taken.old
        single.old marks.new named.new taken.new single.new p }
{
    let first = first_operand(schema, p);
    let second = second_operand(schema, p);
    mark_smaller(
        schema, instance, alone, nothing, blank, pairs, e, attributes, items, texts, first, p,
        marks, named, taken, single,
    );
    mark_smaller(
        schema, instance, alone, nothing, blank, pairs, e, attributes, items, texts, second, p,
        marks, named, taken, single,
    );
}

// The words of the rows in the pattern at row p: those of its operands come first.
#[cycle(mark_operands_mark_pattern_mark_smaller)]
fn mark_pattern(
    schema: &[u32],
    instance: &[u32],
    alone: &[u8],
    nothing: &[u8],
    blank: &[u8],
    pairs: &[u8],
    e: u32,
    attributes: u32,
    items: &[u32],
    texts: u64,
    p: u32,
    marks: &mut [u64],
    named: &mut [u64],
    taken: &mut [u64],
    single: &mut [u64],
)
    requires { RowRoom items.now marks.old named.old taken.old single.old attributes p }
    ensures { PatternAnswer schema.now instance.now alone.now nothing.now blank.now
        pairs.now items.now e attributes texts marks.old named.old taken.old
        single.old marks.new named.new taken.new single.new p }
{
    mark_operands(
        schema, instance, alone, nothing, blank, pairs, e, attributes, items, texts, p, marks,
        named, taken, single,
    );
    mark_row(
        schema, instance, alone, nothing, blank, pairs, e, attributes, items, texts, p, marks,
        named, taken, single,
    );
}

// For each row that occurs in the pattern at row p the items that its pattern takes, the attributes that it takes,
// those and the items that a pattern reached from it names or takes, and the attributes that match it alone. A row
// whose words were right keeps right words; what else the words hold is left open. The caller shows that the schema
// passes, that the tables given are right, and that each table has a word for every row.
pub fn mark(
    schema: &[u32],
    instance: &[u32],
    alone: &[u8],
    nothing: &[u8],
    blank: &[u8],
    pairs: &[u8],
    e: u32,
    attributes: u32,
    items: &[u32],
    texts: u64,
    p: u32,
    marks: &mut [u64],
    named: &mut [u64],
    taken: &mut [u64],
    single: &mut [u64],
)
    requires { Markable schema.now instance.now alone.now nothing.now blank.now pairs.now items.now e attributes texts p marks.old named.old
        taken.old single.old }
    ensures { MarksPattern schema.now instance.now alone.now nothing.now blank.now pairs.now
        items.now e attributes texts p marks.old named.old taken.old single.old
        marks.new named.new taken.new single.new }
{
    mark_pattern(
        schema, instance, alone, nothing, blank, pairs, e, attributes, items, texts, p, marks,
        named, taken, single,
    );
}
