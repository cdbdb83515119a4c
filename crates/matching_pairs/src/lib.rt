// The pairs of an element and a definition that it matches.
#![tactic(auto)]

ghost use Rattle.std.specs.Prelude.{◌≡◌, true, cond, ◌+◌, ◌≤◌, ◌<◌, eqb, length, get_or, take};
ghost use Rattle.tables.specs.Answers.{Decides};
ghost use Rattle.tables.specs.Tables.{StringTable, string_table, tables_of};
ghost use Rattle.instance.specs.Width.{max_width};
ghost use Rattle.instance.specs.Nodes.{nodes_of};
ghost use Rattle.instance.specs.Elements.{is_element};
ghost use Rattle.schema.specs.Definitions.{Definitions};
ghost use Rattle.sets.specs.Collecting.{Collects};
ghost use Rattle.matching.specs.Setting.{Setting, Asked, Covered, Related, Relatable};
ghost use Rattle.matching_marks.specs.Given.{Given};
ghost use Rattle.matching_pairs.specs.Pairs.{IsPair, PairsRight, Pairable};
ghost use Rattle.matching_pairs.specs.Rows.{Fits, Shown, ElementReady, RowRight, is_solid, Filling};
ghost use Rattle.matching_pairs.specs.Rows.{StandsFor, Space, PairAsked, RowAsked, NodeAsked, TableAsked};

// Whether the attributes a and all items of k, of the first n, match the pattern at row p.
fn all_match(
    schema: &[u32],
    marks: &[u64],
    named: &[u64],
    taken: &[u64],
    single: &[u64],
    n: u32,
    a: u64,
    k: u64,
    p: u32,
    work: &mut [u64],
) -> bool
    requires { Relatable schema.now marks.now named.now taken.now single.now (n + 1) a k p work.old }
    ensures { (S : Setting schema.now) → Asked S a k → Covered S marks.now named.now taken.now
        single.now p → Decides (Related S (n + 1) a k p 0 n) result }
{
    matching::relate(schema, marks, named, taken, single, n + 1, a, k, p, work);
    sets::has(sets::word(work, 0), n)
}

// Whether the content fits the pattern at row p: weak says that it is whitespace.
fn content_fits(
    schema: &[u32],
    marks: &[u64],
    named: &[u64],
    taken: &[u64],
    single: &[u64],
    n: u32,
    a: u64,
    k: u64,
    weak: bool,
    p: u32,
    work: &mut [u64],
) -> bool
    requires { Relatable schema.now marks.now named.now taken.now single.now (n + 1) a k p work.old }
    ensures { (S : Setting schema.now) → Asked S a k → Covered S marks.now named.now taken.now
        single.now p → Decides (Fits S n a k weak p) result }
{
    all_match(schema, marks, named, taken, single, n, a, k, p, work)
        || weak && all_match(schema, marks, named, taken, single, n, a, 0, p, work)
}

// Whether element e and definition d are a pair. The words of its pattern are wanted only where its class has the name
// of e.
fn pair_at(
    schema: &[u32],
    instance: &[u32],
    alone: &[u8],
    nothing: &[u8],
    blank: &[u8],
    e: u32,
    attributes: u32,
    items: &[u32],
    texts: u64,
    a: u64,
    k: u64,
    weak: bool,
    d: u32,
    pairs: &[u8],
    marks: &mut [u64],
    named: &mut [u64],
    taken: &mut [u64],
    single: &mut [u64],
    work: &mut [u64],
) -> bool
    requires { Space marks.old named.old taken.old single.old work.old
        × PairAsked schema.now instance.now alone.now nothing.now blank.now pairs.now items.now e attributes texts a k weak d }
    ensures { (T : StringTable) → Given (tables_of T schema.now instance.now) alone.now nothing.now
        blank.now pairs.now items.now e attributes texts → Shown
        (tables_of T schema.now instance.now) items.now e attributes texts a k weak → Decides (IsPair
        (tables_of T schema.now instance.now) e d) result }
{
    let class = schema::field_a(schema, d);
    let namespace = instance::field_a(instance, e);
    let local = instance::field_b(instance, e);
    if !schema_classes::in_class(schema, class, namespace, local) {
        return false;
    }
    let p = schema::field_b(schema, d);
    matching_marks::mark(
        schema, instance, alone, nothing, blank, pairs, e, attributes, items, texts, p, marks,
        named, taken, single,
    );
    let n = items.len() as u32;
    content_fits(schema, marks, named, taken, single, n, a, k, weak, p, work)
}

// The entries of element e, from the attributes a and the items k that stand for all of it.
fn pair_row(
    schema: &[u32],
    instance: &[u32],
    alone: &[u8],
    nothing: &[u8],
    blank: &[u8],
    definitions: &[u32],
    e: u32,
    attributes: u32,
    items: &[u32],
    texts: u64,
    a: u64,
    k: u64,
    weak: bool,
    pairs: &mut [u8],
    marks: &mut [u64],
    named: &mut [u64],
    taken: &mut [u64],
    single: &mut [u64],
    work: &mut [u64],
)
    requires { Space marks.old named.old taken.old single.old work.old
        × RowAsked schema.now instance.now alone.now nothing.now blank.now pairs.old items.now e attributes texts a k weak
        × Definitions schema.now definitions.now (length definitions.now) }
    ensures { (T : StringTable) → ElementReady (tables_of T schema.now instance.now) alone.now nothing.now
        blank.now pairs.old items.now e attributes texts a k weak → RowRight
        (tables_of T schema.now instance.now) pairs.old pairs.new e }
{
    for i in 0..definitions.len() {
        let d = definitions[i];
        let v = pair_at(
            schema, instance, alone, nothing, blank, e, attributes, items, texts, a, k, weak, d,
            pairs, marks, named, taken, single, work,
        );
        pairs[e as usize * schema::MAX_ROWS + d as usize] = u8::from(v);
    }
}

// The items that are no whitespace: elements, and strings that are not blank.
fn solid(blank: &[u8], items: &[u32], texts: u64) -> u64
    requires { length items.now ≤ max_width }
    ensures { Collects (is_solid blank.now items.now texts) (length items.now) result }
{
    sets::collect(items.len() as u32, |k| {
        let item = tables::at(items, k as usize);
        !(sets::has(texts, k) && tables::at(blank, item as usize) == 1)
    })
}

// The first n items.
fn first_items(items: &[u32], n: u32) -> &[u32]
    requires { n ≤ length items.now }
    ensures { result.now ≡ take n items.now }
{
    &items[..n as usize]
}

// The string of a content without elements: that of the one item, and otherwise the empty string.
fn only_string(items: &[u32], n: u32) -> u32
    ensures { result ≡ cond (eqb n 0) 0 (get_or items.now 0 0) }
{
    if n == 0 { 0 } else { tables::at(items, 0) }
}

// What stands for a content: the first `count` items, of which `texts` are strings and k are asked for; weak says that
// they are whitespace.
#[derive(Clone, Copy, Debug, PartialEq, Eq)]
struct Content {
    count: u32,
    texts: u64,
    k: u64,
    weak: bool,
}

// What stands for a content of n items: with an element among them all but whitespace, and otherwise one string, which
// is put first.
fn content_of(blank: &[u8], items: &mut [u32], n: u32, texts: u64, elements: u64) -> Content
    requires { (n ≤ max_width) × (max_width < length items.old) }
    ensures { StandsFor blank.now items.old items.new n texts elements result.count result.texts result.k result.weak }
{
    if elements != 0 {
        let k = solid(blank, first_items(items, n), texts);
        return Content {
            count: n,
            texts,
            k,
            weak: false,
        };
    }
    let v = only_string(items, n);
    items[0] = v;
    let weak = tables::at(blank, v as usize) == 1;
    Content {
        count: 1,
        texts: 1,
        k: 1,
        weak,
    }
}

// The entries of an element, where those of the later rows are right.
fn pair_element(
    schema: &[u32],
    instance: &[u32],
    alone: &[u8],
    nothing: &[u8],
    blank: &[u8],
    definitions: &[u32],
    e: u32,
    items: &mut [u32],
    pairs: &mut [u8],
    marks: &mut [u64],
    named: &mut [u64],
    taken: &mut [u64],
    single: &mut [u64],
    work: &mut [u64],
)
    requires { Space marks.old named.old taken.old single.old work.old
        × NodeAsked schema.now instance.now alone.now nothing.now blank.now pairs.old items.old e
        × (is_element instance.now e ≡ true) × Definitions schema.now definitions.now (length definitions.now) }
    ensures { (T : StringTable) → Filling (tables_of T schema.now instance.now) alone.now nothing.now
        blank.now pairs.old (e + 1) → RowRight (tables_of T schema.now instance.now) pairs.old
        pairs.new e }
{
    let attributes = matching_contents::attributes(instance, e);
    let a = sets::up_to(attributes);
    let n = matching_contents::children(instance, e, items);
    let texts = matching_contents::of_kind(instance, items, n, instance::TEXT);
    let elements = matching_contents::of_kind(instance, items, n, instance::ELEMENT);
    matching_contents::to_items(instance, items, n);
    let content = content_of(blank, items, n, texts, elements);
    let count = content.count;
    pair_row(
        schema,
        instance,
        alone,
        nothing,
        blank,
        definitions,
        e,
        attributes,
        first_items(items, count),
        content.texts,
        a,
        content.k,
        content.weak,
        pairs,
        marks,
        named,
        taken,
        single,
        work,
    );
}

// The entries of instance row e: one that is no element has none.
fn pair_node(
    schema: &[u32],
    instance: &[u32],
    alone: &[u8],
    nothing: &[u8],
    blank: &[u8],
    definitions: &[u32],
    e: u32,
    items: &mut [u32],
    pairs: &mut [u8],
    marks: &mut [u64],
    named: &mut [u64],
    taken: &mut [u64],
    single: &mut [u64],
    work: &mut [u64],
)
    requires { Space marks.old named.old taken.old single.old work.old
        × NodeAsked schema.now instance.now alone.now nothing.now blank.now pairs.old items.old e
        × Definitions schema.now definitions.now (length definitions.now) }
    ensures { (T : StringTable) → Filling (tables_of T schema.now instance.now) alone.now nothing.now
        blank.now pairs.old (e + 1) → Filling (tables_of T schema.now instance.now) alone.now
        nothing.now blank.now pairs.new e }
{
    if instance::kind(instance, e) == instance::ELEMENT {
        pair_element(
            schema,
            instance,
            alone,
            nothing,
            blank,
            definitions,
            e,
            items,
            pairs,
            marks,
            named,
            taken,
            single,
            work,
        );
    }
}

// The entries of all instance rows, from the last to the first: the children of an element stand at later rows.
fn pair_all(
    schema: &[u32],
    instance: &[u32],
    alone: &[u8],
    nothing: &[u8],
    blank: &[u8],
    definitions: &[u32],
    items: &mut [u32],
    pairs: &mut [u8],
    marks: &mut [u64],
    named: &mut [u64],
    taken: &mut [u64],
    single: &mut [u64],
    work: &mut [u64],
)
    requires { Space marks.old named.old taken.old single.old work.old
        × TableAsked schema.now instance.now alone.now nothing.now blank.now pairs.old items.old
        × Definitions schema.now definitions.now (length definitions.now) }
    ensures { (T : StringTable) → Filling (tables_of T schema.now instance.now) alone.now nothing.now
        blank.now pairs.old (nodes_of instance.now) → Filling
        (tables_of T schema.now instance.now) alone.now nothing.now blank.now
        pairs.new 0 }
{
    let nodes = instance.len() / 5;
    for r in (0..nodes as u32).rev() {
        pair_node(
            schema,
            instance,
            alone,
            nothing,
            blank,
            definitions,
            r,
            items,
            pairs,
            marks,
            named,
            taken,
            single,
            work,
        );
    }
}

// The entry of instance row e and schema row d is 1 exactly where e is an element, d is a definition, and e has the
// premises of (element), 9.3.7, for d. What another entry is instead of 1, and what stands past the rows that there
// are, is left open. The caller shows that the tables pass, and that there is room for 1,024 rows of 512 entries.
pub fn pair_table(bytes: &[u8], ends: &[u32], schema: &[u32], instance: &[u32], pairs: &mut [u8])
    requires { Pairable (tables_of (string_table bytes.now ends.now) schema.now instance.now) pairs.old }
    ensures { PairsRight (tables_of (string_table bytes.now ends.now) schema.now instance.now) pairs.new }
{
    tables::zero(pairs);
    let mut alone = [0u8; 262144];
    let mut nothing = [0u8; schema::MAX_ROWS];
    let mut blank = [0u8; 512];
    matching_alone::fill(bytes, ends, schema, &mut alone, &mut nothing, &mut blank);
    let mut rows = [0u32; schema::MAX_ROWS];
    let n = schema::definitions(schema, &mut rows) as usize;
    let mut items = [0u32; 64];
    let mut marks = [0u64; schema::MAX_ROWS];
    let mut named = [0u64; schema::MAX_ROWS];
    let mut taken = [0u64; schema::MAX_ROWS];
    let mut single = [0u64; schema::MAX_ROWS];
    let mut work = [0u64; 32768];
    pair_all(
        schema,
        instance,
        &alone,
        &nothing,
        &blank,
        &rows[..n],
        &mut items,
        pairs,
        &mut marks,
        &mut named,
        &mut taken,
        &mut single,
        &mut work,
    );
}
