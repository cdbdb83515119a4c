// What an element has: the number of its attributes, and its children as items.
#![tactic(auto)]

ghost use Rattle.std.specs.Prelude.{◌≡◌, true, cond, ◌+◌, ◌≤◌, ◌<◌, set};
ghost use Rattle.instance.specs.Nodes.{is_child, is_attribute};
ghost use Rattle.instance.specs.NodeRule.{max_nodes};
ghost use Rattle.instance.specs.Elements.{children_of};
ghost use Rattle.instance.specs.Width.{max_width};
ghost use Rattle.sets.specs.Collecting.{Collects};
ghost use Rattle.matching_contents.specs.Contents.{Counted, RightRow, Begins, item_word, of_kind, Itemized};

fn is_attribute(instance: &[u32], e: u32, r: u32) -> bool
    ensures { result ≡ is_attribute instance.now e r }
{
    instance::parent(instance, r) == e && instance::kind(instance, r) == instance::ATTRIBUTE
}

fn is_child(instance: &[u32], e: u32, r: u32) -> bool
    ensures { result ≡ is_child instance.now e r }
{
    instance::parent(instance, r) == e && instance::is_child(instance::kind(instance, r))
}

// How many rows right after element e are its attributes, counted to 64. The caller shows that e is before row 1,024.
pub fn attributes(instance: &[u32], e: u32) -> u32
    requires { e < max_nodes }
    ensures { Counted instance.now e result }
{
    for x in 0..instance::MAX_WIDTH + 1 {
        if !is_attribute(instance, e, e + 1 + x) {
            return x;
        }
    }
    instance::MAX_WIDTH + 1
}

// Row r becomes word n where it is a child of element e; how many children there are then, when there were n.
fn add_child(instance: &[u32], e: u32, r: u32, n: u32, rows: &mut [u32]) -> u32
    requires { n < max_nodes }
    ensures value { result ≡ n + cond (is_child instance.now e r) 1 0 }
    ensures stored { rows.new ≡ cond (is_child instance.now e r) (set rows.old n r) rows.old }
{
    if is_child(instance, e, r) {
        tables::put(rows, n as usize, r);
        n + 1
    } else {
        n
    }
}

// The rows of the children of a row of a table that is right, as far as there is room, and how many there are; the
// words after them are as they were. Past the first row whose parent comes before e there is none: the rows of e's
// descendants stand together.
pub fn children(instance: &[u32], e: u32, rows: &mut [u32]) -> u32
    requires { RightRow instance.now e }
    ensures { Begins rows.old rows.new (children_of instance.now e) result }
{
    let nodes = instance.len() / 5;
    let mut n: u32 = 0;
    for r in e + 1..nodes as u32 {
        if instance::parent(instance, r) < e {
            return n;
        }
        n = add_child(instance, e, r, n, rows);
    }
    n
}

// The set of the positions of the rows of a kind, among the first n. The caller shows that n is at most 63.
pub fn of_kind(instance: &[u32], rows: &[u32], n: u32, kind: u32) -> u64
    requires { n ≤ max_width }
    ensures { Collects (of_kind instance.now rows.now kind) n result }
{
    sets::collect(n, |k| {
        instance::kind(instance, tables::at(rows, k as usize)) == kind
    })
}

fn item_word(instance: &[u32], r: u32) -> u32
    ensures { result ≡ item_word instance.now r }
{
    if instance::kind(instance, r) == instance::TEXT {
        instance::field_a(instance, r)
    } else {
        r
    }
}

// Each of the first n rows, as far as there are any, becomes its item: a text its string, an element its row. The rows
// after them are as they were.
pub fn to_items(instance: &[u32], rows: &mut [u32], n: u32)
    ensures { Itemized instance.now rows.old rows.new n }
{
    for k in 0..n {
        let v = item_word(instance, tables::at(rows, k as usize));
        tables::put(rows, k as usize, v);
    }
}
