// The rule of instance rows, code 9, and the width of elements, code 10.
#![tactic(auto)]

ghost use Rattle.std.specs.Prelude.{◌≡◌, ◌&&◌, ◌||◌, ◌+◌, ◌≤◌, ◌<◌, eqb, ltb};
ghost use Rattle.tables.specs.Answers.{Decides};
ghost use Rattle.tables.specs.Checks.{Finds};
ghost use Rattle.tables.specs.Outputs.{zeros};
ghost use Rattle.instance.specs.Nodes.{element, nodes_of, is_child, is_attribute};
ghost use Rattle.instance.specs.NodeRule.{max_nodes, fields_right, nearest, ParentRight};
ghost use Rattle.instance.specs.NodeRule.{NodeSizeFault, WrongNode, NodeFault};
ghost use Rattle.instance.specs.Walk.{Rooted, LastChildren, Twin, RepeatsName, BadNode, Placed, TellsWrong};
ghost use Rattle.instance.specs.Width.{max_width, WidthFault};
ghost use Rattle.instance_nodes.specs.Counts.{RowsCounted};

use instance::{ATTRIBUTE, ELEMENT, MAX_NODES, MAX_WIDTH, NO_PARENT, TEXT};

// Whether x is the number of a string other than the empty one, string 0.
fn is_nonempty(strings: usize, x: u32) -> bool
    ensures { result ≡ (ltb 0 x && ltb x strings) }
{
    0 < x && (x as usize) < strings
}

// Whether a row of a kind may have these fields, beside so many strings.
#[tactic(auto, unfolding(instance::specs::NodeRule::fields_right))]
fn fields_right(strings: usize, kind: u32, a: u32, b: u32, c: u32) -> bool
    ensures { result ≡ fields_right strings kind a b c }
{
    let named = (a as usize) < strings && is_nonempty(strings, b);
    match kind {
        ELEMENT => named && c == 0,
        ATTRIBUTE => named && (c as usize) < strings,
        TEXT => is_nonempty(strings, a) && b == 0 && c == 0,
        _ => false,
    }
}

// The number of words and rows.
fn check_size(instance: &[u32]) -> Result<(), u32>
    ensures { Finds (NodeSizeFault instance.now) result }
{
    let nodes = instance.len() / 5;
    if nodes == 0 || MAX_NODES < nodes || instance.len() % 5 != 0 {
        return Err(0);
    }
    Ok(())
}

// The nearest element of a row: itself, if it is one, and otherwise its parent.
fn nearest_element(instance: &[u32], row: u32) -> u32
    ensures { result ≡ nearest instance.now row }
{
    if instance::kind(instance, row) == ELEMENT {
        row
    } else {
        instance::parent(instance, row)
    }
}

// Whether row 0 is an element without parent.
fn root_right(instance: &[u32]) -> bool
    ensures { Decides (ParentRight instance.now 0) result }
{
    instance::kind(instance, 0) == ELEMENT && instance::parent(instance, 0) == NO_PARENT
}

// Whether the parent of row r is the nearest element of the row before, or an ancestor of that.
// The elements passed on the way up can be no parent of a later row: all walks together pass each element once.
fn parent_open(instance: &[u32], r: u32) -> bool
    requires { (0 < r) × Rooted instance.now r }
    ensures { Decides (ParentRight instance.now r) result }
{
    let p = instance::parent(instance, r);
    let mut e = nearest_element(instance, r - 1);
    // A walk up, not a count: how many elements it passes is not known before.
    while p < e {
        e = instance::parent(instance, e);
    }
    e == p
}

// Whether row r has a parent as it may have.
fn parent_right(instance: &[u32], r: u32) -> bool
    requires { Rooted instance.now r }
    ensures { Decides (ParentRight instance.now r) result }
{
    if r == 0 {
        root_right(instance)
    } else {
        parent_open(instance, r)
    }
}

// Whether row q is an attribute of element p, with the name of row r.
fn is_twin(instance: &[u32], p: u32, q: u32, r: u32) -> bool
    ensures { Decides (Twin instance.now p q r) result }
{
    instance::parent(instance, q) == p
        && instance::kind(instance, q) == ATTRIBUTE
        && instance::field_a(instance, q) == instance::field_a(instance, r)
        && instance::field_b(instance, q) == instance::field_b(instance, r)
}

// Whether an attribute of element p between p and r has the name of row r.
fn repeats_name(instance: &[u32], p: u32, r: u32) -> bool
    requires { (p < r) × (r ≤ max_nodes) }
    ensures { Decides (RepeatsName instance.now p r) result }
{
    (p + 1..r).any(|q| is_twin(instance, p, q, r))
}

// Whether row r, whose fields and parent are right, is an attribute after a child or with the name of an earlier one,
// or a text after a text.
// An attribute is compared with others only where its parent has no child yet: the rows between the two are then
// attributes of that parent.
fn misplaced(instance: &[u32], last: &[u32], r: u32) -> bool
    requires { Placed instance.now last.now r }
    ensures { TellsWrong instance.now r result }
{
    let k = instance::kind(instance, r);
    let p = instance::parent(instance, r);
    let before = tables::at(last, p as usize);
    match k {
        ATTRIBUTE => before != 0 || repeats_name(instance, p, r),
        TEXT => before == TEXT,
        _ => false,
    }
}

// Whether row r breaks its rule, where the rows before it keep theirs and last has the kind of each element's last
// child among them.
fn wrong_node(strings: usize, instance: &[u32], last: &[u32], r: u32) -> bool
    requires { (r < max_nodes) × Rooted instance.now r × LastChildren instance.now last.now r }
    ensures { Decides (WrongNode strings instance.now r) result }
{
    let k = instance::kind(instance, r);
    let a = instance::field_a(instance, r);
    let b = instance::field_b(instance, r);
    let c = instance::field_c(instance, r);
    !fields_right(strings, k, a, b, c) || !parent_right(instance, r) || misplaced(instance, last, r)
}

// Row r becomes the last child of its parent, if it is a child.
fn note_child(instance: &[u32], last: &mut [u32], r: u32)
    requires { LastChildren instance.now last.old r }
    ensures { LastChildren instance.now last.new (r + 1) }
{
    let k = instance::kind(instance, r);
    if instance::is_child(k) {
        tables::put(last, instance::parent(instance, r) as usize, k);
    }
}

// The first row that breaks its rule, with a table of the last children.
fn scan_nodes(strings: usize, instance: &[u32], last: &mut [u32]) -> Result<(), u32>
    requires { (nodes_of instance.now ≤ max_nodes) × (last.old ≡ zeros max_nodes) }
    ensures { Finds (BadNode strings instance.now) result }
{
    let nodes = instance.len() / 5;
    for r in 0..nodes as u32 {
        if wrong_node(strings, instance, last, r) {
            return Err(r);
        }
        note_child(instance, last, r);
    }
    Ok(())
}

// The first row that breaks its rule.
fn first_wrong_node(strings: usize, instance: &[u32]) -> Result<(), u32>
    requires { nodes_of instance.now ≤ max_nodes }
    ensures { Finds (BadNode strings instance.now) result }
{
    let mut last = [0u32; MAX_NODES];
    scan_nodes(strings, instance, &mut last)
}

// Code 9: `Ok` exactly when the rows keep their rule beside so many strings, and otherwise the first faulty row, of
// two at odds the later.
pub fn check_nodes(strings: usize, instance: &[u32]) -> Result<(), u32>
    ensures { Finds (NodeFault strings instance.now) result }
{
    check_size(instance)?;
    first_wrong_node(strings, instance)
}

// The attributes and the children of each row.
fn count_rows(instance: &[u32], attributes: &mut [u32], children: &mut [u32])
    requires { (nodes_of instance.now ≤ max_nodes)
        × (attributes.old ≡ zeros max_nodes)
        × (children.old ≡ zeros max_nodes) }
    ensures { RowsCounted (is_attribute instance.now) attributes.new (nodes_of instance.now)
        × RowsCounted (is_child instance.now) children.new (nodes_of instance.now) }
{
    let nodes = instance.len() / 5;
    for r in 0..nodes as u32 {
        let k = instance::kind(instance, r);
        let p = instance::parent(instance, r);
        tables::count_if(attributes, p, k == ATTRIBUTE);
        tables::count_if(children, p, instance::is_child(k));
    }
}

// Whether a row of a kind with so many attributes and children is an element that is too wide.
fn is_wide(kind: u32, attributes: u32, children: u32) -> bool
    ensures { result ≡ (eqb kind element && (ltb max_width attributes || ltb max_width children)) }
{
    kind == ELEMENT && (MAX_WIDTH < attributes || MAX_WIDTH < children)
}

// The first element that is too wide.
fn first_wide(instance: &[u32], attributes: &[u32], children: &[u32]) -> Result<(), u32>
    requires { (nodes_of instance.now ≤ max_nodes)
        × RowsCounted (is_attribute instance.now) attributes.now (nodes_of instance.now)
        × RowsCounted (is_child instance.now) children.now (nodes_of instance.now) }
    ensures { Finds (WidthFault instance.now) result }
{
    let nodes = instance.len() / 5;
    for e in 0..nodes as u32 {
        if is_wide(
            instance::kind(instance, e),
            tables::at(attributes, e as usize),
            tables::at(children, e as usize),
        ) {
            return Err(e);
        }
    }
    Ok(())
}

// Code 10: the smallest element with more than 63 attributes or 63 children; `Ok` exactly when there is none. The
// caller shows that there are at most 1,024 rows.
pub fn check_width(instance: &[u32]) -> Result<(), u32>
    requires { nodes_of instance.now ≤ max_nodes }
    ensures { Finds (WidthFault instance.now) result }
{
    let mut attributes = [0u32; MAX_NODES];
    let mut children = [0u32; MAX_NODES];
    count_rows(instance, &mut attributes, &mut children);
    first_wide(instance, &attributes, &children)
}
