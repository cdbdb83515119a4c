// Instance rows: the words of a row.
#![tactic(auto)]

ghost use Rattle.std.specs.Prelude.{◌≡◌, ◌||◌, eqb};
ghost use Rattle.instance.specs.Nodes.{kind_of, parent_of, a_of, b_of, c_of, element, text};

pub const MAX_NODES: usize = 1024;

// An element has at most so many attributes, and at most so many children.
pub const MAX_WIDTH: u32 = 63;

// `-` of FORMAT, "Instance rows": no parent.
pub const NO_PARENT: u32 = 4294967295;

// The kinds of rows.
pub const ELEMENT: u32 = 1;

pub const ATTRIBUTE: u32 = 2;

pub const TEXT: u32 = 3;

// The first word of a row, its kind; 0 past the end.
pub fn kind(instance: &[u32], row: u32) -> u32
    ensures { result ≡ kind_of instance.now row }
{
    tables::at(instance, row as usize * 5)
}

// The second word of a row, its parent; 0 past the end.
pub fn parent(instance: &[u32], row: u32) -> u32
    ensures { result ≡ parent_of instance.now row }
{
    tables::at(instance, row as usize * 5 + 1)
}

// The third word of a row; 0 past the end.
pub fn field_a(instance: &[u32], row: u32) -> u32
    ensures { result ≡ a_of instance.now row }
{
    tables::at(instance, row as usize * 5 + 2)
}

// The fourth word of a row; 0 past the end.
pub fn field_b(instance: &[u32], row: u32) -> u32
    ensures { result ≡ b_of instance.now row }
{
    tables::at(instance, row as usize * 5 + 3)
}

// The fifth word of a row; 0 past the end.
pub fn field_c(instance: &[u32], row: u32) -> u32
    ensures { result ≡ c_of instance.now row }
{
    tables::at(instance, row as usize * 5 + 4)
}

// Yes exactly for the kinds of rows that are children: elements and texts.
pub fn is_child(kind: u32) -> bool
    ensures { result ≡ (eqb kind element || eqb kind text) }
{
    matches!(kind, ELEMENT | TEXT)
}
