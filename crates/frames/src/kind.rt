// The kind table: one constant, read wherever a kind's sizes matter.
ghost use Rattle.std.specs.Prelude.{◌≡◌, ◌≤◌};
ghost use Rattle.frames.specs.Kind.{kind_row, children_of, kind_for};

// How many children a record of the kind may have, its words in form 1, and the number of children at or below which it shrinks.
#[derive(Clone, Copy)]
pub struct KindRow {
    pub children: u32,
    pub words: u32,
    pub mark: u32,
}

pub const KINDS: [KindRow; 4] = [
    KindRow {
        children: 4,
        words: 19,
        mark: 0,
    },
    KindRow {
        children: 16,
        words: 43,
        mark: 4,
    },
    KindRow {
        children: 48,
        words: 315,
        mark: 16,
    },
    KindRow {
        children: 256,
        words: 267,
        mark: 48,
    },
];

// How many values a byte has: kind 4 has a reference for each, kind 3 a slot number.
pub const BYTES: usize = 256;

// How many references kind 3 has; slot numbers name them, from 1 on.
pub const SLOTS: usize = KINDS[2].children as usize;

// The words of kind 3's body: the slot numbers, then the references.
pub const SLOTTED: usize = BYTES + SLOTS;

// Where in that body a slot 0 would be: slot s is `SLOT_ZERO + s`.
pub const SLOT_ZERO: usize = BYTES - 1;

// The words of a leaf.
pub const LEAF_WORDS: usize = 6;

// The row of a kind.
pub fn row_of(kind: u32) -> KindRow
    requires { (1 ≤ kind) × (kind ≤ 4) }
    ensures { result ≡ kind_row kind }
{
    let k = (kind - 1) as usize;
    KINDS[k]
}

// The most children that a record of the kind holds.
pub fn children_of(kind: u32) -> usize
    requires { (1 ≤ kind) × (kind ≤ 4) }
    ensures { result ≡ children_of kind }
{
    row_of(kind).children as usize
}

// The smallest kind that holds so many children; 5, which is no kind of inner record, where none does.
pub fn kind_for(children: u32) -> u32
    ensures { result ≡ kind_for children }
{
    for kind in 1..=4 {
        let row = row_of(kind);
        if children <= row.children {
            return kind;
        }
    }
    5
}
