// One cell of the picture: its parts, packed into a word and read back, and the three rules by which ink falls on what is there.
#![tactic(auto)]

ghost use Rattle.std.specs.Prelude.{◌≡◌, ◌<◌, ◌≤◌, ltb};
ghost use Rattle.cell.specs.OneCell.{weight_number, marker_number, dir_number, weight_of, marker_of, dir_of};
ghost use Rattle.cell.specs.OneCell.{vertical, horizontal, pack_arms, pack_marker, pack, read_arms, read_text, read_marker, read};
ghost use Rattle.cell.specs.OneCell.{heavier, heavier_arms, is_double, has_double, stem};
ghost use Rattle.cell.specs.Computed.{double_on};
ghost use Rattle.cell.specs.OneCell.{stroked, marked, painted_stroke, painted_marker, painted_text};

// The weight of one arm of a stroke.
#[derive(Clone, Copy, PartialEq, Eq)]
pub enum Weight {
    // No arm.
    None = 0,
    // Weaker than any other arm.
    Dashed = 1,
    // The usual line.
    Light = 2,
    // The heaviest: it alone replaces text and markers.
    Double = 3,
}

impl From<Weight> for u32 {
    ghost from_gives = { λ weight number. (number ≡ weight_number weight) × (number ≤ 3) };

    fn from(weight: Weight) -> u32 {
        weight as u32
    }
}

// A number that no weight has is no arm.
impl From<u32> for Weight {
    ghost from_gives = { λ number weight. weight ≡ weight_of number };

    fn from(number: u32) -> Weight {
        match number {
            1 => Weight::Dashed,
            2 => Weight::Light,
            3 => Weight::Double,
            _ => Weight::None,
        }
    }
}

impl Weight {
    // "the greater weight per arm". The numbers are compared, since a derived order reads each weight from a table, at twice the instructions, here where
    // a painting spends most.
    pub fn max(self, other: Weight) -> Weight
        ensures { result ≡ heavier self other }
    {
        if other as u32 <= self as u32 {
            self
        } else {
            other
        }
    }

    // Whether it is an arm at all.
    pub fn is_arm(self) -> bool
        ensures { result ≡ ltb 0 (weight_number self) }
    {
        self != Weight::None
    }

    pub fn is_double(self) -> bool
        ensures { result ≡ is_double self }
    {
        self == Weight::Double
    }
}

// Ink that stands at an end or a node, and is no part of a line.
#[derive(Clone, Copy)]
pub enum MarkerKind {
    // The head of an edge, pointing in its direction.
    Arrow = 1,
    // The sign of an edge from a node to itself.
    SelfLoop = 2,
    // The place of a node that only the layout has.
    Dummy = 3,
}

impl From<MarkerKind> for u32 {
    ghost from_gives = { λ kind number. (number ≡ marker_number kind) × (number ≤ 3) };

    fn from(kind: MarkerKind) -> u32 {
        kind as u32
    }
}

// A number that no other kind has is an arrow's.
impl From<u32> for MarkerKind {
    ghost from_gives = { λ number kind. kind ≡ marker_of number };

    fn from(number: u32) -> MarkerKind {
        match number {
            2 => MarkerKind::SelfLoop,
            3 => MarkerKind::Dummy,
            _ => MarkerKind::Arrow,
        }
    }
}

// Where an arrow points.
#[derive(Clone, Copy)]
pub enum Dir {
    // To the row above.
    Up = 0,
    // To the row below.
    Down = 1,
    // To the column before.
    Left = 2,
    // To the column after.
    Right = 3,
}

impl From<Dir> for u32 {
    ghost from_gives = { λ dir number. (number ≡ dir_number dir) × (number ≤ 3) };

    fn from(dir: Dir) -> u32 {
        dir as u32
    }
}

// A number that no other direction has is Right's.
impl From<u32> for Dir {
    ghost from_gives = { λ number dir. dir ≡ dir_of number };

    fn from(number: u32) -> Dir {
        match number {
            0 => Dir::Up,
            1 => Dir::Down,
            2 => Dir::Left,
            _ => Dir::Right,
        }
    }
}

// The four arms of a stroke.
#[derive(Clone, Copy)]
pub struct Arms {
    // To the row above.
    pub up: Weight,
    // To the row below.
    pub down: Weight,
    // To the column before.
    pub left: Weight,
    // To the column after.
    pub right: Weight,
}

impl Arms {
    // No arm.
    const NONE: Arms = Arms {
        up: Weight::None,
        down: Weight::None,
        left: Weight::None,
        right: Weight::None,
    };

    // A line that goes through a cell, along the rows and along the columns.
    pub fn vertical(w: Weight) -> Arms
        ensures { result ≡ vertical w }
    {
        Arms {
            up: w,
            down: w,
            ..Arms::NONE
        }
    }

    pub fn horizontal(w: Weight) -> Arms
        ensures { result ≡ horizontal w }
    {
        Arms {
            left: w,
            right: w,
            ..Arms::NONE
        }
    }

    // "weights at bits 0 up, 3 down, 6 left, 9 right"
    pub fn pack(self) -> u32
        ensures { (result ≡ pack_arms self) × (result < 4096) }
    {
        u32::from(self.up)
            + 8 * u32::from(self.down)
            + 64 * u32::from(self.left)
            + 512 * u32::from(self.right)
    }

    // The arms of any word.
    pub fn read(word: u32) -> Arms
        ensures { result ≡ read_arms word }
    {
        Arms {
            up: Weight::from(word % 8),
            down: Weight::from(word / 8 % 8),
            left: Weight::from(word / 64 % 8),
            right: Weight::from(word / 512 % 8),
        }
    }

    // The greater weight of each arm.
    pub fn max(self, other: Arms) -> Arms
        ensures { result ≡ heavier_arms self other }
    {
        Arms {
            up: self.up.max(other.up),
            down: self.down.max(other.down),
            left: self.left.max(other.left),
            right: self.right.max(other.right),
        }
    }

    pub fn has_double(self) -> bool
        ensures { result ≡ has_double self }
    {
        self.up.is_double() | self.down.is_double() | self.left.is_double() | self.right.is_double()
    }

    // "a Light stem in its direction"
    pub fn stem(dir: Dir) -> Arms
        ensures { result ≡ stem dir }
    {
        match dir {
            Dir::Up => Arms {
                up: Weight::Light,
                ..Arms::NONE
            },
            Dir::Down => Arms {
                down: Weight::Light,
                ..Arms::NONE
            },
            Dir::Left => Arms {
                left: Weight::Light,
                ..Arms::NONE
            },
            Dir::Right => Arms {
                right: Weight::Light,
                ..Arms::NONE
            },
        }
    }
}

// What a cell means.
#[derive(Clone, Copy)]
pub enum Parts {
    // Nothing was written.
    Empty,
    // A glyph, by its code point; the first column of a wide one.
    Text(u32),
    // The second column of a wide glyph.
    Continuation,
    // A part of lines, by its arms.
    Stroke(Arms),
    // An arrow, a self-loop or a dummy.
    Marker {
        // Which of the three.
        kind: MarkerKind,
        // Where it points.
        dir: Dir,
        // Whether its edge is reversed.
        dashed: bool,
    },
}

impl Parts {
    pub fn pack(self) -> u32
        ensures { result ≡ pack self }
    {
        match self {
            Parts::Empty => 0,
            Parts::Text(ch) => 0x4000_0000 + ch % 0x20_0000,
            Parts::Continuation => 0x4020_0000,
            Parts::Stroke(arms) => 0x8000_0000 + arms.pack(),
            Parts::Marker { kind, dir, dashed } => 0xC000_0000 + pack_marker(kind, dir, dashed),
        }
    }

    // The parts of any word: what is no packing reads as the parts that its tag and fields name.
    pub fn read(word: u32) -> Parts
        ensures { result ≡ read word }
    {
        let tag = word / 0x4000_0000;
        match tag {
            0 => Parts::Empty,
            1 => read_text(word),
            2 => Parts::Stroke(Arms::read(word)),
            _ => read_marker(word),
        }
    }

    // A stroke on what is there.
    pub fn stroked(self, new: Arms) -> Parts
        ensures { result ≡ stroked self new }
    {
        match self {
            Parts::Empty => Parts::Stroke(new),
            Parts::Stroke(old) => Parts::Stroke(old.max(new)),
            _ => if new.has_double() {
                Parts::Stroke(double_on(self, new))
            } else {
                self
            },
        }
    }

    // A marker on what is there: "A marker replaces all but text."
    pub fn marked(self, kind: MarkerKind, dir: Dir, dashed: bool) -> Parts
        ensures { result ≡ marked self kind dir dashed }
    {
        match self {
            Parts::Text(_) | Parts::Continuation => self,
            _ => Parts::Marker { kind, dir, dashed },
        }
    }
}

// "kind in bits 3..0, direction in 5..4, dashed in bit 6"
fn pack_marker(kind: MarkerKind, dir: Dir, dashed: bool) -> u32
    ensures { (result ≡ pack_marker kind dir dashed) × (result < 128) }
{
    let low = u32::from(kind) + 16 * u32::from(dir);
    if dashed { low + 64 } else { low }
}

fn read_text(word: u32) -> Parts
    ensures { result ≡ read_text word }
{
    let second = word / 0x20_0000 % 2;
    if second == 1 {
        Parts::Continuation
    } else {
        Parts::Text(word % 0x20_0000)
    }
}

fn read_marker(word: u32) -> Parts
    ensures { result ≡ read_marker word }
{
    let dashed = word / 64 % 2 == 1;
    Parts::Marker {
        kind: MarkerKind::from(word % 16),
        dir: Dir::from(word / 16 % 4),
        dashed,
    }
}

// What a stroke with a Double arm leaves on text or a marker: an Arrow first becomes a stem, then merges; all others are replaced.
fn double_on(old: Parts, new: Arms) -> Arms
    ensures { Parts.Stroke result ≡ double_on old new }
{
    match old {
        Parts::Marker { kind, dir, .. } => match kind {
            MarkerKind::Arrow => Arms::stem(dir).max(new),
            _ => new,
        },
        _ => new,
    }
}

// A cell is the packing of its parts in a word.
#[derive(Clone, Copy)]
pub struct Cell(pub u32);

impl Cell {
    pub const EMPTY: Cell = Cell(0);
    // The second column of a wide glyph.
    pub const CONTINUATION: Cell = Cell(0x4020_0000);

    pub fn text(ch: u32) -> Cell
        ensures { result.0 ≡ pack (Parts.Text ch) }
    {
        Cell(Parts::Text(ch).pack())
    }

    pub fn stroke(arms: Arms) -> Cell
        ensures { result.0 ≡ pack (Parts.Stroke arms) }
    {
        Cell(Parts::Stroke(arms).pack())
    }

    pub fn marker(kind: MarkerKind, dir: Dir, dashed: bool) -> Cell
        ensures { result.0 ≡ pack (Parts.Marker kind dir dashed) }
    {
        let parts = Parts::Marker { kind, dir, dashed };
        Cell(parts.pack())
    }

    pub fn painted_stroke(self, new: Arms) -> Cell
        ensures { result.0 ≡ painted_stroke self.0 new }
    {
        Cell(Parts::read(self.0).stroked(new).pack())
    }

    pub fn painted_marker(self, kind: MarkerKind, dir: Dir, dashed: bool) -> Cell
        ensures { result.0 ≡ painted_marker self.0 kind dir dashed }
    {
        Cell(Parts::read(self.0).marked(kind, dir, dashed).pack())
    }

    // "Text replaces everything."
    pub fn painted_text(self, ch: u32) -> Cell
        ensures { result.0 ≡ painted_text self.0 ch }
    {
        Cell::text(ch)
    }
}
