// The types that the rules speak of, and their limits. What they mean stands in specs/.

#![tactic(auto)]

ghost use Rattle.std.specs.Prelude.{◌≡◌};
ghost use Rattle.std.specs.Prelude.{pos};
ghost use Rattle.rules.specs.Boxes.{window_box};
ghost use Rattle.rules.specs.Inside.{bounds};
ghost use Rattle.rules.specs.Ranges.{within, range};
ghost use Rattle.rules.specs.Kinds.{is_primitive, kind_number, named_words, Names};
ghost use Rattle.rules.specs.Rules.{number_of};
ghost use Rattle.rules.specs.Told.{searched_of};

// The axes: sample columns, ADC codes, frame numbers.
#[derive(Clone, Copy, Debug, PartialEq, Eq)]
pub enum Axis {
    Column,
    Code,
    Frame,
}

impl Axis {
    // A value lies in the range of the axis.
    pub fn contains(self, v: i32) -> bool
        ensures { result ≡ within (range self) v }
    {
        match self {
            Axis::Column => (LEAST_COLUMN <= v) & (v <= GREATEST_COLUMN),
            Axis::Code => (LEAST_CODE <= v) & (v <= GREATEST_CODE),
            Axis::Frame => (LEAST_FRAME <= v) & (v <= GREATEST_FRAME),
        }
    }
}

// The greatest value of each axis; there are as many below 0 as from 0 on.
pub const GREATEST_COLUMN: i32 = 32767;

pub const GREATEST_CODE: i32 = 32767;

pub const GREATEST_FRAME: i32 = 1048575;

pub const LEAST_COLUMN: i32 = -GREATEST_COLUMN - 1;

pub const LEAST_CODE: i32 = -GREATEST_CODE - 1;

pub const LEAST_FRAME: i32 = -GREATEST_FRAME - 1;

// The slopes of a wedge's plane.
pub const GREATEST_SLOPE: i32 = 32767;

pub const LEAST_SLOPE: i32 = -GREATEST_SLOPE - 1;

// What the header of a list adds to a bound of each axis.
pub const COLUMN_OFFSET: u64 = GREATEST_COLUMN as u64 + 1;

pub const CODE_OFFSET: u64 = GREATEST_CODE as u64 + 1;

pub const FRAME_OFFSET: u64 = GREATEST_FRAME as u64 + 1;

// A list: the words of its header, the words that hold its lowest and highest frame and its number of primitives, and the words of a product.
pub const HEADER_WORDS: usize = 8;

pub const LOWEST_FRAME_WORD: usize = 5;

pub const HIGHEST_FRAME_WORD: usize = 6;

pub const PRIMITIVES_WORD: usize = 7;

pub const PRODUCT_WORDS: usize = 2;

pub const MOST_PRODUCTS: usize = 65536;

// The choices of a zone of which a list is made, the samples of a frame, the frames of a screenful, and the words that tell of one of them.
pub const MOST_CHOICES: u64 = 65536;

pub const MOST_SAMPLES: usize = 65536;

pub const MOST_FRAMES: usize = 500;

pub const TRIPLE_WORDS: usize = 3;

// The columns, and the codes, of a rectangle, and what stands in its picture where no frame is inside.
pub const MOST_SIDE: i64 = 128;

pub const NO_FRAME: i32 = -2147483648;

// The primitives and the choices of a zone whose tree is rewritten, the words of a row of the finished tree, and the words of either area.
pub const MOST_REWRITTEN: usize = 16;

pub const MOST_WAYS: u64 = 256;

pub const TREE_ROW_WORDS: usize = 3;

pub const REWRITE_WORDS: usize = 24573;

pub const ROW_WORDS: usize = 12;

pub const MOST_ROWS: usize = 127;

pub const MOST_BYTES: usize = 16384;

// Sample column, ADC code, frame number.
#[derive(Clone, Copy)]
pub struct Point {
    pub x: i32,
    pub y: i32,
    pub z: i32,
}

// The columns, codes and frames that a list is made for; both ends belong to it. C hands it over as it stands.
#[repr(C)]
#[derive(Clone, Copy)]
pub struct Window {
    pub xlo: i32,
    pub xhi: i32,
    pub ylo: i32,
    pub yhi: i32,
    pub zlo: i32,
    pub zhi: i32,
}

// The columns and codes of a picture; both ends belong to it. C hands it over as it stands.
#[repr(C)]
#[derive(Clone, Copy)]
pub struct Rectangle {
    pub xlo: i32,
    pub xhi: i32,
    pub ylo: i32,
    pub yhi: i32,
}

// Where a frame's samples stand: the column of sample 0, and the frame number.
#[derive(Clone, Copy)]
pub struct Place {
    pub first: i32,
    pub frame: i32,
}

// The kinds of rows, as word 0 of a row names them.
#[derive(Clone, Copy, Debug, PartialEq, Eq)]
pub enum Kind {
    Box,
    Wedge,
    Drum,
    Union,
    Inter,
    Diff,
    Triangle,
}

// A word 0 that names no kind.
#[derive(Clone, Copy, Debug, PartialEq, Eq)]
pub struct UnknownKind(pub i32);

impl TryFrom<i32> for Kind {
    type Error = UnknownKind;

    ghost try_from_gives = { Names };

    fn try_from(word: i32) -> Result<Self, UnknownKind> {
        match word {
            0 => Ok(Kind::Box),
            1 => Ok(Kind::Wedge),
            2 => Ok(Kind::Drum),
            3 => Ok(Kind::Union),
            4 => Ok(Kind::Inter),
            5 => Ok(Kind::Diff),
            6 => Ok(Kind::Triangle),
            _ => Err(UnknownKind(word)),
        }
    }
}

impl Kind {
    // Word 0 of a row of this kind.
    pub fn number(self) -> i32
        ensures { result ≡ pos (kind_number self) }
    {
        self as i32
    }

    pub fn is_primitive(self) -> bool
        ensures { result ≡ is_primitive self }
    {
        !matches!(self, Kind::Union | Kind::Inter | Kind::Diff)
    }

    // How many words it names after word 0.
    pub fn named_words(self) -> usize
        ensures { result ≡ named_words self }
    {
        match self {
            Kind::Box | Kind::Drum => 6,
            Kind::Wedge => 10,
            Kind::Union | Kind::Inter | Kind::Diff => 2,
            Kind::Triangle => 8,
        }
    }
}

#[derive(Clone, Copy)]
pub struct BoxShape {
    pub xlo: i32,
    pub xhi: i32,
    pub ylo: i32,
    pub yhi: i32,
    pub zlo: i32,
    pub zhi: i32,
}

impl From<Window> for BoxShape {
    ghost from_gives = { λ w b. bounds b ≡ window_box w };

    fn from(w: Window) -> Self {
        BoxShape {
            xlo: w.xlo,
            xhi: w.xhi,
            ylo: w.ylo,
            yhi: w.yhi,
            zlo: w.zlo,
            zhi: w.zhi,
        }
    }
}

// The part of a box where ax + by + cz <= d.
#[derive(Clone, Copy)]
pub struct WedgeShape {
    pub bounds: BoxShape,
    pub a: i32,
    pub b: i32,
    pub c: i32,
    pub d: i32,
}

// An ellipse over columns and codes, the same in each of its frames.
#[derive(Clone, Copy)]
pub struct DrumShape {
    pub cx: i32,
    pub cy: i32,
    pub rx: i32,
    pub ry: i32,
    pub zlo: i32,
    pub zhi: i32,
}

// A column and a code.
#[derive(Clone, Copy)]
pub struct Corner {
    pub x: i32,
    pub y: i32,
}

// What lies between three corners, the same in each of its frames.
#[derive(Clone, Copy)]
pub struct TriangleShape {
    pub first: Corner,
    pub second: Corner,
    pub third: Corner,
    pub zlo: i32,
    pub zhi: i32,
}

#[derive(Clone, Copy)]
pub enum Primitive {
    Box(BoxShape),
    Wedge(WedgeShape),
    Drum(DrumShape),
    Triangle(TriangleShape),
}

// A row of the table: a primitive, or an operation on two earlier rows, left and right.
#[derive(Clone, Copy)]
pub enum Row {
    Solid(Primitive),
    Union(usize, usize),
    Inter(usize, usize),
    Diff(usize, usize),
}

// Two sets of primitives, primitive i as bit i: those a point is in, and those it is out of, the cuts.
#[derive(Clone, Copy, Debug, PartialEq, Eq)]
pub struct Product {
    pub plain: u64,
    pub cuts: u64,
}

// The rules' table of refusals, in its order: which rule is broken.
#[derive(Clone, Copy, Debug, PartialEq, Eq)]
pub enum Rule {
    Length,
    Kind,
    Fields,
    Children,
    Once,
    Bound,
    Choices,
    Room,
    List,
    Outside,
    Primitives,
    Frame,
    Text,
    Leaves,
    Ways,
}

impl Rule {
    // The number of a rule in the table of refusals.
    pub fn number(self) -> u64
        ensures { result ≡ number_of self }
    {
        self as u64 + 1
    }
}

// Why a call did nothing: the rule that is broken, and the value that goes with it.
#[derive(Clone, Copy, Debug, PartialEq, Eq)]
pub struct Refusal {
    pub rule: Rule,
    pub value: u64,
}

impl Refusal {
    pub fn new(rule: Rule, value: usize) -> Self
        ensures { result ≡ record { rule = rule; value = value } }
    {
        Refusal {
            rule,
            value: value as u64,
        }
    }
}

// The first inside sample of a frame, and how many of its samples are inside.
#[derive(Clone, Copy, Debug, PartialEq, Eq)]
pub struct Hit {
    pub first: usize,
    pub count: usize,
}

// What the search of a frame answers.
#[derive(Clone, Copy, Debug, PartialEq, Eq)]
pub enum Searched {
    Clear,
    Hit { first: usize, count: usize },
    Refused(Refusal),
}

impl From<Result<Option<Hit>, Refusal>> for Searched {
    ghost from_gives = { λ outcome searched. searched ≡ searched_of outcome };

    fn from(outcome: Result<Option<Hit>, Refusal>) -> Self {
        match outcome {
            Ok(None) => Searched::Clear,
            Ok(Some(hit)) => Searched::Hit {
                first: hit.first,
                count: hit.count,
            },
            Err(refusal) => Searched::Refused(refusal),
        }
    }
}
