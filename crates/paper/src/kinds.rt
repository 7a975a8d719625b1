// The kinds of record that a question file has, in the order of the file.
ghost use Rattle.std.specs.Prelude.{◌≡◌, ◌<◌, length, get_or};
ghost use Rattle.paper.specs.Grammar as Grammar;
ghost use Rattle.paper.specs.Inner.{missing, byte_of};

// The most assets and periods of a file.
pub const FILE_ASSETS: usize = 8;

pub const FILE_PERIODS: usize = 128;

// The most returns and the most given entries of a file.
pub(crate) const RETURNS: usize = FILE_PERIODS * FILE_ASSETS;

pub(crate) const ENTRIES: usize = FILE_ASSETS * FILE_ASSETS;

// How many kinds there are, and the most records of a file: all kinds but two come once at most.
pub const KINDS: usize = 12;

pub(crate) const RECORDS: usize = RETURNS + ENTRIES + KINDS - 2;

// A kind by name; `byte_of` of the definitions is its byte.
#[derive(Clone, Copy)]
pub(crate) enum KindName {
    Shape,
    Return,
    Regularization,
    FixedShrinkage,
    Target,
    HalfLife,
    Semi,
    SemiThreshold,
    GivenEntry,
    SweepLimit,
    DecayFactor,
    Question,
}

// A kind's byte, the length of its body, and how many records of it a file may have.
#[derive(Clone, Copy)]
pub struct Kind {
    pub byte: u8,
    pub body: usize,
    pub most: usize,
}

// Of each kind the byte, the length of the body and how many records, in the order of the file. A static: a constant's table would be
// written to the stack at every call.
static TABLE: [(u8, usize, usize); KINDS] = [
    (1, 4, 1),
    (2, 8, RETURNS),
    (3, 8, 1),
    (4, 8, 1),
    (5, 1, 1),
    (6, 8, 1),
    (7, 0, 1),
    (8, 8, 1),
    (9, 8, ENTRIES),
    (10, 1, 1),
    (12, 8, 1),
    (11, 1, 1),
];

pub fn kind_at(i: usize) -> Kind
    requires { i < length Grammar.kinds }
    ensures { result ≡ get_or Grammar.kinds i missing }
{
    let (byte, body, most) = TABLE[i];
    Kind { byte, body, most }
}

// Where a kind stands in the file.
pub(crate) fn place(kind: KindName) -> usize
    ensures is_place { result ≡ Grammar.place_in Grammar.kinds (byte_of kind) }
    ensures inside { result < KINDS }
{
    kind as usize
}
