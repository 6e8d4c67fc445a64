// The kinds of record that expressions are made of: one table, by the kind byte alone.
ghost use Rattle.std.specs.Prelude.{◌≡◌, ◌+◌, ◌*◌, ◌≤◌, length};
ghost use Rattle.records.specs.Kind.{sort_for, count, row, signature_of, signature_at};

// The sorts of expression, and what may be asked of one: of the second operand of a quotient or remainder, a number that is a constant above 0.
#[derive(Clone, Copy, Debug, PartialEq, Eq)]
pub enum Sort {
    Number,
    Truth,
    Divisor,
}

impl Sort {
    // The sort of the records that may stand where this one is asked.
    pub fn stands(self) -> Sort
        ensures { result ≡ sort_for self }
    {
        match self {
            Sort::Number | Sort::Divisor => Sort::Number,
            Sort::Truth => Sort::Truth,
        }
    }
}

// The operands that follow a record, by the sorts that are asked of them.
#[derive(Clone, Copy, Debug, PartialEq, Eq)]
pub enum Operands {
    Zero,
    One(Sort),
    Two(Sort, Sort),
}

impl Operands {
    // How many they are.
    pub fn count(self) -> usize
        ensures { result ≡ count self }
    {
        match self {
            Operands::Zero => 0,
            Operands::One(_) => 1,
            Operands::Two(_, _) => 2,
        }
    }
}

// A kind's own sort, none where the kind begins no expression, and its operands.
#[derive(Clone, Copy, Debug, PartialEq, Eq)]
pub struct Signature {
    pub sort: Option<Sort>,
    pub operands: Operands,
}

// A row of the table below.
fn row(sort: Sort, operands: Operands) -> Signature
    ensures { result ≡ row sort operands }
{
    Signature {
        sort: Some(sort),
        operands,
    }
}

// The signature of a kind byte, by the ranges of kinds.
pub fn signature_of(kind: u8) -> Signature
    ensures { result ≡ signature_of kind }
{
    match kind {
        0x10..=0x11 => row(Sort::Number, Operands::Zero),
        0x12..=0x14 => row(Sort::Number, Operands::Two(Sort::Number, Sort::Number)),
        0x15 => row(Sort::Number, Operands::One(Sort::Truth)),
        0x18..=0x19 => row(Sort::Number, Operands::Two(Sort::Number, Sort::Divisor)),
        0x20..=0x21 => row(Sort::Truth, Operands::Zero),
        0x22 => row(Sort::Truth, Operands::One(Sort::Truth)),
        0x23..=0x26 => row(Sort::Truth, Operands::Two(Sort::Truth, Sort::Truth)),
        0x27..=0x29 => row(Sort::Truth, Operands::Two(Sort::Number, Sort::Number)),
        _ => Signature {
            sort: None,
            operands: Operands::Zero,
        },
    }
}

// The signature of the record at `at`.
pub fn signature_at(file: &[u8], at: usize) -> Signature
    requires { 8 * at + 8 ≤ length file.now }
    ensures { result ≡ signature_at file.now at }
{
    signature_of(file[8 * at])
}
