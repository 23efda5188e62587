// The causes for which a call is refused.

ghost use Rattle.std.specs.Prelude.{◌≡◌};
ghost use Rattle.definitions.specs.Refusals.{cause_of, number_of, refusal_for};

// Each has its number in the declaration.
#[derive(Clone, Copy, Debug, PartialEq, Eq)]
pub enum Refusal {
    // Lent memory breaks the index rule.
    IndexRuleBroken = 1,
    RecordAfterFinish = 2,
    // Search or save before finish.
    BeforeFinish = 3,
    // Data over 4,096 bytes.
    DataTooLong = 4,
    // created_at >= destroyed_at.
    NoLife = 5,
    // address + length > 2^64 - 1.
    AddressTooHigh = 6,
    TooManyNodes = 7,
    TooManyEntries = 8,
    // Query over 256 bytes.
    QueryTooLong = 9,
    // Sizes of all T(i) together exceed scratch.
    ScratchTooSmall = 10,
    // More rows than the row buffer.
    TooManyRows = 11,
    SaveBufferTooShort = 12,
    // Stream or image ends inside a field.
    CutShort = 13,
    // Space kind over 4, node kind unknown.
    UnknownKind = 14,
    // Image layout or index rule broken, bytes left over.
    ImageBroken = 15,
    // Opening with 0 or over 1,048,576 nodes or entries, or with more than the lent memory holds.
    CapacityRefused = 16,
    // Program line is no form.
    NoForm = 17,
    // A block shares a byte address and a live tick with a piece held; in loading, two pieces of the image do.
    Conflict = 18,
    // What was typed is no donation number with its check character.
    WrongNumber = 19,
}

impl Refusal {
    // Its number, for C and for the replies.
    pub fn number(self) -> u64
        ensures number { result ≡ number_of self }
        ensures cause { refusal_for (cause_of self) ≡ self }
    {
        self as u64
    }
}
