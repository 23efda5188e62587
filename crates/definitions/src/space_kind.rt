// The kinds of a block.

ghost use Rattle.std.specs.Prelude.{◌≡◌};
ghost use Rattle.definitions.specs.SpaceKinds.{kind_number, Decodes};

// Each has its number in the declaration. Of a block of kind Memory the bytes are recorded.
#[derive(Clone, Copy, Debug, PartialEq, Eq)]
pub enum SpaceKind {
    Constant = 0,
    Memory = 1,
    Register = 2,
    Unique = 3,
    Other = 4,
}

// A number that is no kind's.
#[derive(Clone, Copy, Debug, PartialEq, Eq)]
pub struct UnknownKind(pub u64);

impl SpaceKind {
    // Its number, as it stands in a stream and in a form.
    pub fn number(self) -> u64
        ensures { result ≡ kind_number self }
    {
        self as u64
    }
}

impl TryFrom<u64> for SpaceKind {
    type Error = UnknownKind;

    ghost try_from_gives = { Decodes };

    fn try_from(n: u64) -> Result<Self, UnknownKind> {
        match n {
            0 => Ok(SpaceKind::Constant),
            1 => Ok(SpaceKind::Memory),
            2 => Ok(SpaceKind::Register),
            3 => Ok(SpaceKind::Unique),
            4 => Ok(SpaceKind::Other),
            _ => Err(UnknownKind(n)),
        }
    }
}
