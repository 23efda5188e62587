// The kinds of a node in an image by how many children it has.
#![tactic(auto)]

ghost use Rattle.std.specs.Prelude.{◌≡◌};
ghost use Rattle.kinds.specs.Kinds.{kind_number, kind_in, kind_of, fits, has, Decodes};

// Each has its number in the image. Dense has an offset for every byte, the others an entry for each child; the children stand
// in the order of their bytes, of kind ByArrival in that of the entries.
#[derive(Clone, Copy, Debug, PartialEq, Eq)]
pub enum NodeKind {
    Dense = 1,
    ByByte = 2,
    ByArrival = 3,
}

// A number that is no kind's.
#[derive(Clone, Copy, Debug, PartialEq, Eq)]
pub struct UnknownNodeKind(pub u8);

impl NodeKind {
    // Its number in the image.
    pub fn number(self) -> u8
        ensures { result ≡ kind_number self }
    {
        self as u8
    }
}

impl TryFrom<u8> for NodeKind {
    type Error = UnknownNodeKind;

    ghost try_from_gives = { Decodes };

    fn try_from(n: u8) -> Result<Self, UnknownNodeKind> {
        match n {
            1 => Ok(NodeKind::Dense),
            2 => Ok(NodeKind::ByByte),
            3 => Ok(NodeKind::ByArrival),
            _ => Err(UnknownNodeKind(n)),
        }
    }
}

// A node kind with its lowest and its highest child count.
#[derive(Clone, Copy)]
pub struct KindRange {
    pub kind: NodeKind,
    pub lowest: usize,
    pub highest: usize,
}

impl KindRange {
    fn has(self, children: usize) -> bool
        ensures { result ≡ has self children }
    {
        self.lowest <= children && children <= self.highest
    }
}

pub const KINDS: [KindRange; 3] = [
    KindRange {
        kind: NodeKind::ByArrival,
        lowest: 0,
        highest: 8,
    },
    KindRange {
        kind: NodeKind::ByByte,
        lowest: 9,
        highest: 96,
    },
    KindRange {
        kind: NodeKind::Dense,
        lowest: 97,
        highest: 256,
    },
];

// The kind of a node with that many children; none beyond the table.
pub fn kind_of(children: usize) -> Option<NodeKind>
    ensures { kind_in result ≡ kind_of children }
{
    let range = KINDS.iter().find(|k| k.has(children))?;
    Some(range.kind)
}

// Whether a node of that kind may have that many children.
pub fn fits_kind(kind: NodeKind, children: usize) -> bool
    ensures { result ≡ fits (kind_number kind) children }
{
    kind_of(children) == Some(kind)
}
