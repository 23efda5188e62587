// The running tally of an index: nodes charged, entries charged, phase. It is lent to `record` and `finish`;
// the work is in functions that take it by value.
#![tactic(auto)]

ghost use Rattle.std.specs.Prelude.{◌≡◌, ◌+◌, ◌^◌, ◌<◌};
ghost use Rattle.tally.specs.Phases.{phase_number, Decodes};
ghost use Rattle.tally.specs.Tallied.{recorded, finished};

// An open index takes blocks, a finished one is searched. The header has the number in the declaration.
#[derive(Clone, Copy, Debug, PartialEq, Eq)]
pub enum Phase {
    Open = 0,
    Finished = 1,
}

// A number that is no phase's.
#[derive(Clone, Copy, Debug, PartialEq, Eq)]
pub struct UnknownPhase(pub u64);

impl Phase {
    // Its number in the header.
    pub fn number(self) -> u64
        ensures { result ≡ phase_number self }
    {
        self as u64
    }
}

impl TryFrom<u64> for Phase {
    type Error = UnknownPhase;

    ghost try_from_gives = { Decodes };

    fn try_from(n: u64) -> Result<Self, UnknownPhase> {
        match n {
            0 => Ok(Phase::Open),
            1 => Ok(Phase::Finished),
            _ => Err(UnknownPhase(n)),
        }
    }
}

// The phase is a number here, and may be one that no phase has: a tally is copied with its header for each block, and an enum that
// says any number would lengthen both.
#[derive(Clone, Copy, Debug, PartialEq, Eq)]
pub struct Tally {
    pub nodes: usize,
    pub entries: usize,
    pub phase: u64,
}

// The tally after a block that charges these nodes and entries.
fn recorded(t: Tally, nodes: usize, entries: usize) -> Tally
    requires { (t.nodes + nodes < 2 ^ 64) × (t.entries + entries < 2 ^ 64) }
    ensures { result ≡ recorded t nodes entries }
{
    Tally {
        nodes: t.nodes + nodes,
        entries: t.entries + entries,
        ..t
    }
}

// The tally of a finished index that is left with these nodes and entries.
fn finished(nodes: usize, entries: usize) -> Tally
    ensures { result ≡ finished nodes entries }
{
    Tally {
        nodes,
        entries,
        phase: Phase::Finished.number(),
    }
}

// Charges a block to the lent tally.
pub fn record(t: &mut Tally, nodes: usize, entries: usize)
    requires { (t.old.nodes + nodes < 2 ^ 64) × (t.old.entries + entries < 2 ^ 64) }
    ensures { t.new ≡ recorded t.old nodes entries }
{
    *t = recorded(*t, nodes, entries);
}

// Sets the lent tally as finish does, whatever it was before.
pub fn finish(t: &mut Tally, nodes: usize, entries: usize)
    ensures { t.new ≡ finished nodes entries }
{
    *t = finished(nodes, entries);
}
