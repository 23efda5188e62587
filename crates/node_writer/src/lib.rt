// The image of sorted tails: a node with its lists, its table, and the nodes below it.
#![tactic(auto)]

ghost use Rattle.std.specs.Prelude.{◌+◌, ◌-◌, ◌*◌, ◌≤◌, ◌<◌, length};
ghost use Rattle.slot_writer.specs.Turns.{TurnAsked, Turned};
ghost use Rattle.node_writer.specs.Images.{ImageAsked, ImageWritten};
ghost use Rattle.single_writer.specs.Nodes.{TableAsked, TableWritten, SpanWritten, NodeAsked};
ghost use Rattle.single_writer.specs.Heads.{HeadAsked, HeadWritten};

use kinds::NodeKind;
use list_writer::End;
use single_writer::Head;
use slot_writer::{Table, Turn};
use tail_groups::{Grouping, NO_GROUPS, Span};

// How many levels of nodes an image can have: paths have at most 16 bytes.
const LEVELS: usize = 17;

// How far a table is: the turn that comes next, how many children were met, and where the image ends.
#[derive(Clone, Copy)]
pub struct Progress {
    pub turn: usize,
    pub met: usize,
    pub end: End,
}

// Writes the entry and the flag of the next turn.
fn put_turn(mem: &mut [u8], s: Span, t: Table, groups: &Grouping, p: Progress) -> Turn
    requires { TurnAsked mem.old s.work s.lo s.hi s.depth t groups.now.count groups.now p.turn p.met × (t.start + p.turn ≤ p.end.at) × (p.end.at + 1 ≤ length mem.old) × (64 ≤ p.end.at) }
    ensures { Turned mem.old mem.new s.work s.lo s.hi s.depth t groups.now.count p.turn p.met p.end result }
{
    let at = p.end.at;
    let group = slot_writer::group_of(mem, s, t, groups, p.turn, p.met);
    let end = slot_writer::behind_flag(p.end);
    let Some(g) = group else {
        slot_writer::put_slot(mem, t.base + p.turn * 8, at, 0);
        return Turn { group, end };
    };
    if let NodeKind::Dense = t.kind {
        slot_writer::put_slot(mem, t.base + p.turn * 8, at, 1);
        return Turn { group, end };
    }
    slot_writer::put_entry(mem, s, t.base, groups, g, at);
    Turn { group, end }
}

// Writes the kind and the lists of a node, and finds its groups.
fn put_head(mem: &mut [u8], s: Span, e: End, groups: &mut Grouping) -> Head
    requires { HeadAsked mem.old s.work s.lo s.hi s.depth e }
    ensures { HeadWritten mem.old mem.new s.work s.lo s.hi s.depth e groups.new result }
{
    let parts = tail_groups::run_end(mem, s, false);
    let below = tail_groups::run_end(mem, Span { lo: parts, ..s }, true);
    tail_groups::find_groups(mem, Span { lo: below, ..s }, groups);
    let end = single_writer::put_front(mem, s, parts, below, groups.count, e);
    Head { below, end }
}

// Writes the table of a node, whose tails that go on are those of s, and its children, one for each group.
#[cycle(put_node_put_table)]
fn put_table(mem: &mut [u8], s: Span, e: End, groups: &Grouping, levels: &mut [Grouping]) -> End
    requires { TableAsked mem.old s.work s.lo s.hi s.depth groups.now.count e groups.now (16 - s.depth) × (16 - s.depth ≤ length levels.old) }
    ensures { TableWritten mem.old mem.new s.work s.lo s.hi s.depth groups.now.count e (16 - s.depth) result }
{
    let t = slot_writer::put_count(mem, e.at, groups.count);
    let mut end = End { at: t.start, ..e };
    let mut met = 0;
    for j in 0..t.turns {
        let turn = put_turn(mem, s, t, groups, Progress { turn: j, met, end });
        end = turn.end;
        let Some(g) = turn.group else {
            continue;
        };
        let child = slot_writer::child_span(groups, s, g);
        end = put_node(mem, child, end, levels);
        met += 1;
    }
    end
}

// Writes the node of the tails of a span, and all below it; its groups take the first of the levels.
#[cycle(put_node_put_table)]
fn put_node(mem: &mut [u8], s: Span, e: End, levels: &mut [Grouping]) -> End
    requires { NodeAsked mem.old s.work s.lo s.hi s.depth e (16 - s.depth) × (16 - s.depth < length levels.old) }
    ensures { SpanWritten mem.old mem.new s.work s.lo s.hi s.depth e (16 - s.depth) result }
{
    if s.hi - s.lo == 1 {
        return single_writer::put_singles(mem, s.work, s.lo, s.depth, e);
    }
    let Some((groups, below)) = levels.split_first_mut() else {
        unreachable!()
    };
    let h = put_head(mem, s, e, groups);
    let branches = Span { lo: h.below, ..s };
    put_table(mem, branches, h.end, groups, below)
}

// Writes the image of the sorted tails from byte 64 on: 25 zero bytes where there are none.
pub fn put_image(mem: &mut [u8], work: usize, tails: usize) -> End
    requires { ImageAsked mem.old work tails }
    ensures { ImageWritten mem.old mem.new work tails result }
{
    if tails == 0 {
        copying::clear(mem, 64, 89);
        return End {
            at: 89,
            nodes: 1,
            entries: 0,
        };
    }
    let start = End {
        at: 64,
        nodes: 0,
        entries: 0,
    };
    let all = Span {
        work,
        lo: 0,
        hi: tails,
        depth: 0,
    };
    let mut levels = [NO_GROUPS; LEVELS];
    put_node(mem, all, start, &mut levels)
}
