// The layout of a saved image, read in its own order: the first faulty field decides.
#![tactic(auto)]

ghost use Rattle.std.specs.Prelude.{◌≡◌, ◌+◌, ◌*◌, ◌≤◌, ◌<◌, length};
ghost use Rattle.image_format.specs.Reading.{read_table, read_node, read_counts, read_root, read_image};
ghost use Rattle.fields.specs.Answers.{layout_of, step_of, table_in};

use definitions::Refusal;
use fields::{Children, Counts, Due, Past};

// The children of a node, in the order of the layout, with as many levels yet allowed as left says.
#[cycle(read_node_read_table)]
fn read_table(c: Children, left: usize) -> Result<Past, Refusal>
    ensures { step_of result ≡ read_table c.entry.bytes.now (read_node c.entry.bytes.now left) (table_in c.entry) }
{
    let mut past = Past {
        at: c.start,
        nodes: 0,
        entries: 0,
    };
    let mut met = 0;
    let mut i = 0;
    while i < c.turns {
        let turn = c.next_turn(i);
        i = turn + 1;
        match c.turn_at(turn, past.at)? {
            Due::Nothing => {}
            Due::Gap => past.at += 1,
            Due::Child => {
                let child = read_node(c.bytes, past.at + 1, left)?;
                met += 1;
                past = Past {
                    at: child.at,
                    nodes: past.nodes + child.nodes,
                    entries: past.entries + child.entries,
                };
            }
        }
    }
    fields::all_met(c.kind, met, past)
}

// The node at an index, with as many levels yet allowed as left says: where there is none, the flag before it is wrong.
// It steps over nodes with one child and no lists first, which are most of them.
#[cycle(read_node_read_table)]
fn read_node(s: &[u8], at: usize, left: usize) -> Result<Past, Refusal>
    requires { at ≤ length s.now }
    ensures { step_of result ≡ read_node s.now left at }
{
    let singles = fields::singles_below(s, at, left);
    let levels = left - singles;
    if levels == 0 {
        return Err(Refusal::ImageBroken);
    }
    let head = fields::read_head(s, at + fields::SINGLE_SIZE * singles)?;
    let children = fields::open_table(s, head.kind, head.at)?;
    let past = read_table(children, levels - 1)?;
    Ok(Past {
        at: past.at,
        nodes: past.nodes + 1 + singles,
        entries: head.entries + past.entries,
    })
}

// The image of an empty index: three counts of 0.
fn read_empty(s: &[u8]) -> Result<Past, Refusal>
    requires { 1 ≤ length s.now }
    ensures { step_of result ≡ read_counts s.now 3 1 }
{
    for i in 0..3 {
        let at = 1 + i * 8;
        if s.len() - at < 8 {
            return Err(Refusal::CutShort);
        }
        if words::get64(s, at) != 0 {
            return Err(Refusal::ImageBroken);
        }
    }
    Ok(Past {
        at: image_format::EMPTY_SIZE,
        nodes: 1,
        entries: 0,
    })
}

fn read_root(s: &[u8]) -> Result<Past, Refusal>
    ensures { step_of result ≡ read_root s.now }
{
    if s.len() == 0 {
        return Err(Refusal::CutShort);
    }
    if s[0] == 0 {
        return read_empty(s);
    }
    read_node(s, 0, trie::MAX_DEPTH + 1)
}

// A whole image: its nodes, at least one, and its entries; or what is wrong, as document 01 says.
pub fn read_image(s: &[u8]) -> Result<Counts, Refusal>
    ensures { layout_of result ≡ read_image s.now }
{
    let root = read_root(s)?;
    if root.at != s.len() {
        return Err(Refusal::ImageBroken);
    }
    Ok(Counts {
        nodes: root.nodes,
        entries: root.entries,
    })
}
