// The index rule of a finished index, and the one verdict on an image: its layout, the rule, and conflicts.
#![tactic(auto)]

ghost use Rattle.std.specs.Prelude.{◌≡◌};
ghost use Rattle.trie.specs.Test.{index_rule};
ghost use Rattle.image_format.specs.Held.{trie_in};
ghost use Rattle.fields.specs.Answers.{layout_of};
ghost use Rattle.image_format.specs.Reading.{RightImage};
ghost use Rattle.image_format.specs.Check.{check_image};

use definitions::Refusal;
use fields::Counts;
use forest_rule::Siblings;
use fronts::{Front, STACK_SIZE};
use image_walk::Table;
use location_lists::{Lists, Span};

// A place on the stack of fronts that is not in use.
const NO_FRONT: Front = Front {
    table: Table { at: 0, count: 0 },
    mask: 0,
};

// The most lists at once: two for each of 256 children.
const LISTS_SIZE: usize = 512;

// Whether the finished index rule holds of an image whose layout is right.
pub fn index_rule(s: &[u8]) -> bool
    requires { RightImage s.now }
    ensures { result ≡ index_rule (trie_in s.now) }
{
    if image_walk::is_empty(s) {
        return true;
    }
    let mut fronts = [NO_FRONT; STACK_SIZE];
    let mut each = [Span { at: 0, end: 0 }; LISTS_SIZE];
    let mut lists = Lists::new(&mut each);
    let root = image_walk::node_at(s, 0);
    if !node_rule::node_right(s, root, 0, &mut lists) {
        return false;
    }
    let count = fronts::root_fronts(s, root.table, &mut fronts);
    let below = Siblings {
        table: root.table,
        depth: 0,
        left: 16,
    };
    forest_rule::children_right(s, below, &mut fronts, count, &mut lists)
}

// An image: its layout, then the index rule of what it holds, and last whether its pieces conflict.
pub fn check(s: &[u8]) -> Result<Counts, Refusal>
    ensures { layout_of result ≡ check_image s.now }
{
    let counts = image::read_image(s)?;
    if !index_rule(s) {
        return Err(Refusal::ImageBroken);
    }
    if !image_conflicts::conflict_free(s) {
        return Err(Refusal::Conflict);
    }
    Ok(counts)
}
