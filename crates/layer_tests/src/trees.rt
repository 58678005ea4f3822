//! Tests of a tree: what is found and written, and what is made again where it was dropped.

use instance_tree::{Span, Tree};
use ritas_base::Slot;

// Makes a value at a slot that has none.
fn put(rt: &HostRuntime, tree: &mut Tree<u32>, slot: Slot, value: u32) -> bool {
    if tree.find(&slot).is_some() {
        return false;
    }
    tree.make(rt.alloc(), slot, value).is_ok()
}

fn has(tree: &Tree<u32>, slot: Slot, value: u32) -> bool {
    match tree.find(&slot) {
        Some(found) => *found == value,
        None => false,
    }
}

// The tables of a tree are for a window of slots or for a session, and the tree is the same map.
const SPANS: [Span; 2] = [Span::Window, Span::Session];

#[test]
fn a_value_is_made_found_and_written(rt: HostRuntime) {
    for span in SPANS {
        let mut tree = Tree::new(rt.alloc(), span);
        assert!(rt; put(&rt, &mut tree, Slot::command(2, 7), 70));
        assert!(rt; has(&tree, Slot::command(2, 7), 70));
        assert!(rt; tree.find(&Slot::command(3, 7)).is_none());
        assert!(rt; tree.find_mut(&Slot::command(2, 8)).is_none());
        if let Some(value) = tree.find_mut(&Slot::command(2, 7)) {
            *value = 71;
        }
        assert!(rt; has(&tree, Slot::command(2, 7), 71));
        assert!(rt; !put(&rt, &mut tree, Slot::command(2, 7), 72));
    }
}

// How many slots `nth` has.
const MANY: u32 = 1152;

// Slots of six classes, of rounds up to 193, two tries, three binary rounds, two steps and two origins. Many share a place.
fn nth(i: u32) -> Slot {
    Slot {
        class: (i % 6) as u8,
        a: i / 6 % 4 * 64 + i / 24 % 2,
        attempt: (i / 48 % 2 * 4) as u8,
        bround: (i / 96 % 3 * 2) as u8,
        step: (i / 288 % 2 + 1) as u8,
        origin: (i / 576 % 2 * 200) as u8,
    }
}

// Gives each of these slots its number, where it has none.
fn fill(rt: &HostRuntime, tree: &mut Tree<u32>) -> bool {
    for i in 0..MANY {
        if tree.find(&nth(i)).is_none() && !put(rt, tree, nth(i), i) {
            return false;
        }
    }
    true
}

// Whether each of these slots has its number, but those of rounds before this one, and the commands of origin 200 that are
// numbered below, which have none.
fn are_left(tree: &Tree<u32>, round: u32, below: u32) -> bool {
    for i in 0..MANY {
        let slot = nth(i);
        let is_round = slot.class >= 2 && slot.class <= 5 && slot.a < round;
        let is_command = slot.class == 1 && slot.origin == 200 && slot.a < below;
        let is_right = match tree.find(&slot) {
            Some(value) => *value == i && !is_round && !is_command,
            None => is_round || is_command,
        };
        if !is_right {
            return false;
        }
    }
    true
}

// Commands go first. What went is made again, lesser numbers too, and goes in another order.
#[test]
fn what_was_dropped_is_made_again(rt: HostRuntime) {
    for span in SPANS {
        let mut tree = Tree::new(rt.alloc(), span);
        assert!(rt; fill(&rt, &mut tree));
        tree.drop_commands(200, 66);
        tree.drop_before(193);
        assert!(rt; are_left(&tree, 193, 66));
        assert!(rt; fill(&rt, &mut tree) && are_left(&tree, 0, 0));
        tree.drop_commands(3, 193);
        assert!(rt; are_left(&tree, 0, 0));
        tree.drop_before(64);
        tree.drop_commands(200, 1);
        assert!(rt; are_left(&tree, 64, 1));
    }
}
