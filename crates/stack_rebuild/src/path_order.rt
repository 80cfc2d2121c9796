//! The numbers of paths, in the order of the paths.

ghost use Rattle.std.specs.{Prelude.{◌≡◌, length, IfOk, IsPermutation}, List.{range_with_len}};

use crate::node::{Node, links_of, sibling_of};
use std::alloc::Global;
use xray_io::NoMemory;

/// The numbers of all paths, each once.
///
/// They are in the order of the paths. No clause says so, since the rows are sorted in any case,
/// which takes little time if they are in order.
///
/// The tree is walked, and each number is exchanged with the one that stands at its place. So
/// whatever the links say, each number stays there once.
pub(crate) fn in_order(alloc: Global, nodes: &[Node]) -> Result<Vec<u32>, NoMemory>
    ensures { IfOk result (λ order. IsPermutation (range_with_len 0 (length nodes.now)) order.items) }
{
    let Ok(count) = u32::try_from(nodes.len()) else {
        return Err(NoMemory);
    };
    let mut order = numbers_below(alloc, count)?;
    let mut places = numbers_below(alloc, count)?;
    let mut ahead = Vec::new(alloc);
    ahead.push(0)?;
    'walking: for place in 0..count {
        let Some(number) = ahead.pop() else {
            break;
        };
        bring(&mut order, &mut places, number, place);
        add_next(&mut ahead, nodes, number)?;
    }
    Ok(order)
}

/// Exchanges a number with the one that stands at a place. `places` has the place of each number.
fn bring(order: &mut Vec<u32>, places: &mut [u32], number: u32, place: u32)
    ensures { IsPermutation order.old.items order.new.items }
{
    let Some(noted) = places.get(number as usize).copied() else {
        return;
    };
    let from = noted as usize;
    let to = place as usize;
    if from < order.len() && to < order.len() {
        let other = order[to];
        order.swap(from, to);
        put_place(places, number, place);
        put_place(places, other, noted);
    }
}

/// Notes the place of a number.
fn put_place(places: &mut [u32], number: u32, place: u32) {
    if let Some(noted) = places.get_mut(number as usize) {
        *noted = place;
    }
}

/// The numbers below a count.
fn numbers_below(alloc: Global, count: u32) -> Result<Vec<u32>, NoMemory>
    ensures { IfOk result (λ numbers. numbers.items ≡ range_with_len 0 count) }
{
    let mut numbers = Vec::with_capacity(alloc, count as usize)?;
    'listing: for number in 0..count {
        numbers.push(number)?;
    }
    Ok(numbers)
}

/// Adds the numbers of the paths that go on from a path, from the last path to the first.
fn add_next(ahead: &mut Vec<u32>, nodes: &[Node], parent: u32) -> Result<(), NoMemory> {
    let start = ahead.len();
    let links = links_of(nodes, parent);
    let mut number = links.first.number;
    let mut next = links.latest.number;
    'adding: for _ in 1..nodes.len() {
        if number == 0 {
            break;
        }
        ahead.push(number)?;
        number = next;
        next = sibling_of(nodes, number);
    }
    let added = &mut ahead[start..];
    added.sort_unstable_by(|one, other| func_of(nodes, *other).cmp(&func_of(nodes, *one)));
    Ok(())
}

/// The last function of a path.
fn func_of(nodes: &[Node], number: u32) -> Option<u32> {
    let node = nodes.get(number as usize)?;
    Some(node.step().func)
}
