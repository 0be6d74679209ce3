//! Reads the text of a mark.
ghost use Rattle.std.specs.Prelude.{◌≡◌, ◌<◌, ◌≤◌, ◌∷◌, ◌⊎◌, MatchOption};
ghost use Rattle.std.specs.Option.{ok_or};
ghost use Rattle.mark.specs.declared.refusal.Refusal.TheVariants.{NoMark};
ghost use Rattle.mark.specs.Found.{mark_of, TheMark};
ghost use Rattle.mark.specs.Marks.{Finds, Spaced, Lone, SpacedTwo, ReadAs, Only, AtMostOne};

use crate::mark::Mark;
use crate::numbers::Number;
use crate::refusal::Refusal;
use crate::{hex, numbers};

/// The number at the front, after one space.
fn spaced(text: &[u8]) -> Option<Number<'_>>
    ensures { Spaced text.now result }
{
    numbers::read(text.strip_prefix(b" ")?)
}

/// The number of a node that a mark may name: 1 to 15.
fn node_of(value: u16) -> Option<u8>
    ensures { MatchOption result ((value ≡ 0) ⊎ (15 < value)) (λ n. (n ≡ value) × (1 ≤ n) × (n ≤ 15)) }
{
    u8::try_from(value)
        .ok()
        .filter(|node| (1..=15).contains(node))
}

/// The one number of a mark that has no other: a node's.
fn lone_node(body: &[u8]) -> Option<u8>
    ensures { Lone body.now result }
{
    let n = spaced(body)?;
    if !n.rest.is_empty() {
        return None;
    }
    node_of(n.value)
}

/// A node, its parent, and what follows their numbers.
#[derive(Clone, Copy, Debug)]
pub(crate) struct NodeAndParent<'a> {
    node: u8,
    parent: u8,
    rest: &'a [u8],
}

/// The numbers of a node and of its parent, which is a lower one.
fn node_and_parent(body: &[u8]) -> Option<NodeAndParent<'_>>
    ensures { SpacedTwo body.now result }
{
    let n = spaced(body)?;
    let p = spaced(n.rest)?;
    let node = node_of(n.value)?;
    let parent = u8::try_from(p.value).ok().filter(|parent| *parent < node)?;
    Some(NodeAndParent {
        node,
        parent,
        rest: p.rest,
    })
}

/// What follows the letter f.
fn file(body: &[u8]) -> Option<Mark>
    ensures { Finds (102 ∷ body.now) result }
{
    let NodeAndParent { node, parent, rest } = node_and_parent(body)?;
    let l = spaced(rest)?;
    let print = hex::eight(l.rest.strip_prefix(b" ")?)?;
    if l.value > 512 {
        return None;
    }
    Some(Mark::File {
        node,
        parent,
        length: l.value,
        print,
    })
}

/// What follows the letter d, the kernel's closing text too.
fn directory(body: &[u8]) -> Option<Mark>
    ensures { Finds (100 ∷ body.now) result }
{
    if body == b"m-log-writes-end".as_slice() {
        return Some(Mark::Comment);
    }
    let NodeAndParent { node, parent, rest } = node_and_parent(body)?;
    rest.is_empty().then_some(Mark::Directory { node, parent })
}

/// The mark that spells `text`, by its first letter.
fn find(text: &[u8]) -> Option<Mark>
    ensures { Finds text.now result }
{
    let (first, body) = text.split_first()?;
    // The letters are the rules'.
    match char::from(*first) {
        'f' => file(body),
        'd' => directory(body),
        'x' => lone_node(body).map(|node| Mark::Absent { node }),
        's' => lone_node(body).map(|node| Mark::Sync { node }),
        '#' => Some(Mark::Comment),
        _ => None,
    }
}

/// The one mark that spells `text`.
pub fn read_mark(text: &[u8]) -> Result<Mark, Refusal>
    ensures spelled { ReadAs text.now result }
    ensures only { Only text.now result }
    ensures value { result ≡ ok_or (mark_of text.now) NoMark }
{
    find(text).ok_or(Refusal::NoMark)
}

/// A text spells at most one mark, and `mark_of` is that one.
#[tactic(auto, using(crate::proofs::Unique::one, crate::proofs::Finding::the_mark))]
pub fn at_most_one()
    ensures one { AtMostOne }
    ensures found { TheMark }
{}
