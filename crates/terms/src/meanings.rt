// Reading a table of terms from its first term to its last, whatever its trees are read as.
ghost use Rattle.std.specs.Prelude.{◌≡◌, List, map, IfOk, slice_index_or};
ghost use Rattle.semantics.specs.Trees.{Tree};
ghost use Rattle.terms.specs.Trees.{tree_of, trees};

use crate::Term;
use std::alloc::{AllocError, Global};

// What stands at a number, or else the default.
pub fn at_or<T: Copy>(items: &[T], n: u16, default: T) -> T
    ensures the_item_or_the_default { result ≡ slice_index_or items.now n default }
{
    items.get(n as usize).copied().unwrap_or(default)
}

// A reading of trees that a term has by what the terms before it are read as.
pub trait Meaning {
    // What a tree is read as.
    type Item: Copy;

    ghost meaning: { Self → Tree → Self.Item };

    // What a term is read as, given what the terms before it are read as.
    fn read(&self, before: &[Self::Item], term: Term) -> Self::Item
        ensures what_its_tree_is_read_as { (earlier : List Tree) → before.now ≡ map (meaning self.now) earlier → result ≡ meaning self.now (tree_of earlier term) };
}

// What each of the terms is read as.
#[tactic(auto, using(crate::proofs::Tables::trees_none))]
pub fn meanings<M: Meaning>(
    heap: Global,
    reading: &M,
    terms: &[Term],
) -> Result<Vec<M::Item>, AllocError>
    ensures what_each_tree_is_read_as { IfOk result (λ v. v.items ≡ map (M.Meaning.meaning reading.now) (trees terms.now)) }
{
    let mut before = Vec::new(heap);
    for term in terms {
        let next = reading.read(before.as_slice(), *term);
        before.push(next)?;
    }
    Ok(before)
}
