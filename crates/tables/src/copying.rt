// The tables once more, in a heap that the caller gives: a `clone` takes memory from the heap that the value has.
ghost use Rattle.std.specs.Prelude.{◌≡◌, map, drop, IfOk};
ghost use Rattle.names.specs.Names.{spelled};
ghost use Rattle.tables.specs.Records.{behind};
ghost use Rattle.tables.specs.Spellings.{spellings};
ghost use Rattle.tables.specs.Views.{terms_seen, types_seen, variables_seen};

use crate::term_table::TermTable;
use crate::types::TypeTable;
use crate::variables::VariableTable;
use names::Name;
use std::alloc::{AllocError, Global};

// The same names once more.
fn copy_names(heap: Global, names: &[Name]) -> Result<Vec<Name>, AllocError>
    ensures names_spelled_the_same { IfOk result (λ v. map spelled v.items ≡ map spelled names.now) }
{
    names.iter().map(|name| name.copy(heap)).try_collect(heap)
}

// The same lists of names once more.
fn copy_lists(heap: Global, lists: &[Vec<Name>]) -> Result<Vec<Vec<Name>>, AllocError>
    ensures lists_of_names_spelled_the_same { IfOk result (λ v. spellings v ≡ map (λ list. map spelled list.items) lists.now) }
{
    lists
        .iter()
        .map(|list| copy_names(heap, list))
        .try_collect(heap)
}

// What stands behind the first `n`.
fn copy_behind<T: Copy>(heap: Global, items: &[T], n: usize) -> Result<Vec<T>, AllocError>
    ensures those_behind_the_first { IfOk result (λ v. v.items ≡ drop n items.now) }
{
    Vec::from_slice(heap, items.get(n..).unwrap_or_default())
}

impl TypeTable {
    // The same table once more.
    pub fn copy(&self, heap: Global) -> Result<TypeTable, AllocError>
        ensures types_that_say_the_same { IfOk result (λ t. types_seen t ≡ types_seen self.now) }
    {
        let names = copy_names(heap, &self.names)?;
        let values = copy_lists(heap, &self.values)?;
        let sizes = self.sizes.to_vec(heap)?;
        Ok(TypeTable {
            names,
            values,
            sizes,
        })
    }
}

impl VariableTable {
    // The same table once more.
    pub fn copy(&self, heap: Global) -> Result<VariableTable, AllocError>
        ensures variables_that_say_the_same { IfOk result (λ t. variables_seen t ≡ variables_seen self.now) }
    {
        let names = copy_names(heap, &self.names)?;
        let kinds = self.kinds.to_vec(heap)?;
        Ok(VariableTable {
            names,
            kinds,
            states: self.states,
        })
    }
}

impl TermTable {
    // The same table once more.
    pub fn copy(&self, heap: Global) -> Result<TermTable, AllocError>
        ensures terms_that_say_the_same { IfOk result (λ t. terms_seen t ≡ terms_seen self.now) }
    {
        let terms = self.terms.to_vec(heap)?;
        let sorts = self.sorts.to_vec(heap)?;
        Ok(TermTable { terms, sorts })
    }

    // The terms behind the first `n`, in a table of their own.
    pub fn behind(&self, heap: Global, n: usize) -> Result<TermTable, AllocError>
        ensures those_behind_the_first { IfOk result (λ t. terms_seen t ≡ behind n (terms_seen self.now)) }
    {
        let terms = copy_behind(heap, &self.terms, n)?;
        let sorts = copy_behind(heap, &self.sorts, n)?;
        Ok(TermTable { terms, sorts })
    }
}
