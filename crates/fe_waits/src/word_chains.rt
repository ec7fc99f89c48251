//! For each word of each array, the list of the requests that wait on it (`docs/model.md`, "Waiting
//! requests").

ghost use Rattle.std.specs.Prelude.{◌≡◌, Some, IsSome};
ghost use Rattle.fe_waits.specs.within.Inner.{chain_at, with_chain};

use crate::chains::Chains;
use fe_pool::Chain;
use fe_table::Table;

/// The maximum number of arrays.
pub(crate) const ARRAYS: usize = 64;

/// The chain of each word of the added arrays, by the array's id.
pub(crate) type WordChains = Table<Chains, ARRAYS>;

// The chain of an existing word.
pub(crate) fn chain(words: &WordChains, array: u64, index: u32) -> Chain
    requires word { IsSome (chain_at words.now (array, index)) }
    ensures { chain_at words.now (array, index) ≡ Some result }
{
    let chains = words.get(array).unwrap();
    chains.at(index as usize)
}

// Replaces the chain of an existing word.
pub(crate) fn set_chain(words: &mut WordChains, array: u64, index: u32, chain: Chain)
    requires word { IsSome (chain_at words.old (array, index)) }
    ensures { words.new ≡ with_chain words.old array index chain }
{
    words.get_mut(array).set(index as usize, chain);
}
