//! The lists of waiting requests: one for each word of an array, or for each session (`docs/model.md`,
//! "Waiting requests").

ghost use Rattle.std.specs.Prelude.{◌≡◌, ◌<◌, replicate, length, Some, slice_get, slice_set, IfOk};
ghost use Rattle.fe_waits.specs.within.Inner.{empty_chain};

use fe_memory::OutOfMemory;
use fe_pool::Chain;
use std::alloc::Global;
use std::marker::Model;

/// A fixed number of chains of a pool, one at each position.
pub(crate) struct Chains {
    chains: Vec<Chain>,
}

impl Drop for Chains {
    fn drop(self) {
        let Chains { chains } = self;
        drop(chains);
    }
}

impl Model for Chains {
    ghost use Rattle.std.specs.Prelude.{List};
    ghost use Rattle.fe_pool.specs.declared.chain.Chain.{Chain};

    ghost Value = { List Chain };

    ghost view = { λ c. c.chains.items };
}

impl Chains {
    // This many empty chains. Fails only if memory runs out.
    pub(crate) fn new(alloc: Global, count: usize) -> Result<Chains, OutOfMemory>
        ensures { IfOk result (λ chains. chains ≡ replicate count empty_chain) }
    {
        Ok(Chains {
            chains: vec![in alloc; Chain::EMPTY; count]?,
        })
    }

    pub(crate) fn at(&self, position: usize) -> Chain
        requires { position < length self.now }
        ensures { slice_get self.now position ≡ Some result }
    {
        self.chains[position]
    }

    pub(crate) fn set(&mut self, position: usize, chain: Chain)
        requires { position < length self.old }
        ensures { self.new ≡ slice_set self.old position chain }
    {
        self.chains[position] = chain;
    }
}
