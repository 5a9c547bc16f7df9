ghost use Rattle.std.specs.Prelude.{◌≡◌, []};
ghost use Rattle.offset_tree.specs.Layout.{IsContext, IsTree};
ghost use Rattle.offset_tree.specs.Changes.{MakesEmpty};

use crate::links::sentinel;
use crate::tree::Tree;
use zone_region::Blocks;

/// Sets the root and the sentinel's offset to the sentinel, and clears the sentinel's five words.
fn write_context<B: Blocks>(blocks: &mut B, t: &Tree)
    requires { IsContext (B.words blocks.old) t.now }
    ensures does { MakesEmpty (B.words blocks.old) (B.words blocks.new) t.now.context.at }
    ensures rest { B.rest blocks.new ≡ B.rest blocks.old }
{
    let nil = sentinel(t);
    blocks.set(t.context, 0, nil);
    blocks.set(t.context, 1, nil);
    blocks.set(t.context, 3, 0);
    blocks.set(t.context, 4, 0);
    blocks.set(t.context, 5, 0);
    blocks.set(t.context, 6, 0);
    blocks.set(t.context, 7, 0);
}

impl Tree {
    /// Makes the tree empty (`ngx_rbtree_init`): the root is the sentinel, whose five words are 0.
    pub fn init<B: Blocks>(&self, blocks: &mut B)
        requires { IsContext (B.words blocks.old) self.now }
        ensures lays { IsTree (B.words blocks.new) self.now [] }
        ensures changes { MakesEmpty (B.words blocks.old) (B.words blocks.new) self.now.context.at }
        ensures rest { B.rest blocks.new ≡ B.rest blocks.old }
    {
        write_context(blocks, self);
    }
}
