ghost use Rattle.std.specs.Prelude.{◌≡◌, IfOk};
ghost use Rattle.config_rules.specs.InOrder.{places_of};
ghost use Rattle.config_rules.specs.Walking.{GivesNext, places_left};

use crate::place::{Space, Spot, scope_within, top};
use directive_text::Directive;
use std::alloc::Global;
use std::marker::Model;
use zone_outside::NoMemory;

/// A block, as far as it is walked.
#[derive(Clone, Copy)]
pub(crate) struct Frame<'a> {
    scope: Space<'a>,
    at: usize,
}

/// A walk over the directives of a tree that are read, in the order of the text: seen as the list of the places
/// that are left.
#[derive(Drop)]
pub struct Walk<'a> {
    open: Vec<Frame<'a>>,
}

impl<'a> Model for Walk<'a> {
    ghost use Rattle.std.specs.Prelude.{List};
    ghost use Rattle.std.specs.Coded.{codes};
    ghost use Rattle.directive_text.specs.contracts.tree.Directive as directive;
    ghost use Rattle.config_rules.specs.InOrder.{Place};
    ghost use Rattle.config_rules.specs.Walking.{places_left};

    ghost Value = { List Place };

    ghost coded = { Prim.hlevel (codes, directive.the_row.coded) };

    ghost view = { λ w. places_left w.open.items };
}

/// The next directive, in its place: that of the innermost block that has one left.
fn next_spot<'a>(stack: &mut Vec<Frame<'a>>) -> Result<Option<Spot<'a>>, NoMemory>
    ensures { IfOk result (λ next. GivesNext next (places_left stack.old.items) (places_left stack.new.items)) }
{
    'frames: while let Some(frame) = stack.pop() {
        let Frame { scope, at } = frame;
        if at < scope.block.len() {
            let directive = &scope.block[at];
            let before = &scope.block[..at];
            stack.push(Frame { scope, at: at + 1 })?;
            if let Some(inner) = scope_within(&scope, directive) {
                stack.push(Frame {
                    scope: inner,
                    at: 0,
                })?;
            }
            return Ok(Some(Spot {
                scope,
                before,
                directive,
            }));
        }
    }
    Ok(None)
}

impl<'a> Walk<'a> {
    /// A walk that begins at the text's first directive.
    pub fn new(alloc: Global, directives: &'a [Directive]) -> Result<Walk<'a>, NoMemory>
        ensures { IfOk result (λ walk. walk ≡ places_of directives.now) }
    {
        let mut open = Vec::new(alloc);
        open.push(Frame {
            scope: top(directives),
            at: 0,
        })?;
        Ok(Walk { open })
    }

    /// The next directive, in its place.
    pub fn next(&mut self) -> Result<Option<Spot<'a>>, NoMemory>
        ensures { IfOk result (λ next. GivesNext next self.old self.new) }
    {
        next_spot(&mut self.open)
    }
}
