ghost use Rattle.std.specs.Iterator.{YieldsFirst, item_count};

use crate::{Guard, Tree};
use std::marker::Model;

/// The conditions around something, from an innermost one outward. Clauses see the list of them.
#[derive(Drop)]
pub struct GuardsAround<'t> {
    pub(crate) tree: &'t Tree,
    pub(crate) next: Option<u16>,
}

impl<'t> Model for GuardsAround<'t> {
    ghost use Rattle.std.specs.Prelude.{List};
    ghost use Rattle.tree.specs.Guards.{guards_around};
    ghost use Rattle.tree.specs.Model.{guards_of};
    ghost use Rattle.tree.specs.declared.Guard.{Guard};

    ghost Value = { List Guard };

    ghost view = { λ g. guards_around g.next (guards_of g.tree.now) };
}

impl<'t> Iterator for GuardsAround<'t> {
    type Item = Guard;

    ghost next_gives = { YieldsFirst (λ guards. guards) };

    ghost remaining = { item_count (λ guards. guards) };

    #[tactic(auto, using(crate::proofs::Chain::around_none))]
    fn next(&mut self) -> Option<Guard> {
        let place = self.next?;
        let guard = self.tree.guards.get(usize::from(place))?;
        self.next = self.tree.outer(place);
        Some(guard)
    }
}
