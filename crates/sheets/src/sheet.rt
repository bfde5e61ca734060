ghost use Rattle.std.specs.Prelude.{◌^◌, ◌<◌, ◌≤◌, vec_len, vec_capacity};
ghost use Rattle.sets.specs.Limit.{limit};
ghost use Rattle.sheets.specs.Limits.{max_clauses};
ghost use Rattle.sheets.specs.Clauses.{Owned, Known, Among, Mutual, Irreflexive};

use crate::clause::Clause;
use sets::ComponentSet;

mod calls;
mod changes;
mod health;

/// Components, what each needs and what it conflicts with.
///
/// Room for every component and clause that a sheet may have is taken when it is made, so no later change asks for memory.
/// Contracts see it by `model`, and it has no `impl Model`: what the ghost fields say is to be known of every sheet, wherever
/// one stands. They say it one by one, since proofs find and cite them so.
#[derive(PartialEq, Eq, Debug, Drop)]
pub struct Sheet {
    present: ComponentSet,
    clauses: Vec<Clause>,
    conflicts: Vec<ComponentSet>,
    ghost small: { vec_len conflicts ≤ limit },
    ghost bounded: { present < 2 ^ vec_len conflicts },
    ghost row_room: { limit ≤ vec_capacity conflicts },
    ghost few: { vec_len clauses ≤ max_clauses },
    ghost clause_room: { max_clauses ≤ vec_capacity clauses },
    ghost owned: { Owned present clauses.items },
    ghost known: { Known present clauses.items },
    ghost among: { Among present conflicts.items },
    ghost mutual: { Mutual conflicts.items },
    ghost irreflexive: { Irreflexive conflicts.items },
}
