//! What carrying sessions forward leaves as it was, as a function without effect.
ghost use Rattle.std.specs.Prelude.{List};
ghost use Rattle.acct_model.specs.declared.plan.Plan.{Plan};
ghost use Rattle.acct_model.specs.History.{History};
ghost use Rattle.acct_model.specs.Forward.{Batch};
ghost use Rattle.acct_book_forward.specs.Carrying.{SelectionFacts, CarriesChosen};
ghost use Rattle.acct_book_forward.specs.Carrying.{CarryingMovesNothing};

/// To carry sessions forward, batch after batch, moves no balance and no top-up. The same accounts
/// are known, and each session that stays and is no line keeps its row.
pub fn carrying_moves_nothing()
    ensures { (selection : SelectionFacts) (plans : List Plan) (history : History)
        (batches : List Batch) (after : History)
        → CarriesChosen selection plans history batches after
        → CarryingMovesNothing selection plans history batches after }
{}
