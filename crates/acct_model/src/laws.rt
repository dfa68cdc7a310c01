//! Laws of the definitions: functions without effect, whose contracts are the laws.
ghost use Rattle.acct_model.specs.Laws.{ShownReadsBack, FirstIsDeepest, GreatestCountIsReached};
ghost use Rattle.acct_model.specs.Laws.{SessionsAreReported, VouchersAreToppedUp};
ghost use Rattle.acct_model.specs.Laws.{TopUpIsFirst, KnownAccountsOwn};
ghost use Rattle.acct_model.specs.PlanLaws.{StartedBlocksAreLeast, FaultlessPlansKeepBounds};
ghost use Rattle.acct_model.specs.PlanLaws.{EachClassIsPlanned, PlanIsOfItsClass};
ghost use Rattle.acct_model.specs.MoneyLaws.{SessionIsCharged, MoneyMovesOnce};
ghost use Rattle.acct_model.specs.KeptLaws.{PlansAreKept};
ghost use Rattle.acct_model.specs.Forward.{SessionsStandAlone, ForwardMovesNothing, ForwardGoesOn};
ghost use Rattle.acct_model.specs.Course.{ForwardSettles};
ghost use Rattle.acct_model.specs.StampLaws.{StampsAreRead, StampsDiffer, SessionsDiffer};

/// The blocks that a price counts cover the octets, and fewer do not.
pub fn started_blocks_are_least()
    ensures { StartedBlocksAreLeast }
{}

/// Plans have no fault exactly if each block is 1 to 2^53, each unit at most 10^9, no two have one
/// class, and one has the class `default`.
pub fn faultless_plans_keep_bounds()
    ensures { FaultlessPlansKeepBounds }
{}

/// The plan of a class has the class, or no plan has it and it is `default`.
pub fn plan_is_of_its_class()
    ensures { PlanIsOfItsClass }
{}

/// Among plans without a fault each class has one.
pub fn each_class_is_planned()
    ensures { EachClassIsPlanned }
{}

/// Shown octets read back.
pub fn shown_reads_back()
    ensures { ShownReadsBack }
{}

/// A session's first report is the one that was accepted first.
pub fn first_is_deepest()
    ensures { FirstIsDeepest }
{}

/// The greatest number that a plan counts is that of one of the reports, and none is above it.
pub fn greatest_count_is_reached()
    ensures { GreatestCountIsReached }
{}

/// The sessions of a history are those of its reports, each once.
pub fn sessions_are_reported()
    ensures { SessionsAreReported }
{}

/// The vouchers of an account are those of the top-ups to it, each once.
pub fn vouchers_are_topped_up()
    ensures { VouchersAreToppedUp }
{}

/// The accounts of a history are those that own a session or a voucher.
pub fn known_accounts_own()
    ensures { KnownAccountsOwn }
{}

/// The top-up by a number is in the history, and none by the number was accepted before it.
pub fn topup_is_first()
    ensures { TopUpIsFirst }
{}

/// A session costs its plan's unit for each of the least blocks that cover the greatest number that
/// the plan counts of one of its reports.
pub fn session_is_charged()
    ensures { SessionIsCharged }
{}

/// A report moves a balance only if its plan counts more of it than of each earlier report of its
/// session, and gives no money back. A voucher is credited once. A restart moves no money and is
/// always admissible.
pub fn money_moves_once()
    ensures { MoneyMovesOnce }
{}

/// A session keeps the plan that its first report found among the plans in force then, whatever
/// plans are added later. An addition of plans moves no money.
pub fn plans_are_kept()
    ensures { PlansAreKept }
{}

/// The reports of a session may be taken out of a history. The balance of its owner then rises by
/// what the session costs, and no other balance, session, plan or top-up changes.
pub fn sessions_stand_alone()
    ensures { SessionsStandAlone }
{}

/// Carrying sessions of one account and plan forward moves no balance. Their reports are taken out,
/// and one report of another session counts the blocks that they had started. The same accounts are
/// known.
pub fn forward_moves_nothing()
    ensures { ForwardMovesNothing }
{}

/// A history in which sessions were carried forward goes on as the one in which none were. What is
/// accepted later and what plans are added move the same balances, except for reports of those
/// sessions.
pub fn forward_goes_on()
    ensures { ForwardGoesOn }
{}

/// Disturbed delivery: if sessions are carried forward now and then and no report of them is
/// accepted later, the balances are those of what was sent.
pub fn forward_settles()
    ensures { ForwardSettles }
{}

/// A value is read as a stamp if, and only if, a secret of the site made it, and as what it was
/// made of.
pub fn stamps_are_read()
    ensures { StampsAreRead }
{}

/// Stamps of different plans, logins or accounts differ, whoever made them.
pub fn stamps_differ()
    ensures { StampsDiffer }
{}

/// Two sessions of a stamped client have one name only if their own ids, their logins and who pays
/// for them are the same.
pub fn stamped_sessions_differ()
    ensures { SessionsDiffer }
{}
