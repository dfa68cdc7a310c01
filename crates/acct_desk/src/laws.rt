//! Laws of the desk, as functions without effect.
ghost use Rattle.acct_desk.specs.Laws.{OneThingIsAsked, MeFromPart};
ghost use Rattle.acct_desk.specs.LoginLaws.{PaidOctetsCostTheBalance, LoginKeepsBalance};
ghost use Rattle.acct_desk.specs.OverdrawnLaws.{PartsAreWhole};
ghost use Rattle.acct_desk.specs.LoginLaws.{IdsAreRead, ToldStampsAreRead};
ghost use Rattle.acct_desk.specs.SignedKeyLaws.{SignedKeysAreRead, SignedKeysDiffer};
ghost use Rattle.acct_desk.specs.SignedKeyLaws.{SignedKeysAreInForce, SignedKeysAreApart};

/// No request asks a desk for two things.
pub fn one_thing_is_asked()
    ensures { OneThingIsAsked }
{}

/// What a guest sees depends only on the guest's own account. Take two histories in which an
/// account has the same part. A request by its own key for one of its pages gets the same octets
/// over both, if the book answers and there is memory.
pub fn me_from_part()
    ensures { MeFromPart }
{}

/// A session whose counted number rises by at most what a balance pays costs at most the balance
/// more, also from a block that it has begun.
pub fn paid_octets_cost_the_balance()
    ensures { PaidOctetsCostTheBalance }
{}

/// A login is told what the balance of its account pays by a plan. If after that only reports of one
/// session of that plan are accepted, and it counts at most so much more, the balance stays at 0 or
/// above. Of a plan without a price nothing is said, and with several sessions it may fall below 0.
pub fn login_keeps_balance()
    ensures { LoginKeepsBalance }
{}

/// Who asks for the open sessions of accounts below 0 from the first part on, each from where the one
/// before ended, is told of each such account once, and of all its open sessions, if nothing was
/// recorded meanwhile.
pub fn parts_are_whole()
    ensures { PartsAreWhole }
{}

/// The id that an access server gave a session of a stamped client is read from the session's name
/// as it was.
pub fn ids_are_read()
    ensures { IdsAreRead }
{}

/// The stamp that a login is told is read by the site as its plan, its login and its account.
pub fn told_stamps_are_read()
    ensures { ToldStampsAreRead }
{}

/// A value is read as a signed key if, and only if, a secret of the site made it, and as what it
/// was made of.
pub fn signed_keys_are_read()
    ensures { SignedKeysAreRead }
{}

/// Signed keys of different accounts or ends differ, whoever made them.
pub fn signed_keys_differ()
    ensures { SignedKeysDiffer }
{}

/// A value shows the pages of an account at a moment if, and only if, a secret of the site made it
/// of the account and a last second that is not past, and that no withdrawal of the account
/// reaches.
pub fn signed_keys_are_in_force()
    ensures { SignedKeysAreInForce }
{}

/// A signed key is no stamp and no token of the configuration, whoever made it.
pub fn signed_keys_are_apart()
    ensures { SignedKeysAreApart }
{}
