//! The law of damage, as a function without effect.
ghost use Rattle.acct_sql_log.specs.Left.{LeftIsSound};

/// Nothing that a crash leaves of a log is damage.
pub fn left_is_sound()
    ensures { LeftIsSound }
{}
