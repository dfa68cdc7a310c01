//! The configuration of the sample site.
ghost use Rattle.std.specs.Prelude.{◌≡◌, IfOk};
ghost use Rattle.acct_site.specs.SampleSite as site;

use crate::config::Config;
use crate::sample_client::sample_clients;
use crate::sample_key::sample_keys;
use crate::sample_plan::sample_plans;
use acct_desk::KeysError;
use std::alloc::Global;

/// The configuration of the sample site.
///
/// # Errors
///
/// Only if an allocation fails.
pub fn sample_config(alloc: Global) -> Result<Config, KeysError>
    ensures clients { IfOk result (λ config. config.clients ≡ site.sample_clients) }
    ensures plans { IfOk result (λ config. config.plans ≡ site.sample_plans) }
    ensures keys { IfOk result (λ config. config.keys ≡ site.sample_keys) }
{
    Ok(Config {
        clients: sample_clients(alloc)?,
        plans: sample_plans(alloc)?,
        keys: sample_keys(alloc)?,
    })
}
