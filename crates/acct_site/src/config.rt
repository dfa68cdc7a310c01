//! The configuration of a site.
use acct_desk::Keys;
use acct_model::Plans;
use acct_wire::Clients;

/// Who may report, what its users pay, and who may ask the desk.
pub struct Config {
    /// The clients, in the order of their tables.
    pub clients: Clients,
    /// The plans, in the order of their tables.
    pub plans: Plans,
    /// The keys, in the order of their tables.
    pub keys: Keys,
}

impl Drop for Config {
    fn drop(self) {
        let Config {
            clients: _,
            plans: _,
            keys: _,
        } = self;
    }
}
