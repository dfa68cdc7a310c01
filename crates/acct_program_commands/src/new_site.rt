//! The configuration that replaces another one while a server runs.
//!
//! 1. The server takes the clients and keys of a text if the text is right. It keeps the plans that
//!    it began with: plans are added to a book while no server serves it.
//! 2. It prints what it read, taken or not, and the first plan that differs.
ghost use Rattle.std.specs.Prelude.{◌≡◌, ◌↔◌, None, Some, Err, IsTrue, IfOk, IfErr, IfSome, IfNone};
ghost use Rattle.std.specs.Prelude.{◌++◌, ◌∷◌, [], OnOk, if◌then◌else◌, option_map, string_bytes};
ghost use Rattle.std.specs.Io.KnownBytes.{Appends};
ghost use Rattle.acct_model.specs.Plans.{Extends, plan_class};
ghost use Rattle.acct_site_config.specs.Tables.{top_error};
ghost use Rattle.acct_program_commands.specs.Checks.{IsRead};
ghost use Rattle.acct_program_commands.specs.NewSite.{read_again_text, sizes_of, kept_line};
ghost use Rattle.acct_program_commands.specs.NewSite.{change_text};
ghost use Rattle.acct_program_commands.specs.NewSite.{plan_change_text, HaveSame, HasBeyond};
ghost use Rattle.acct_program_commands.specs.NewSite.{IsChange};
ghost use Rattle.acct_program_commands.specs.NewSite.{NamesChange, IsTaken, TakesOrRefuses};
ghost use Rattle.acct_program_commands.specs.NewSite.{TellsOfPlans, TellsTaken, unnamed_text};

use crate::config_file::config_in;
use crate::fault::Fault;
use acct_model::{NoMemory, Octets, Plan, Plans, show};
use acct_program::InputFault;
use acct_site::Config;
use acct_site_config::{ConfigError, ConfigKind, ConfigTable};
use std::alloc::Global;
use std::io::Write;
use std::{fmt, io};

// Printed if plans differ and there is no memory to name one.
const UNNAMED: &str = "; the plans differ, and stay";

/// What was taken from one reading of the configuration.
#[derive(Drop)]
pub struct Taken {
    /// The configuration for the turns that follow, if it is another one.
    pub site: Option<Config>,
    /// Whether the configuration in force has everything that the text has.
    pub is_current: bool,
    /// Why the text is no configuration, if it is none.
    pub refused: Option<Fault>,
    /// Whether this could be printed.
    pub printed: io::Result<()>,
}

// The sizes of a configuration that is taken.
#[derive(Clone, Copy)]
struct Sizes {
    clients: usize,
    plans: usize,
    keys: usize,
}

impl fmt::Display for Sizes {
    ghost output = { λ sizes. Some (read_again_text sizes) };

    fn fmt<W: fmt::Write>(&self, f: &mut fmt::Formatter<W>) -> fmt::Result {
        let (clients, plans, keys) = (self.clients, self.plans, self.keys);
        write!(
            f,
            "config: read again: {clients} clients, {plans} plans, {keys} keys"
        )
    }
}

// How the plan of a class in a text differs from the one in force.
#[derive(Clone, Copy, PartialEq, Eq)]
enum Change {
    // No plan in force has the class.
    New,
    // No plan of the text has the class.
    Missing,
    // The plan in force is another one.
    Other,
}

impl fmt::Display for Change {
    ghost output = { λ change. Some (change_text change) };

    fn fmt<W: fmt::Write>(&self, f: &mut fmt::Formatter<W>) -> fmt::Result {
        match self {
            Change::New => f.write_str("is new"),
            Change::Missing => f.write_str("is missing"),
            Change::Other => f.write_str("is changed"),
        }
    }
}

/// The configuration that replaces one with these plans, made from a reading of its text: the
/// clients and keys, if the text is right. Prints on `errors` its sizes, or why the old one stays.
pub fn take_site<E: Write>(
    alloc: Global,
    read: Result<Octets, InputFault>,
    plans: &Plans,
    errors: &mut E,
) -> Taken
    ensures taken { IsTaken plans.now read result.site result.is_current }
    ensures one { TakesOrRefuses plans.now read result.site result.is_current result.refused }
    ensures prints { OnOk result.printed (TellsTaken plans.now read result.site result.refused
        (E.contents errors.old) (E.contents errors.new)) }
{
    match judge(alloc, read, plans) {
        Ok((site, is_current, change)) => {
            let change = told_change(&change, is_current);
            let printed = write_read_again(errors, sizes_of(&site), change);
            Taken {
                site: Some(site),
                is_current,
                refused: None,
                printed,
            }
        }
        Err(fault) => {
            let printed = write_kept(errors, fault);
            Taken {
                site: None,
                is_current: false,
                refused: Some(fault),
                printed,
            }
        }
    }
}

// What is printed behind the sizes of a configuration: nothing if its own plans are in force, else
// which plan differs, if there was memory to name it.
fn told_change(change: &Option<String>, is_current: bool) -> &str
    ensures named { IfSome change.now (λ text. result.now ≡ string_bytes text) }
    ensures unnamed { change.now ≡ None
        → result.now ≡ (if is_current then [] else unnamed_text) }
{
    match change {
        Some(text) => text.as_str(),
        None if is_current => "",
        None => UNNAMED,
    }
}

// The configuration that was read, but with these plans; whether its own plans are the same; and,
// if not, the first one that differs, as it is printed.
fn judge(
    alloc: Global,
    read: Result<Octets, InputFault>,
    plans: &Plans,
) -> Result<(Config, bool, Option<String>), Fault>
    ensures taken { IfOk result (λ judged. IsTaken plans.now read (Some judged.0) judged.1) }
    ensures change { IfOk result (λ judged. TellsOfPlans plans.now read judged.1
        (option_map string_bytes judged.2)) }
    ensures refused { IfErr result (λ fault. IsRead read (Err fault)) }
{
    let mut site = config_in(alloc, read)?;
    let (is_current, change) = compared(alloc, &site.plans, plans);
    match copied(alloc, plans) {
        Ok(plans) => {
            site.plans = plans;
            Ok((site, is_current, change))
        }
        Err(NoMemory) => Err(no_memory()),
    }
}

// Whether the plans of a text are those in force, in any order. If not, the first one that differs,
// as it is printed, if there is memory for it.
fn compared(alloc: Global, own: &Plans, in_force: &Plans) -> (bool, Option<String>)
    ensures current { IsTrue result.0 ↔ HaveSame own.now in_force.now }
    ensures named { IfSome result.1
        (λ text. NamesChange own.now in_force.now (string_bytes text)) }
    ensures silent { IsTrue result.0 → result.1 ≡ None }
{
    match plan_change(own, in_force) {
        Some((plan, how)) => match shown_change(alloc, plan, how) {
            Ok(text) => (false, Some(text)),
            Err(NoMemory) => (false, None),
        },
        None => (true, None),
    }
}

// The first plan of a text that is not in force, and how it differs. Else the first one in force
// that is not in the text.
fn plan_change<'p>(own: &'p Plans, in_force: &'p Plans) -> Option<(&'p Plan, Change)>
    ensures some { IfSome result (λ change. IsChange own.now in_force.now change.0.now change.1) }
    ensures none { IfNone result (HaveSame own.now in_force.now) }
{
    if let Some(plan) = first_beyond(own.list(), in_force.list()) {
        if has_class_of(in_force, plan) {
            return Some((plan, Change::Other));
        }
        return Some((plan, Change::New));
    }
    let Some(plan) = first_beyond(in_force.list(), own.list()) else {
        return None;
    };
    if has_class_of(own, plan) {
        return Some((plan, Change::Other));
    }
    Some((plan, Change::Missing))
}

// Whether one of these plans has the class of another plan.
fn has_class_of(plans: &Plans, other: &Plan) -> bool
    ensures { IsTrue result ↔ (plan_class plans.now other.now.class ≡ other.now.class) }
{
    plans.plan_of(other.class.as_slice()).class == other.class
}

// The first of these plans that is not one of the others.
fn first_beyond<'p>(plans: &'p [Plan], others: &[Plan]) -> Option<&'p Plan>
    ensures some { IfSome result (λ plan. HasBeyond plans.now others.now plan.now) }
    ensures none { IfNone result (Extends others.now plans.now) }
{
    for plan in plans {
        if !plan.is_among(others) {
            return Some(plan);
        }
    }
    None
}

// How a plan differs, as it is printed.
fn shown_change(alloc: Global, plan: &Plan, how: Change) -> Result<String, NoMemory>
    ensures { IfOk result (λ text. string_bytes text ≡ plan_change_text plan.now how) }
{
    let Ok(class) = show(alloc, plan.class.as_slice()) else {
        return Err(NoMemory);
    };
    match format!(in alloc; "; plan {class} {how}; the plans stay") {
        Ok(text) => Ok(text),
        Err(_) => Err(NoMemory),
    }
}

// A copy of the plans.
fn copied(alloc: Global, plans: &Plans) -> Result<Plans, NoMemory>
    ensures { IfOk result (λ copy. copy ≡ plans.now) }
{
    let mut copies = Vec::new(alloc);
    for plan in plans.list() {
        let Ok(class) = plan.class.copy(alloc) else {
            return Err(NoMemory);
        };
        let copy = Plan {
            class,
            block: plan.block,
            unit: plan.unit,
            count: plan.count,
        };
        if copies.push(copy).is_err() {
            return Err(NoMemory);
        }
    }
    Plans::new(copies).map_err(|_| NoMemory)
}

// The fault if there is no memory for the plans.
fn no_memory() -> Fault
    ensures { result ≡ Fault.Config (top_error ConfigKind.Memory) }
{
    Fault::Config(ConfigError {
        kind: ConfigKind::Memory,
        table: ConfigTable::Top,
        index: 0,
    })
}

// The sizes of a configuration.
fn sizes_of(site: &Config) -> Sizes
    ensures { result ≡ sizes_of site.now }
{
    Sizes {
        clients: site.clients.list().len(),
        plans: site.plans.list().len(),
        keys: site.keys.list().len(),
    }
}

// Prints the sizes of a configuration that was taken, and which plan of its text differs.
fn write_read_again<E: Write>(errors: &mut E, sizes: Sizes, change: &str) -> io::Result<()>
    ensures { OnOk result (Appends (E.contents errors.old) (E.contents errors.new)
        (read_again_text sizes ++ change.now ++ 10 ∷ [])) }
{
    writeln!(errors, "{sizes}{change}")?;
    errors.flush()
}

// Prints why a configuration was not taken.
fn write_kept<E: Write>(errors: &mut E, why: Fault) -> io::Result<()>
    ensures { OnOk result (Appends (E.contents errors.old) (E.contents errors.new)
        (kept_line why)) }
{
    writeln!(errors, "{why}; the old one stays")?;
    errors.flush()
}
