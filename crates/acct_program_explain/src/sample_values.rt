//! Values of the public sample that a configuration has.
use crate::headers::header_line;
use crate::reading::text_of;
use acct_desk::DeskKey;
use acct_model::Text;
use acct_reads::ReadsFiles;
use acct_site::{Config, sample_config};
use acct_site_config::config_of;
use acct_wire::Client;
use std::alloc::Global;
use std::io::Write;

/// Writes a line for each secret and each token of a configuration that the sample has, too: the
/// sample is public. The line says where the value is, and not what it is. Writes nothing if the
/// configuration is wrong, or is no regular file. A writer that fails changes nothing.
pub fn warn_of_sample<R: ReadsFiles, E: Write>(
    runtime: &R,
    alloc: Global,
    file: &Text,
    errors: &mut E,
) {
    let file = file.as_str();
    let Some(text) = text_of(runtime, alloc, file) else {
        return;
    };
    let text = text.as_str();
    if let (Ok(site), Ok(sample)) = (config_of(alloc, text), sample_config(alloc)) {
        warn_of_secrets(file, text, &site, &sample, errors);
        warn_of_tokens(file, text, &site, &sample, errors);
    }
}

// Writes a line for each client of a site that has a secret of the sample.
fn warn_of_secrets<E: Write>(
    file: &str,
    text: &str,
    site: &Config,
    sample: &Config,
    errors: &mut E,
) {
    let clients = site.clients.list();
    for (index, client) in clients.iter().enumerate() {
        if has_secret_of(sample.clients.list(), client) {
            let line = header_line(text, "client", index, clients.len());
            tell_secret(file, line, client.name.as_str(), errors);
        }
    }
}

// Writes a line for each key of a site that has a token of the sample.
fn warn_of_tokens<E: Write>(
    file: &str,
    text: &str,
    site: &Config,
    sample: &Config,
    errors: &mut E,
) {
    let keys = site.keys.list();
    for (index, key) in keys.iter().enumerate() {
        if has_token_of(sample.keys.list(), key) {
            let line = header_line(text, "key", index, keys.len());
            tell_token(file, line, index, errors);
        }
    }
}

// Whether one of these clients has the secret of a client.
fn has_secret_of(clients: &[Client], client: &Client) -> bool {
    clients.iter().any(|other| other.secret == client.secret)
}

// Whether one of these keys has the token of a key.
fn has_token_of(keys: &[DeskKey], key: &DeskKey) -> bool {
    keys.iter().any(|other| other.token == key.token)
}

// Writes that the client of this name has a secret of the sample.
fn tell_secret<E: Write>(file: &str, line: Option<usize>, name: &str, errors: &mut E) {
    let _ = match line {
        Some(line) => writeln!(
            errors,
            "warning: {file} line {line}: the secret of client {name} is the sample's, which is public"
        ),
        None => writeln!(
            errors,
            "warning: {file}: the secret of client {name} is the sample's, which is public"
        ),
    };
}

// Writes that the key at this index has a token of the sample.
fn tell_token<E: Write>(file: &str, line: Option<usize>, index: usize, errors: &mut E) {
    let _ = match line {
        Some(line) => writeln!(
            errors,
            "warning: {file} line {line}: the token of Key {index} is the sample's, which is public"
        ),
        None => writeln!(
            errors,
            "warning: {file}: the token of Key {index} is the sample's, which is public"
        ),
    };
}
