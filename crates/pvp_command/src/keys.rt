//! Keys files for all actors of a bank.

use crate::fault::Fault;
use crate::files::{Files, Source, read_source};
use pvp_audit::Shelf;
use pvp_live::actors::numbers_of;
use pvp_places::{write_keys, write_tokens};
use pvp_text::read_setup;
use pvp_trace::names::push_actor;
use pvp_types::Setup;
use std::alloc::Global;

/// Puts a keys file for each actor of a bank into a folder, by the bank's secret: who has the file of one can speak for no
/// other. Beside them it puts the tokens of those who read the bank's windows.
pub fn put_keys<F: Files, K: Shelf>(
    alloc: Global,
    files: &F,
    shelf: &mut K,
    setup: &str,
    secret: &str,
    folder: &str,
) -> Result<(), Fault> {
    let text = read_source(alloc, files, Source::Setup, setup)?;
    let setup = read_setup(alloc, text.as_slice())?;
    let secret = read_source(alloc, files, Source::Secret, secret)?;
    let actors = numbers_of(alloc, &setup)?;
    if let Err(fault) = shelf.open(folder) {
        return Err(Fault::Shelf(fault));
    }
    for actor in actors.as_slice() {
        put_one(
            alloc,
            shelf,
            &setup,
            secret.as_slice(),
            folder,
            *actor,
            actors.as_slice(),
        )?;
    }
    let mut tokens = String::new(alloc);
    write_tokens(&setup, secret.as_slice(), actors.as_slice(), &mut tokens)?;
    put_file(alloc, shelf, folder, "window.tokens", &tokens)
}

/// Puts a file there.
fn put_file<K: Shelf>(
    alloc: Global,
    shelf: &mut K,
    folder: &str,
    file: &str,
    text: &String,
) -> Result<(), Fault> {
    let mut name = String::from_str(alloc, folder)?;
    name.push_str("/")?;
    name.push_str(file)?;
    match shelf.put(name.as_str(), text.as_str().as_bytes()) {
        Ok(()) => Ok(()),
        Err(fault) => Err(Fault::Shelf(fault)),
    }
}

/// Puts the keys file of one of them there.
fn put_one<K: Shelf>(
    alloc: Global,
    shelf: &mut K,
    setup: &Setup,
    secret: &[u8],
    folder: &str,
    actor: u16,
    actors: &[u16],
) -> Result<(), Fault> {
    let mut file = String::new(alloc);
    push_actor(&mut file, setup, actor)?;
    file.push_str(".keys")?;
    let mut text = String::new(alloc);
    write_keys(setup, secret, actor, actors, &mut text)?;
    put_file(alloc, shelf, folder, file.as_str(), &text)
}
