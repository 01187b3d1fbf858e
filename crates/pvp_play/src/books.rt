//! The printed books of a world: the book of each site, the bank's account at each node, and what clients were
//! answered.

ghost use Rattle.std.specs.Prelude.{◌≡◌, ◌++◌, ◌⊎◌, Err, OnOk, IfErr, Some, slice_get, string_bytes};
ghost use Rattle.std.specs.Io.KnownBytes.{Appends};
ghost use Rattle.std.specs.List.{flat_map, enumerate_from};
ghost use Rattle.pvp_text.specs.declared.book.RunFault.TheVariants.{NoMemory, Output};
ghost use Rattle.pvp_play.specs.BooksText.{SiteMatches, books_text, site_text, status_text, standing_text, node_text, node_line, code_of, returned_text, way_line, client_text, name_of, answer_text};

mod way;

use crate::books::way::push_figure;
use pvp_book::Book;
use pvp_text::book::{RunFault, push_block, write_text};
use pvp_types::{Reply, Setup};
use pvp_world::{Client, World};
use rtgs_node::Node;
use std::alloc::{AllocError, Global};
use std::io::Write;
use vr_site::Replica;
use vr_types::{BootCell, Status};

/// Writes the books of all sites, the accounts at all nodes and what clients were answered. Where memory is refused
/// nothing is written; how much was where the writer fails is not said.
pub fn print_books<C: BootCell, W: Write>(
    alloc: Global,
    world: &World<C>,
    writer: &mut W,
) -> Result<(), RunFault>
    ensures written { OnOk result
        (Appends (W.contents writer.old) (W.contents writer.new) (books_text C.held world.now)) }
    ensures fault { IfErr result (λ fault. (fault ≡ NoMemory) ⊎ (fault ≡ Output)) }
    ensures no_memory { result ≡ Err NoMemory → writer.new ≡ writer.old }
{
    let mut text = String::new(alloc);
    push_books(&mut text, world)?;
    write_text(writer, text.as_str())
}

/// Appends the books of all sites, the accounts at all nodes and what clients were answered.
pub fn push_books<C: BootCell>(text: &mut String, world: &World<C>) -> Result<(), AllocError>
    ensures { OnOk result (string_bytes text.new
        ≡ string_bytes text.old ++ books_text C.held world.now) }
{
    push_sites(text, world)?;
    push_nodes(text, world)?;
    push_clients(text, world)
}

/// Appends what is printed of each site.
fn push_sites<C: BootCell>(text: &mut String, world: &World<C>) -> Result<(), AllocError>
    ensures { OnOk result (string_bytes text.new
        ≡ string_bytes text.old ++ flat_map (site_text C.held) (enumerate_from 0 world.now.sites)) }
{
    world.is_proved();
    let sites = 2 * world.setup().faults() + 1;
    for i in 0..sites {
        if let Some(site) = world.site(i) {
            push_site(text, i, site)?;
        }
    }
    Ok(())
}

/// Appends where a site stands and, where it runs, the block of its book.
fn push_site<C: BootCell>(
    text: &mut String,
    i: u16,
    site: &Replica<Book, C>,
) -> Result<(), AllocError>
    ensures { OnOk result (string_bytes text.new
        ≡ string_bytes text.old ++ site_text C.held (i, site.now)) }
{
    write!(text, "site {i} ")?;
    push_status(text, site)?;
    let boots = site.boot().boots;
    write!(text, " cell {boots}\n")?;
    match site.machine() {
        Some(book) => push_block(text, "  ", book),
        None => Ok(()),
    }
}

/// Appends a site's status and, where it runs, where it stands.
fn push_status<C: BootCell>(text: &mut String, site: &Replica<Book, C>) -> Result<(), AllocError>
    ensures { OnOk result (string_bytes text.new
        ≡ string_bytes text.old ++ status_text site.now.volatile site.now.volatile.status) }
{
    match site.status() {
        Status::Normal => {
            text.push_str("normal")?;
            push_standing(text, site)
        }
        Status::Change => {
            text.push_str("change")?;
            push_standing(text, site)
        }
        Status::Recovering => text.push_str("recovering"),
        Status::Down => text.push_str("down"),
    }
}

/// Appends where a running site stands: its view, and its rows.
fn push_standing<C: BootCell>(text: &mut String, site: &Replica<Book, C>) -> Result<(), AllocError>
    ensures { OnOk result (string_bytes text.new
        ≡ string_bytes text.old ++ standing_text site.now.volatile) }
{
    let view = site.view();
    let rows = site.log_len();
    let done = site.done();
    write!(text, " view {view} log {rows} done {done}")
}

/// Appends what is printed of each node.
fn push_nodes<C: BootCell>(text: &mut String, world: &World<C>) -> Result<(), AllocError>
    ensures { OnOk result (string_bytes text.new
        ≡ string_bytes text.old ++ flat_map (node_text C.held world.now)
        (enumerate_from 0 world.now.nodes)) }
{
    world.is_proved();
    let currencies = world.setup().currency_count();
    for ccy in 0..currencies {
        if let Some(node) = world.node(ccy) {
            push_account(text, world.setup(), ccy, node)?;
            push_figures(text, world, ccy, node)?;
        }
    }
    Ok(())
}

/// Appends the bank's account at a node, and how many payments the node has.
fn push_account(text: &mut String, setup: &Setup, ccy: u8, node: &Node) -> Result<(), AllocError>
    ensures { OnOk result (string_bytes text.new
        ≡ string_bytes text.old ++ node_line setup.now ccy node.now.node) }
{
    let code = code_of(setup, ccy);
    let account = node.account();
    let pay_ins = node.pay_ins().len();
    let pay_outs = node.pay_outs().len();
    write!(
        text,
        "node {code} account {account} payins {pay_ins} payouts {pay_outs}"
    )?;
    push_returned(text, node.returned())?;
    text.push_str("\n")
}

/// Appends how many orders were returned, where some were.
fn push_returned(text: &mut String, returned: usize) -> Result<(), AllocError>
    ensures { OnOk result (string_bytes text.new
        ≡ string_bytes text.old ++ returned_text returned) }
{
    if returned == 0 {
        return Ok(());
    }
    write!(text, " returned {returned}")
}

/// A currency's code, and no text where there is no such currency.
fn code_of(setup: &Setup, ccy: u8) -> &str
    ensures { result.now ≡ code_of setup.now ccy }
{
    match setup.currencies.get(usize::from(ccy)) {
        Some(currency) => currency.code.as_str(),
        None => "",
    }
}

/// Appends the figure of each running site in a node's currency, and what is on the way between the two.
fn push_figures<C: BootCell>(
    text: &mut String,
    world: &World<C>,
    ccy: u8,
    node: &Node,
) -> Result<(), AllocError>
    requires { slice_get world.now.nodes ccy ≡ Some node.now }
    ensures { OnOk result (string_bytes text.new
        ≡ string_bytes text.old ++ flat_map (way_line C.held ccy node.now.node)
        (enumerate_from 0 world.now.sites)) }
{
    world.is_proved();
    let sites = 2 * world.setup().faults() + 1;
    for i in 0..sites {
        if let Some(site) = world.site(i) {
            push_site_figure(text, i, site, ccy, node)?;
        }
    }
    Ok(())
}

/// Appends the figure of a site in a node's currency, and what is on the way between the two, where it runs.
fn push_site_figure<C: BootCell>(
    text: &mut String,
    i: u16,
    site: &Replica<Book, C>,
    ccy: u8,
    node: &Node,
) -> Result<(), AllocError>
    requires { SiteMatches C.held ccy node.now.node site.now }
    ensures { OnOk result (string_bytes text.new
        ≡ string_bytes text.old ++ way_line C.held ccy node.now.node (i, site.now)) }
{
    let Some(book) = site.machine() else {
        return Ok(());
    };
    write!(text, "  site {i}")?;
    push_figure(text, ccy, node, book)?;
    text.push_str("\n")
}

/// Appends what is printed of each client.
fn push_clients<C: BootCell>(text: &mut String, world: &World<C>) -> Result<(), AllocError>
    ensures { OnOk result (string_bytes text.new
        ≡ string_bytes text.old ++ flat_map (client_text world.now.setup)
        (enumerate_from 0 world.now.clients)) }
{
    world.is_proved();
    let clients = world.setup().member_count() + 1;
    for k in 0..clients {
        if let Some(client) = world.client(k) {
            push_client(text, world.setup(), k, client)?;
        }
    }
    Ok(())
}

/// Appends a client's last request and its answer; nothing where it has sent none.
fn push_client(text: &mut String, setup: &Setup, k: u16, client: &Client) -> Result<(), AllocError>
    ensures { OnOk result (string_bytes text.new
        ≡ string_bytes text.old ++ client_text setup.now (k, client.now)) }
{
    let number = client.number();
    if number == 0 {
        return Ok(());
    }
    let name = name_of(setup, k);
    write!(text, "client {name} {number} ")?;
    push_answer(text, client.answer())?;
    text.push_str("\n")
}

/// The name of a client: of the operator, or of a member, and no text where there is no such member.
fn name_of(setup: &Setup, k: u16) -> &str
    ensures { result.now ≡ name_of setup.now k }
{
    if k == 0 {
        return "OP";
    }
    match setup.members.get(usize::from(k) - 1) {
        Some(member) => member.name.as_str(),
        None => "",
    }
}

/// Appends an answer, or that it has not come.
fn push_answer(text: &mut String, answer: Option<Reply>) -> Result<(), AllocError>
    ensures { OnOk result (string_bytes text.new ≡ string_bytes text.old ++ answer_text answer) }
{
    match answer {
        Some(reply) => write!(text, "{reply}"),
        None => text.push_str("waits"),
    }
}
