//! The payments on the way between a node and a book.

ghost use Rattle.std.specs.Prelude.{◌≡◌, ◌++◌, OnOk, string_bytes};
ghost use Rattle.headline.specs.Way.{way};
ghost use Rattle.pvp_play.specs.BooksText.{Matches, figure_text};

use pvp_book::Book;
use rtgs_node::Node;
use std::alloc::AllocError;

/// Appends the figure of a book in the node's currency, and what is on the way between the two.
pub fn push_figure(text: &mut String, ccy: u8, node: &Node, book: &Book) -> Result<(), AllocError>
    requires { Matches ccy node.now.node book.now }
    ensures { OnOk result (string_bytes text.new
        ≡ string_bytes text.old ++ figure_text ccy node.now.node book.now) }
{
    let figure = book.figure(ccy);
    let way = way(ccy, node, book);
    write!(text, " figure {figure} way {way}")
}

/// What is on the way between a node and a book, in minor units: the pay-ins and pay-outs that the one has and the
/// other lacks. As the node's account is the figure and the way together, no payment is looked at.
fn way(ccy: u8, node: &Node, book: &Book) -> i128
    requires { Matches ccy node.now.node book.now }
    ensures { result ≡ way ccy node.now.node book.now.entries }
{
    i128::from(node.account()) - i128::from(book.figure(ccy))
}
