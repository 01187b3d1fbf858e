//! How a frame is written. All of a frame but its rows fits on the stack, and so do the rows of one page, which are
//! written at once; so writing a frame takes no memory.
ghost use Rattle.std.specs.Prelude.{◌≡◌, ◌+◌, ◌*◌, ◌<◌, ◌≤◌, ◌++◌, ◌∷◌, [], true, length, OnOk, option_map};
ghost use Rattle.std.specs.Io.KnownBytes.{Appends};
ghost use Rattle.std.specs.List.{flat_map};
ghost use Rattle.arrayvec.specs.ArrayVec.{array_vec_len};
ghost use Rattle.pvp_types.specs.declared.command.Cmd.TheVariants.{PayOut, Paid, Returned};
ghost use Rattle.vr_types.specs.declared.message.MsgOf.TheVariants as message;
ghost use Rattle.vr_types.specs.Messages.{known_in};
ghost use Rattle.vr_types.specs.Pages.{page_rows};
ghost use Rattle.pvp_wire.specs.Shape.{Fits, EachFits};
ghost use Rattle.pvp_wire.specs.Layout as layout;
ghost use Rattle.pvp_wire.specs.Layout.{MessageFits};
ghost use Rattle.pvp_wire.specs.Spelling as spell;
ghost use Rattle.pvp_wire.specs.Pieces as piece;
ghost use Rattle.pvp_wire.specs.Fits.{IsSpelled};

use crate::reading::VERSION;
use crate::stamped::{Message, Stamp, Stamped};
use arrayvec::ArrayVec;
use byteorder::{BigEndian, ByteOrder};
use pvp_types::{Cmd, PayOrder, Reason, Reply};
use std::io::{self, Write};
use vr_types::{
    DoViewChangeOf, Known, MAX_ROWS, MsgOf, NewStateOf, PAGE_ROWS, PrepareOf, RecoveryResponseOf,
    ReplyOf, RequestOf, RowOf, RowsOf, StartViewChange, StartViewOf, StateOf,
};

/// Bytes on the stack, with room for all of a message in front of its rows.
type Piece = ArrayVec<u8, 64>;

/// Bytes on the stack, with room for the rows of a page: 64 of at most 31 bytes. A new one is filled with zeros, so it
/// is no larger than that.
type Page = ArrayVec<u8, 1984>;

/// Writes the one spelling of a stamped envelope, which must have one: see `wireable`. It takes no memory.
///
/// An `Err` is the writer's; how much was written by then is not specified. Rows are written a page at a time.
pub fn encode<W: Write>(stamped: &Stamped, writer: &mut W) -> io::Result<()>
    requires { spell.is_wireable stamped.now ≡ true }
    ensures written { OnOk result (Appends (W.contents writer.old) (W.contents writer.new)
        (spell.spelling stamped.now)) }
    // So `decode` reads it again.
    ensures spelled { OnOk result (IsSpelled stamped.now) }
{
    let msg = &stamped.envelope.msg;
    let mut front = Piece::new();
    push_front(&mut front, msg);
    let mut head = Piece::new();
    push_head(&mut head, stamped, front.len() as u32 + rows_len(msg));
    writer.write_all(head.as_slice())?;
    writer.write_all(front.as_slice())?;
    write_rows(msg, writer)
}

/// The rows at the end of a message.
fn last_rows(msg: &Message) -> Option<&RowsOf<Cmd>>
    ensures { option_map (λ lent. lent.now) result ≡ piece.last_rows msg.now }
{
    match msg {
        MsgOf::DoViewChange(msg) => Some(&msg.rows),
        MsgOf::StartView(msg) => Some(&msg.rows),
        MsgOf::NewState(msg) => Some(&msg.rows),
        MsgOf::RecoveryResponse(msg) => rows_of(&msg.state),
        _ => None,
    }
}

/// The rows of a state, where there is one.
fn rows_of(state: &Option<StateOf<Cmd>>) -> Option<&RowsOf<Cmd>>
    ensures { option_map (λ lent. lent.now) result ≡ piece.rows_of state.now }
{
    match state {
        Some(state) => Some(&state.rows),
        None => None,
    }
}

/// How many bytes the rows at the end of a message take.
fn rows_len(msg: &Message) -> u32
    ensures exact { result ≡ length (piece.spelled (piece.last_rows msg.now)) }
    ensures few { result ≤ spell.most_rows }
    ensures fits { piece.LastFits (piece.last_rows msg.now) }
{
    match last_rows(msg) {
        Some(rows) => each_len(rows),
        None => 0,
    }
}

/// How many bytes the rows of a list take.
#[tactic(auto, unfolding(crate::specs::Layout::rows))]
fn each_len(rows: &RowsOf<Cmd>) -> u32
    ensures exact { result ≡ length (flat_map layout.row.spell rows.now) }
    ensures few { result ≤ spell.most_rows }
    ensures fits { layout.rows.Fits rows.now }
{
    let mut len = 0;
    for page in 0..page_count(rows) {
        len += page_len(page_at(rows, page));
    }
    len
}

/// A number of pages on which all rows of a list lie.
fn page_count(rows: &RowsOf<Cmd>) -> usize
    ensures all { length rows.now ≤ page_rows * result }
    ensures few { length rows.now ≤ MAX_ROWS }
{
    rows.len().div_ceil(PAGE_ROWS)
}

/// The rows of a page; none behind the last one.
fn page_at(rows: &RowsOf<Cmd>, page: usize) -> &[RowOf<Cmd>]
    ensures rows { result.now ≡ piece.rows_at rows.now page }
    ensures few { length result.now ≤ page_rows }
{
    match rows.page(page) {
        Some(rows) => rows,
        None => &[],
    }
}

/// How many bytes the rows of a page take.
fn page_len(page: &[RowOf<Cmd>]) -> u32
    requires { length page.now ≤ page_rows }
    ensures exact { result ≡ length (flat_map layout.row.spell page.now) }
    ensures few { result ≤ spell.most_row * length page.now }
    ensures fits { EachFits layout.row.Fits page.now }
{
    let mut len = 0;
    for row in page {
        len += row_len(*row);
    }
    len
}

/// How many bytes a row takes.
#[tactic(auto, unfolding(crate::specs::Layout::row))]
fn row_len(row: RowOf<Cmd>) -> u32
    ensures exact { result ≡ length (layout.row.spell row) }
    ensures few { result ≤ spell.most_row }
    ensures fits { layout.row.Fits row }
{
    6 + command_len(row.cmd)
}

/// How many bytes a command takes: its tag and its fields.
#[tactic(auto, using(crate::proofs::Lengths::lengths))]
fn command_len(cmd: Cmd) -> u32
    ensures { result ≡ length (layout.command.spell cmd) }
{
    match cmd {
        Cmd::Instruct(_) => 25,
        Cmd::Rescind { .. } => 5,
        Cmd::Fund { .. } => 16,
        Cmd::Settle { .. } => 5,
        Cmd::PayOut { .. } => 10,
        Cmd::Paid { .. } => 6,
        Cmd::Returned { .. } => 6,
    }
}

/// Writes the rows at the end of a message.
fn write_rows<W: Write>(msg: &Message, writer: &mut W) -> io::Result<()>
    ensures { OnOk result (Appends (W.contents writer.old) (W.contents writer.new)
        (piece.spelled (piece.last_rows msg.now))) }
{
    match last_rows(msg) {
        Some(rows) => write_each(rows, writer),
        None => Ok(()),
    }
}

/// Writes the rows of a list, a page at a time.
fn write_each<W: Write>(rows: &RowsOf<Cmd>, writer: &mut W) -> io::Result<()>
    ensures { OnOk result (Appends (W.contents writer.old) (W.contents writer.new)
        (flat_map layout.row.spell rows.now)) }
{
    for at in 0..page_count(rows) {
        write_page(page_at(rows, at), writer)?;
    }
    Ok(())
}

/// Writes the rows of a page at once.
fn write_page<W: Write>(rows: &[RowOf<Cmd>], writer: &mut W) -> io::Result<()>
    requires { length rows.now ≤ page_rows }
    ensures { OnOk result (Appends (W.contents writer.old) (W.contents writer.new)
        (flat_map layout.row.spell rows.now)) }
{
    let mut page = Page::new();
    for row in rows {
        push_row(&mut page, *row);
    }
    writer.write_all(page.as_slice())
}

/// The length of a frame whose body has `body` bytes, and its head.
fn push_head(out: &mut Piece, stamped: &Stamped, body: u32)
    requires room { array_vec_len out.old + 22 ≤ piece.room }
    requires short { body ≤ spell.most_body }
    ensures bytes { out.new.items ≡ out.old.items ++ spell.number 4 (18 + body)
        ++ spell.head stamped.now }
    ensures fits { layout.stamp.Fits stamped.now.stamp × Fits 2 stamped.now.envelope.to }
{
    push_u32(out, 18 + body);
    push_kind(out, &stamped.envelope.msg);
    push_stamp(out, stamped.stamp);
    push_u16(out, stamped.envelope.to);
}

/// The version, and a message's kind.
fn push_kind(out: &mut Piece, msg: &Message)
    requires { array_vec_len out.old + 2 ≤ piece.room }
    ensures bytes { out.new.items ≡ out.old.items ++ spell.version ∷ spell.kind msg.now ∷ [] }
    ensures len { array_vec_len out.new ≡ array_vec_len out.old + 2 }
{
    push_tag(out, VERSION);
    push_tag(out, kind_of(msg));
}

#[tactic(auto, unfolding(crate::specs::Layout::stamp))]
fn push_stamp(out: &mut Piece, stamp: Stamp)
    requires { array_vec_len out.old + 14 ≤ piece.room }
    ensures bytes { out.new.items ≡ out.old.items ++ layout.stamp.spell stamp }
    ensures len { array_vec_len out.new ≡ array_vec_len out.old + 14 }
    ensures fits { layout.stamp.Fits stamp }
{
    push_u16(out, stamp.actor);
    push_u64(out, stamp.clock);
    push_u32(out, stamp.index);
}

/// The bytes of a field, put into a piece or a page.
fn push_field<const N: usize>(out: &mut ArrayVec<u8, N>, field: &[u8])
    requires { array_vec_len out.old + length field.now ≤ N }
    ensures bytes { out.new.items ≡ out.old.items ++ field.now }
    ensures len { array_vec_len out.new ≡ array_vec_len out.old + length field.now }
{
    // there is room
    let _ = out.try_extend_from_slice(field);
}

#[tactic(auto, unfolding(crate::specs::Spelling::number))]
fn push_u8<const N: usize>(out: &mut ArrayVec<u8, N>, number: u8)
    requires { array_vec_len out.old + 1 ≤ N }
    ensures bytes { out.new.items ≡ out.old.items ++ spell.number 1 number }
    ensures len { array_vec_len out.new ≡ array_vec_len out.old + 1 }
{
    out.push(number);
}

#[tactic(auto, unfolding(crate::specs::Spelling::number))]
fn push_u16<const N: usize>(out: &mut ArrayVec<u8, N>, number: u16)
    requires { array_vec_len out.old + 2 ≤ N }
    ensures bytes { out.new.items ≡ out.old.items ++ spell.number 2 number }
    ensures len { array_vec_len out.new ≡ array_vec_len out.old + 2 }
{
    let mut field = [0; 2];
    BigEndian::write_u16(&mut field, number);
    push_field(out, &field);
}

#[tactic(auto, unfolding(crate::specs::Spelling::number))]
fn push_u32<const N: usize>(out: &mut ArrayVec<u8, N>, number: u32)
    requires { array_vec_len out.old + 4 ≤ N }
    ensures bytes { out.new.items ≡ out.old.items ++ spell.number 4 number }
    ensures len { array_vec_len out.new ≡ array_vec_len out.old + 4 }
{
    let mut field = [0; 4];
    BigEndian::write_u32(&mut field, number);
    push_field(out, &field);
}

#[tactic(auto, unfolding(crate::specs::Spelling::number))]
fn push_u64<const N: usize>(out: &mut ArrayVec<u8, N>, number: u64)
    requires { array_vec_len out.old + 8 ≤ N }
    ensures bytes { out.new.items ≡ out.old.items ++ spell.number 8 number }
    ensures len { array_vec_len out.new ≡ array_vec_len out.old + 8 }
{
    let mut field = [0; 8];
    BigEndian::write_u64(&mut field, number);
    push_field(out, &field);
}

/// A byte that says what follows.
fn push_tag<const N: usize>(out: &mut ArrayVec<u8, N>, tag: u8)
    requires { array_vec_len out.old + 1 ≤ N }
    ensures bytes { out.new.items ≡ out.old.items ++ tag ∷ [] }
    ensures len { array_vec_len out.new ≡ array_vec_len out.old + 1 }
{
    out.push(tag);
}

/// A command: its tag, then its fields.
fn push_command<const N: usize>(out: &mut ArrayVec<u8, N>, cmd: Cmd)
    requires { array_vec_len out.old + 25 ≤ N }
    ensures bytes { out.new.items ≡ out.old.items ++ layout.command.spell cmd }
    ensures len { array_vec_len out.new ≤ array_vec_len out.old + 25 }
    ensures fits { layout.command.Fits cmd }
{
    match cmd {
        Cmd::Instruct(asked) => {
            push_tagged(out, 1, asked.reference);
            push_u16(out, asked.other);
            push_leg(out, asked.sell, asked.sell_amt);
            push_leg(out, asked.buy, asked.buy_amt);
        }
        Cmd::Rescind { reference } => push_tagged(out, 2, reference),
        Cmd::Fund {
            ccy,
            pay,
            member,
            amt,
        } => {
            push_tag(out, 3);
            push_payment(out, ccy, pay, member, amt);
        }
        Cmd::Settle { most } => push_tagged(out, 4, most),
        Cmd::PayOut { ccy, amt } => push_pay_out(out, ccy, amt),
        Cmd::Paid { ccy, out: number } => push_paid(out, ccy, number),
        Cmd::Returned { ccy, out: number } => push_returned(out, ccy, number),
    }
}

/// A member's request for a pay-out.
fn push_pay_out<const N: usize>(out: &mut ArrayVec<u8, N>, ccy: u8, amt: u64)
    requires { array_vec_len out.old + 10 ≤ N }
    ensures bytes { out.new.items ≡ out.old.items ++ layout.command.spell (PayOut ccy amt) }
    ensures len { array_vec_len out.new ≡ array_vec_len out.old + 10 }
{
    push_tag(out, 5);
    push_leg(out, ccy, amt);
}

/// A node's report that it paid an order.
fn push_paid<const N: usize>(out: &mut ArrayVec<u8, N>, ccy: u8, number: u32)
    requires { array_vec_len out.old + 6 ≤ N }
    ensures bytes { out.new.items ≡ out.old.items ++ layout.command.spell (Paid ccy number) }
    ensures len { array_vec_len out.new ≡ array_vec_len out.old + 6 }
{
    push_tag(out, 6);
    push_u8(out, ccy);
    push_u32(out, number);
}

/// A node's report that it returned an order.
fn push_returned<const N: usize>(out: &mut ArrayVec<u8, N>, ccy: u8, number: u32)
    requires { array_vec_len out.old + 6 ≤ N }
    ensures bytes { out.new.items ≡ out.old.items ++ layout.command.spell (Returned ccy number) }
    ensures len { array_vec_len out.new ≡ array_vec_len out.old + 6 }
{
    push_tag(out, 7);
    push_u8(out, ccy);
    push_u32(out, number);
}

/// A tag and a number of four bytes.
fn push_tagged<const N: usize>(out: &mut ArrayVec<u8, N>, tag: u8, number: u32)
    requires { array_vec_len out.old + 5 ≤ N }
    ensures bytes { out.new.items ≡ out.old.items ++ tag ∷ spell.number 4 number }
    ensures len { array_vec_len out.new ≡ array_vec_len out.old + 5 }
{
    push_tag(out, tag);
    push_u32(out, number);
}

/// A currency and an amount.
fn push_leg<const N: usize>(out: &mut ArrayVec<u8, N>, ccy: u8, amt: u64)
    requires { array_vec_len out.old + 9 ≤ N }
    ensures bytes { out.new.items ≡ out.old.items ++ spell.number 1 ccy ++ spell.number 8 amt }
    ensures len { array_vec_len out.new ≡ array_vec_len out.old + 9 }
{
    push_u8(out, ccy);
    push_u64(out, amt);
}

/// A payment at a currency's node, in or out: its number there, the member and the amount.
fn push_payment<const N: usize>(
    out: &mut ArrayVec<u8, N>,
    ccy: u8,
    number: u32,
    member: u16,
    amt: u64,
)
    requires { array_vec_len out.old + 15 ≤ N }
    ensures bytes { out.new.items ≡ out.old.items ++ spell.number 1 ccy ++ spell.number 4 number
        ++ spell.number 2 member ++ spell.number 8 amt }
    ensures len { array_vec_len out.new ≡ array_vec_len out.old + 15 }
{
    push_u8(out, ccy);
    push_u32(out, number);
    push_u16(out, member);
    push_u64(out, amt);
}

/// The number of a reason's code.
fn reason_number(reason: Reason) -> u8
    ensures { result ≡ layout.reason_number reason }
{
    match reason {
        Reason::NotYours => 1,
        Reason::UnknownMember => 2,
        Reason::UnknownCurrency => 3,
        Reason::BadAmount => 4,
        Reason::Repeated => 5,
        Reason::Mismatch => 6,
        Reason::UnknownReference => 7,
        Reason::Late => 8,
        Reason::Short => 9,
        Reason::TestFails => 10,
        Reason::BankShort => 11,
    }
}

/// An answer: its tag, then its field.
fn push_reply(out: &mut Piece, reply: Reply)
    requires { array_vec_len out.old + 5 ≤ piece.room }
    ensures bytes { out.new.items ≡ out.old.items ++ layout.reply.spell reply }
    ensures len { array_vec_len out.new ≤ array_vec_len out.old + 5 }
    ensures fits { layout.reply.Fits reply }
{
    match reply {
        Reply::Done => push_tag(out, 1),
        Reply::Matched => push_tag(out, 2),
        Reply::Settled(count) => push_tagged(out, 3, count),
        Reply::Order(number) => push_tagged(out, 4, number),
        Reply::No(reason) => {
            push_tag(out, 5);
            push_tag(out, reason_number(reason));
        }
    }
}

/// A pay-out's order.
#[tactic(auto, unfolding(crate::specs::Layout::order))]
fn push_order(out: &mut Piece, order: PayOrder)
    requires { array_vec_len out.old + 15 ≤ piece.room }
    ensures bytes { out.new.items ≡ out.old.items ++ layout.order.spell order }
    ensures len { array_vec_len out.new ≡ array_vec_len out.old + 15 }
    ensures fits { layout.order.Fits order }
{
    push_payment(out, order.ccy, order.out, order.member, order.amt);
}

#[tactic(auto, unfolding(crate::specs::Layout::row))]
fn push_row<const N: usize>(out: &mut ArrayVec<u8, N>, row: RowOf<Cmd>)
    requires { array_vec_len out.old + 31 ≤ N }
    ensures bytes { out.new.items ≡ out.old.items ++ layout.row.spell row }
    ensures len { array_vec_len out.new ≤ array_vec_len out.old + 31 }
    ensures fits { layout.row.Fits row }
{
    push_u16(out, row.client);
    push_u32(out, row.number);
    push_command(out, row.cmd);
}

/// How many rows there are. The rows themselves follow it.
#[tactic(auto, unfolding(crate::specs::Layout::rows))]
fn push_count(out: &mut Piece, rows: &RowsOf<Cmd>)
    requires { array_vec_len out.old + 2 ≤ piece.room }
    ensures bytes { out.new.items ++ flat_map layout.row.spell rows.now
        ≡ out.old.items ++ layout.rows.spell rows.now }
    ensures len { array_vec_len out.new ≡ array_vec_len out.old + 2 }
{
    push_u16(out, rows.len() as u16);
}

/// The number of sites, then the boot number of each.
#[tactic(auto, unfolding(crate::specs::Layout::boots))]
fn push_boots(out: &mut Piece, known: &Known)
    requires room { array_vec_len out.old + 29 ≤ piece.room }
    requires count { spell.is_site_count (length known.now) ≡ true }
    ensures bytes { out.new.items ≡ out.old.items ++ layout.boots.spell known.now }
    ensures len { array_vec_len out.new ≤ array_vec_len out.old + 29 }
    ensures fits { layout.boots.Fits known.now }
{
    push_u8(out, known.len() as u8);
    for site in 0..known.len() {
        push_u32(out, known.get(site as u16));
    }
}

/// 0, or 1 and the part of the state in front of its rows.
#[tactic(auto, unfolding(crate::specs::Layout::state))]
fn push_state(out: &mut Piece, state: &Option<StateOf<Cmd>>)
    requires { array_vec_len out.old + 5 ≤ piece.room }
    ensures bytes { out.new.items ++ piece.spelled (piece.rows_of state.now)
        ≡ out.old.items ++ layout.state_option.spell state.now }
    ensures fits { piece.LastFits (piece.rows_of state.now) → layout.state_option.Fits state.now }
{
    match state {
        None => push_tag(out, 0),
        Some(state) => {
            push_tag(out, 1);
            push_u16(out, state.done);
            push_count(out, &state.rows);
        }
    }
}

/// The kind of a message, 1 to 13.
fn kind_of(msg: &Message) -> u8
    ensures { result ≡ spell.kind msg.now }
{
    match msg {
        MsgOf::Request(_) => 1,
        MsgOf::Prepare(_) => 2,
        MsgOf::PrepareOk(_) => 3,
        MsgOf::Commit(_) => 4,
        MsgOf::StartViewChange(_) => 5,
        MsgOf::DoViewChange(_) => 6,
        MsgOf::StartView(_) => 7,
        MsgOf::GetState(_) => 8,
        MsgOf::NewState(_) => 9,
        MsgOf::Recovery(_) => 10,
        MsgOf::RecoveryResponse(_) => 11,
        MsgOf::Reply(_) => 12,
        MsgOf::PayOrder(_) => 13,
    }
}

/// A view and a number of two bytes.
fn push_view_and_place(out: &mut Piece, view: u32, place: u16)
    requires { array_vec_len out.old + 6 ≤ piece.room }
    ensures bytes { out.new.items ≡ out.old.items ++ spell.number 4 view ++ spell.number 2 place }
    ensures len { array_vec_len out.new ≡ array_vec_len out.old + 6 }
{
    push_u32(out, view);
    push_u16(out, place);
}

/// The fields of a message in front of the rows at its end.
fn push_front(out: &mut Piece, msg: &Message)
    requires count { spell.has_site_count (known_in msg.now) ≡ true }
    requires room { array_vec_len out.old + 42 ≤ piece.room }
    ensures bytes { out.new.items ++ piece.spelled (piece.last_rows msg.now)
        ≡ out.old.items ++ spell.body msg.now }
    ensures fits { piece.LastFits (piece.last_rows msg.now) → MessageFits msg.now }
{
    match msg {
        MsgOf::Request(msg) => push_request(out, *msg),
        MsgOf::Prepare(msg) => push_prepare(out, msg),
        MsgOf::PrepareOk(msg) => push_view_and_place(out, msg.view, msg.place),
        MsgOf::Commit(msg) => push_view_and_place(out, msg.view, msg.done),
        MsgOf::StartViewChange(msg) => push_start_view_change(out, msg),
        MsgOf::DoViewChange(msg) => push_do_view_change(out, msg),
        MsgOf::StartView(msg) => push_start_view(out, msg),
        MsgOf::GetState(msg) => push_view_and_place(out, msg.view, msg.base),
        MsgOf::NewState(msg) => push_new_state(out, msg),
        MsgOf::Recovery(msg) => push_u32(out, msg.nonce),
        MsgOf::RecoveryResponse(msg) => push_regained(out, msg),
        MsgOf::Reply(msg) => push_answer(out, *msg),
        MsgOf::PayOrder(order) => push_order(out, *order),
    }
}

#[tactic(auto, unfolding(crate::specs::Layout::request))]
fn push_request(out: &mut Piece, msg: RequestOf<Cmd>)
    requires { array_vec_len out.old + 29 ≤ piece.room }
    ensures bytes { out.new.items ≡ out.old.items ++ spell.body (message.Request msg) }
    ensures fits { MessageFits (message.Request msg) }
{
    push_u32(out, msg.number);
    push_command(out, msg.cmd);
}

#[tactic(auto, unfolding(crate::specs::Layout::prepare))]
fn push_prepare(out: &mut Piece, msg: &PrepareOf<Cmd>)
    requires { array_vec_len out.old + 39 ≤ piece.room }
    ensures bytes { out.new.items ≡ out.old.items ++ spell.body (message.Prepare msg.now) }
    ensures fits { MessageFits (message.Prepare msg.now) }
{
    push_view_and_place(out, msg.view, msg.place);
    push_u16(out, msg.done);
    push_row(out, msg.row);
}

#[tactic(auto, unfolding(crate::specs::Layout::start_view_change))]
fn push_start_view_change(out: &mut Piece, msg: &StartViewChange)
    requires count { spell.is_site_count (length msg.now.known) ≡ true }
    requires room { array_vec_len out.old + 33 ≤ piece.room }
    ensures bytes { out.new.items ≡ out.old.items ++ spell.body (message.StartViewChange msg.now) }
    ensures fits { MessageFits (message.StartViewChange msg.now) }
{
    push_u32(out, msg.view);
    push_boots(out, &msg.known);
}

#[tactic(auto, unfolding(crate::specs::Layout::do_view_change))]
fn push_do_view_change(out: &mut Piece, msg: &DoViewChangeOf<Cmd>)
    requires count { spell.is_site_count (length msg.now.known) ≡ true }
    requires room { array_vec_len out.old + 41 ≤ piece.room }
    ensures bytes { out.new.items ++ flat_map layout.row.spell msg.now.rows
        ≡ out.old.items ++ spell.body (message.DoViewChange msg.now) }
    ensures fits { layout.rows.Fits msg.now.rows → MessageFits (message.DoViewChange msg.now) }
{
    push_u32(out, msg.view);
    push_view_and_place(out, msg.last_normal, msg.done);
    push_boots(out, &msg.known);
    push_count(out, &msg.rows);
}

#[tactic(auto, unfolding(crate::specs::Layout::start_view))]
fn push_start_view(out: &mut Piece, msg: &StartViewOf<Cmd>)
    requires { array_vec_len out.old + 8 ≤ piece.room }
    ensures bytes { out.new.items ++ flat_map layout.row.spell msg.now.rows
        ≡ out.old.items ++ spell.body (message.StartView msg.now) }
    ensures fits { layout.rows.Fits msg.now.rows → MessageFits (message.StartView msg.now) }
{
    push_view_and_place(out, msg.view, msg.done);
    push_count(out, &msg.rows);
}

#[tactic(auto, unfolding(crate::specs::Layout::new_state))]
fn push_new_state(out: &mut Piece, msg: &NewStateOf<Cmd>)
    requires { array_vec_len out.old + 10 ≤ piece.room }
    ensures bytes { out.new.items ++ flat_map layout.row.spell msg.now.rows
        ≡ out.old.items ++ spell.body (message.NewState msg.now) }
    ensures fits { layout.rows.Fits msg.now.rows → MessageFits (message.NewState msg.now) }
{
    push_view_and_place(out, msg.view, msg.base);
    push_u16(out, msg.done);
    push_count(out, &msg.rows);
}

/// The answer of a site to a recovering one, without its rows.
#[tactic(auto, unfolding(crate::specs::Layout::recovery_response))]
fn push_regained(out: &mut Piece, msg: &RecoveryResponseOf<Cmd>)
    requires count { spell.is_site_count (length msg.now.known) ≡ true }
    requires room { array_vec_len out.old + 42 ≤ piece.room }
    ensures bytes { out.new.items ++ piece.spelled (piece.rows_of msg.now.state) ≡ out.old.items
        ++ spell.body (message.RecoveryResponse msg.now) }
    ensures fits { piece.LastFits (piece.rows_of msg.now.state) →
        MessageFits (message.RecoveryResponse msg.now) }
{
    push_u32(out, msg.view);
    push_u32(out, msg.nonce);
    push_boots(out, &msg.known);
    push_state(out, &msg.state);
}

/// The answer to a client.
#[tactic(auto, unfolding(crate::specs::Layout::answer))]
fn push_answer(out: &mut Piece, msg: ReplyOf<Reply>)
    requires { array_vec_len out.old + 13 ≤ piece.room }
    ensures bytes { out.new.items ≡ out.old.items ++ spell.body (message.Reply msg) }
    ensures fits { MessageFits (message.Reply msg) }
{
    push_u32(out, msg.view);
    push_u32(out, msg.number);
    push_reply(out, msg.reply);
}
