//! The bytes of a reply, read.
ghost use Rattle.std.specs.Prelude.{◌≡◌, ◌≢◌, codes, find, IfOk, IfErr, Some, None, IsTrue, OnOk};
ghost use Rattle.std.specs.Str.{bytes_eq};
ghost use Rattle.serde_json.specs.View.{view};
ghost use Rattle.reply_json.specs.declared.reply.Reply.{Reply};
ghost use Rattle.reply_json.specs.declared.reply.ReplyFault.{ReplyFault};
ghost use Rattle.reply_json.specs.Meaning.{IsTextOf, IsNoReply};
ghost use Rattle.reply_json.specs.Printed.{fault_name, reply_text};
ghost use Rattle.reply_json.specs.Reading.{member_number, table_reply, stat_reply, fault_named, fault_in, fault_reply, no_memory_reply, reply_of, reply_in};
ghost use Rattle.reply_json.specs.Types.{ReplyFits};
ghost use Rattle.reply_json.specs.Validity.{is_valid_reply};

use crate::printing::fault_name;
use crate::rows::{rows_in, u32_of};
use crate::{Reply, ReplyFault, is_valid_reply, print_reply};
use cube_view::Stat;
use query_syntax::{QueryFault, Table};
use serde_json::Value;
use std::alloc::Global;
use texts::NoMemory;

const FAULTS: [QueryFault; 16] = [
    QueryFault::NotText,
    QueryFault::LongLine,
    QueryFault::BadQuote,
    QueryFault::UnknownVerb,
    QueryFault::MissingWord,
    QueryFault::BadNumber,
    QueryFault::OutOfRange,
    QueryFault::BadTile,
    QueryFault::TooDeep,
    QueryFault::UnknownCategory,
    QueryFault::UnknownValue,
    QueryFault::RepeatedFilter,
    QueryFault::UnknownFilter,
    QueryFault::TimeInSeries,
    QueryFault::InWithWindow,
    QueryFault::SameCategory,
];

fn member_number(value: &Value, name: &str) -> Option<u64>
    ensures { result ≡ member_number (view value.now) name.now }
{
    value.get(name).and_then(Value::as_u64)
}

fn table_reply(alloc: Global, value: &Value, rows: &Value) -> Result<Option<Reply>, NoMemory>
    ensures { IfOk result (λ found. found ≡ table_reply (view value.now) (view rows.now)) }
{
    let Some(seen) = member_number(value, "seen") else {
        return Ok(None);
    };
    match rows_in(alloc, rows)? {
        Some(rows) => Ok(Some(Reply::Table(Table { rows, seen }))),
        None => Ok(None),
    }
}

fn stat_reply(value: &Value, nodes: u64) -> Option<Reply>
    ensures { result ≡ stat_reply (view value.now) nodes }
{
    let proper = member_number(value, "proper")?;
    let seen = member_number(value, "seen")?;
    let shared = member_number(value, "shared")?;
    let tables = member_number(value, "tables")?;
    let stat = Stat {
        nodes,
        tables,
        proper,
        shared,
    };
    Some(Reply::Stat(stat, seen))
}

fn same_bytes(s: &[u8], t: &[u8]) -> bool
    ensures { result ≡ bytes_eq s.now t.now }
{
    s == t
}

fn has_name(fault: QueryFault, name: &str) -> bool
    ensures { result ≡ bytes_eq (fault_name fault) name.now }
{
    fault_name(fault) == name
}

fn fault_named(name: &str) -> Option<QueryFault>
    ensures { result ≡ fault_named name.now }
{
    FAULTS.iter().copied().find(|fault| has_name(*fault, name))
}

fn fault_in(value: &Value) -> Option<QueryFault>
    ensures { result ≡ fault_in (view value.now) }
{
    let name = value.get("fault").and_then(Value::as_str)?;
    fault_named(name)
}

fn fault_reply(value: &Value, word: u64) -> Option<Reply>
    ensures { result ≡ fault_reply (view value.now) word }
{
    let word = u32_of(word)?;
    let fault = fault_in(value)?;
    Some(Reply::Fault(fault, word))
}

fn no_memory_reply(value: &Value) -> Option<Reply>
    ensures { result ≡ no_memory_reply (view value.now) }
{
    let name = value.get("fault").and_then(Value::as_str)?;
    if name == "NoMemory" {
        Some(Reply::NoMemory)
    } else {
        None
    }
}

#[tactic(auto, unfolding(crate::specs::Reading::reply_of))]
fn reply_of(alloc: Global, value: &Value) -> Result<Option<Reply>, NoMemory>
    ensures { IfOk result (λ found. found ≡ reply_of (view value.now)) }
{
    if let Some(rows) = value.get("rows") {
        return table_reply(alloc, value, rows);
    }
    if let Some(nodes) = member_number(value, "nodes") {
        return Ok(stat_reply(value, nodes));
    }
    if let Some(told) = member_number(value, "told") {
        return Ok(Some(Reply::Told(told)));
    }
    if let Some(word) = member_number(value, "at") {
        return Ok(fault_reply(value, word));
    }
    Ok(no_memory_reply(value))
}

fn reply_in(alloc: Global, bytes: &[u8]) -> Result<Reply, ReplyFault>
    ensures found { IfOk result (λ reply. reply_in bytes.now ≡ Some reply) }
    ensures nothing { IfErr result (λ fault. fault ≢ ReplyFault.NoMemory → IsNoReply bytes.now) }
{
    let value = match Value::from_slice(alloc, bytes) {
        Ok(value) => value,
        Err(error) if error.is_memory() => return Err(ReplyFault::NoMemory),
        Err(_) => return Err(ReplyFault::NotReply),
    };
    match reply_of(alloc, &value) {
        Ok(Some(reply)) => Ok(reply),
        Ok(None) => Err(ReplyFault::NotReply),
        Err(_) => Err(ReplyFault::NoMemory),
    }
}

// Whether the bytes are the text of the reply.
fn is_text(alloc: Global, reply: &Reply, bytes: &[u8]) -> Result<bool, NoMemory>
    requires { IsTrue (is_valid_reply reply.now) }
    ensures same { IfOk result (λ same. same ≡ bytes_eq (reply_text reply.now) bytes.now) }
    ensures fits { OnOk result (ReplyFits reply.now) }
{
    let printed = print_reply(alloc, reply)?;
    Ok(same_bytes(printed.as_slice(), bytes))
}

/// The reply whose text the bytes are, or the fault that they are the text of no valid reply.
pub fn read_reply(alloc: Global, bytes: &[u8]) -> Result<Reply, ReplyFault>
    ensures read { IfOk result (λ reply. IsTextOf reply bytes.now) }
    ensures only { IfOk result (λ reply. (other : Reply) → IsTextOf other bytes.now → other ≡ reply) }
    ensures refused { IfErr result (λ fault. fault ≢ ReplyFault.NoMemory → IsNoReply bytes.now) }
{
    let reply = reply_in(alloc, bytes)?;
    if !is_valid_reply(&reply) {
        return Err(ReplyFault::NotReply);
    }
    match is_text(alloc, &reply, bytes) {
        Ok(true) => Ok(reply),
        Ok(false) => Err(ReplyFault::NotReply),
        Err(_) => Err(ReplyFault::NoMemory),
    }
}
